// Check 13: the counts after the levels, from those of the control cage.
ghost use Rattle.std.specs.Prelude.{◌≡◌, not, ◌*◌, ◌≤◌, ◌<◌, length, get_or};
ghost use Rattle.lists.specs.Lists.{bit, found};
ghost use Rattle.rules.specs.Mesh.{rims as rims_in};
ghost use Rattle.faces.specs.Words.{link_of, links_in};
ghost use Rattle.limits.specs.Verdicts.{verdict_of};
ghost use Rattle.limits.specs.Sizes.{counts_after, over_of};

use super::{Check, no};
use rules::Counts;

fn rim_at(words: &[u32], s: usize) -> u32
    requires { s < length words.now }
    ensures { result ≡ bit (not (found (link_of (get_or words.now s 0)))) }
{
    if words[s] == 0 { 1 } else { 0 }
}

// How many of the first n sides are rim sides.
pub fn count_rims(words: &[u32], n: usize) -> u32
    requires { (n ≤ length words.now) × (n ≤ 12288) }
    ensures { result ≡ rims_in (links_in words.now 0 n) }
{
    let mut r = 0;
    for s in 0..n {
        r = r + rim_at(words, s);
    }
    r
}

// "With E edges, one level gives 4F faces, V+E vertices, 2E+3F edges"; and twice the rim sides.
pub fn grown(levels: u32, v: u32, f: u32, e: u32, r: u32) -> Counts
    requires { (levels ≤ 7) × (v ≤ 4096) × (f ≤ 4096) × (e ≤ 3 * f) × (r ≤ 3 * f) }
    ensures { result ≡ counts_after levels (record { verts = v; faces = f; edges = e }) r }
{
    let mut verts = v;
    let mut faces = f;
    let mut edges = e;
    let mut rims = r;
    for _ in 0..levels {
        verts = verts + edges;
        edges = 2 * edges + 3 * faces;
        faces = 4 * faces;
        rims = 2 * rims;
    }
    Counts {
        vertices: verts,
        faces: faces,
        rims: rims,
    }
}

// 13. The vertices never decide: a cage of so few vertices has over 32,768 of them only where its faces are over too.
pub fn size(c: Counts) -> Check
    ensures { result ≡ verdict_of (over_of c) }
{
    if c.faces > 32768 || c.vertices > 32768 {
        return no(13, 0);
    }
    Ok(())
}
