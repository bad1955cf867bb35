// The new positions of one level, and the limit: `points` of crate `creases` and the limit of crate `sharp`, where each ring and each far corner is looked up.
ghost use Rattle.std.specs.Prelude.{◌≡◌, ◌+◌, ◌*◌, ◌≤◌, ◌<◌, length};
ghost use Rattle.std.proofs.lemmas.List.Edits.{sets};
ghost use Rattle.lists.specs.Lists.{part};
ghost use Rattle.rules.specs.Mesh.{links};
ghost use Rattle.rules.specs.Position.{whole, limit as at_limit};
ghost use Rattle.rules.specs.Sharp.{sharp_moved, sharp_new, sharp_limits};
ghost use Rattle.rules.specs.Sound.{AllNear};
ghost use Rattle.weights.specs.Lent.{lowered, Raised3};
ghost use Rattle.levels.specs.Level.{mesh_in};
ghost use Rattle.levels.specs.Moves.{Placed, edges_in};
ghost use Rattle.marks.specs.Marks.{marks_in};
ghost use Rattle.creases.specs.Moves.{sharp_old, sharp_olds, sharp_edge_at, sharp_edges};
ghost use Rattle.plain.specs.Level.{Movable};

use creases::creased;
use faces::sides::VertNo;
use levels::first_met;
use looks::across;
use looks::rings::{far_of, next_of, sharp_ring};
use marks::mark;
use turns::MOST_VALENCE;
use weights::micrometres::Whole3;
use weights::{Stage, Weighed};

// Old vertex u by its ring.
fn old_point(
    words: &[u32],
    at: usize,
    marks: usize,
    nf: usize,
    nv: usize,
    work: &[i32],
    from: usize,
    u: usize,
) -> Whole3
    requires mesh { Movable words.now at marks nf nv × (u < nv) }
    requires room { from + 3 * nv ≤ length work.now }
    requires near { AllNear (part from (3 * nv) work.now) }
    ensures point { lowered result ≡ sharp_old whole words.now at marks nf (part from (3 * nv) work.now) nv u }
    ensures near { Raised3 result }
{
    let s = words[at + 6 * nf + u] as usize;
    let mut vs: [u32; MOST_VALENCE] = [0; MOST_VALENCE];
    let ring = sharp_ring(words, at, marks, nf, s, &mut vs);
    creased(
        &work[from..from + 3 * nv],
        VertNo(u as u32),
        &vs[..ring.n],
        ring.creases,
        ring.a,
        ring.b,
        Stage::Refining,
    )
}

// The new vertex of the edge of side s, the middle of its ends where it is sharp: by the corners of its face and of the face across.
fn edge_point(
    words: &[u32],
    at: usize,
    marks: usize,
    nf: usize,
    nv: usize,
    work: &[i32],
    from: usize,
    s: usize,
) -> Whole3
    requires mesh { Movable words.now at marks nf nv × (s < 3 * nf) }
    requires room { from + 3 * nv ≤ length work.now }
    requires near { AllNear (part from (3 * nv) work.now) }
    ensures point { lowered result ≡ sharp_edge_at whole words.now at marks nf (part from (3 * nv) work.now) s }
    ensures near { Raised3 result }
{
    let a = VertNo(words[at + s]);
    let b = VertNo(next_of(words, at, nf, s));
    let w = across(words, at, 3 * nf, s);
    if w == 0 {
        return i32::edge_rim(&work[from..from + 3 * nv], a, b);
    }
    if mark(words, marks, s) {
        return i32::edge_rim(&work[from..from + 3 * nv], a, b);
    }
    let d = VertNo(far_of(words, at, nf, s));
    let e = VertNo(far_of(words, at, nf, (w - 1) as usize));
    i32::edge_inner(&work[from..from + 3 * nv], a, b, d, e)
}

fn old_points(
    words: &[u32],
    at: usize,
    marks: usize,
    nf: usize,
    nv: usize,
    work: &mut [i32],
    from: usize,
    to: usize,
)
    requires mesh { Movable words.now at marks nf nv }
    requires room { Placed (length work.old) from to nv (edges_in words.now at nf) }
    requires near { AllNear (part from (3 * nv) work.old) }
    ensures { work.new ≡ sets work.old to (sharp_olds whole words.now at marks nf (part from (3 * nv) work.old) nv) }
{
    for u in 0..nv {
        let p = old_point(words, at, marks, nf, nv, &work[..], from, u);
        i32::put(p, work, to + 3 * u);
    }
}

// The new vertices of the edges, in the order in which these are first met.
fn edge_points(
    words: &[u32],
    at: usize,
    marks: usize,
    nf: usize,
    nv: usize,
    work: &mut [i32],
    from: usize,
    to: usize,
)
    requires mesh { Movable words.now at marks nf nv }
    requires room { Placed (length work.old) from to nv (edges_in words.now at nf) }
    requires near { AllNear (part from (3 * nv) work.old) }
    ensures { work.new ≡ sets work.old (to + 3 * nv) (sharp_edges whole words.now at marks nf (part from (3 * nv) work.old)) }
{
    let mut k = 0;
    for s in 0..3 * nf {
        let w = across(words, at, 3 * nf, s);
        if first_met(w, s as u32) {
            let p = edge_point(words, at, marks, nf, nv, &work[..], from, s);
            i32::put(p, work, to + 3 * nv + 3 * k);
            k += 1;
        }
    }
}

// The coordinates of the refined mesh, at `to`, from those of the mesh in the words, at `from`.
pub fn refine_points(
    words: &[u32],
    at: usize,
    marks: usize,
    nf: usize,
    nv: usize,
    work: &mut [i32],
    from: usize,
    to: usize,
)
    requires mesh { Movable words.now at marks nf nv }
    requires room { Placed (length work.old) from to nv (edges_in words.now at nf) }
    requires near { AllNear (part from (3 * nv) work.old) }
    ensures { work.new ≡ sets work.old to (sharp_new whole (mesh_in words.now at nf nv) (links (part at (3 * nf) words.now)) (marks_in words.now marks nf) (part from (3 * nv) work.old)) }
{
    old_points(words, at, marks, nf, nv, work, from, to);
    edge_points(words, at, marks, nf, nv, work, from, to);
}

// Vertex u of the mesh that stands at `at`, whose coordinates are xs and whose marks stand at `marks`.
fn limit_at(
    words: &[u32],
    at: usize,
    marks: usize,
    nf: usize,
    nv: usize,
    xs: &[i32],
    u: usize,
) -> Whole3
    requires mesh { Movable words.now at marks nf nv × (u < nv) }
    requires coords { (3 * nv ≤ length xs.now) × AllNear xs.now }
    ensures point { lowered result ≡ sharp_moved whole at_limit (mesh_in words.now at nf nv) (links (part at (3 * nf) words.now)) (marks_in words.now marks nf) xs.now u }
    ensures near { Raised3 result }
{
    let s = words[at + 6 * nf + u] as usize;
    let mut vs: [u32; MOST_VALENCE] = [0; MOST_VALENCE];
    let ring = sharp_ring(words, at, marks, nf, s, &mut vs);
    creased(
        xs,
        VertNo(u as u32),
        &vs[..ring.n],
        ring.creases,
        ring.a,
        ring.b,
        Stage::Limit,
    )
}

pub fn limit(
    words: &[u32],
    at: usize,
    marks: usize,
    nf: usize,
    nv: usize,
    xs: &[i32],
    out: &mut [i32],
)
    requires mesh { Movable words.now at marks nf nv }
    requires coords { (3 * nv ≤ length xs.now) × AllNear xs.now }
    requires room { 3 * nv ≤ length out.old }
    ensures { out.new ≡ sets out.old 0 (sharp_limits whole (mesh_in words.now at nf nv) (links (part at (3 * nf) words.now)) (marks_in words.now marks nf) xs.now) }
{
    for u in 0..nv {
        let p = limit_at(words, at, marks, nf, nv, xs, u);
        i32::put(p, out, 3 * u);
    }
}
