// docs/RULES.md, The mesh: the ring of a vertex.
ghost use Rattle.std.specs.Prelude.{◌≡◌, ◌++◌, ◌+◌, ◌-◌, ◌*◌, ◌≤◌, ◌<◌, length, get_or};
ghost use Rattle.std.proofs.lemmas.List.Edits.{sets};
ghost use Rattle.lists.specs.Lists.{part};
ghost use Rattle.turns.specs.Turns.{most_valence};
ghost use Rattle.rules.specs.Mesh as mesh;
ghost use Rattle.faces.specs.Words.{links_in};
ghost use Rattle.faces.specs.Rings.{Walkable, Mated, Ringable, Ends, trip_of, inners, backs, down_from, ring_of};

use crate::sides::{backward, onward};
use crate::walks::{Step, Trip, next_corner, prev_corner};

// The ring of a vertex: the first n of the numbers that were lent for it are its neighbours, in the order that docs/RULES.md has for an inner or a rim vertex.
#[derive(Clone, Copy)]
pub struct Ring {
    pub n: usize,
    pub rim: bool,
}

// `next_vert` of the face of corner s: where the side across starts, to which the link word leads; or the next corner, where there is none.
pub fn next_vert_at(words: &[u32], corners: usize, links: usize, nf: usize, s: usize) -> u32
    requires { Walkable words.now links nf s × (corners + 3 * nf ≤ length words.now) × Mated words.now corners links nf }
    ensures { result ≡ get_or words.now (corners + mesh.onward s) 0 }
{
    let w = words[links + s] as usize;
    if w == 0 {
        return words[corners + onward(s)];
    }
    words[corners + (w - 1)]
}

// The walk on from corner s by `next_face`, and `next_vert` of each face that it passes into the front of `out`.
fn gather_on(
    words: &[u32],
    corners: usize,
    links: usize,
    nf: usize,
    s: usize,
    out: &mut [u32],
) -> Trip
    requires walk { Walkable words.now links nf s × (corners + 3 * nf ≤ length words.now) × Mated words.now corners links nf }
    requires few { Ends (mesh.next_corner (links_in words.now links (3 * nf)) s) nf s (length out.old) }
    ensures trip { result ≡ trip_of (mesh.walk (mesh.next_corner (links_in words.now links (3 * nf)) s) nf (mesh.here s)) }
    ensures ring { out.new ≡ sets out.old 0 (inners (part corners (3 * nf) words.now) (mesh.passed (mesh.walk (mesh.next_corner (links_in words.now links (3 * nf)) s) nf (mesh.here s)))) }
{
    let mut at = s;
    for n in 0..nf {
        out[n] = next_vert_at(words, corners, links, nf, at);
        match next_corner(words, links, s, at) {
            Step::Home => return Trip::Closed(n + 1),
            Step::Off => return Trip::Ended(n + 1, at),
            Step::Here(t) => at = t,
        }
    }
    Trip::Long
}

// The first n the other way, in place: with a copy beside them its places would be kept in step all along the walk on.
#[tactic(auto, using(crate::proofs::Retrace::reversed_front))]
pub fn upend(n: usize, s: &mut [u32])
    requires { (0 < n) × (n ≤ length s.old) }
    ensures { s.new ≡ sets s.old 0 (down_from s.old (n - 1)) }
{
    s[..n].reverse();
}

// The passage goes on from corner s by `prev_face`, taking `prev_vert` of each face, into `out` from `from` on, where the walk on passed `from` faces; `end` is the end corner. How many there are in all.
fn gather_back(
    words: &[u32],
    corners: usize,
    links: usize,
    nf: usize,
    end: usize,
    s: usize,
    from: usize,
    out: &mut [u32],
) -> usize
    requires { Walkable words.now links nf s × (corners + 3 * nf ≤ length words.now) × Ends (mesh.prev_corner (links_in words.now links (3 * nf)) end) (nf + 1 - from) s (most_valence - from) × (from ≤ nf) × (most_valence ≤ length out.old) }
    ensures count { result ≡ from + length (backs (part corners (3 * nf) words.now) (mesh.passed (mesh.walk (mesh.prev_corner (links_in words.now links (3 * nf)) end) (nf + 1 - from) (mesh.here s)))) }
    ensures ring { out.new ≡ sets out.old from (backs (part corners (3 * nf) words.now) (mesh.passed (mesh.walk (mesh.prev_corner (links_in words.now links (3 * nf)) end) (nf + 1 - from) (mesh.here s)))) }
{
    let mut at = s;
    let mut n: usize = 0;
    // Stays: the walk ends by its own step; a `for` would add a bound, and an answer after it that is never given.
    loop {
        out[from + n] = words[corners + backward(at)];
        n += 1;
        match prev_corner(words, links, end, at) {
            Step::Home | Step::Off => return from + n,
            Step::Here(t) => at = t,
        }
    }
}

// On the rim: what the walk on gathered is turned over, and the passage goes on from corner s.
fn rim_rest(
    words: &[u32],
    corners: usize,
    links: usize,
    nf: usize,
    end: usize,
    s: usize,
    n: usize,
    out: &mut [u32],
) -> usize
    requires words { Walkable words.now links nf s × (corners + 3 * nf ≤ length words.now) }
    requires on { (0 < n) × (n < most_valence) × (n ≤ nf) × (most_valence ≤ length out.old) }
    requires back { Ends (mesh.prev_corner (links_in words.now links (3 * nf)) end) (nf + 1 - n) s (most_valence - n) }
    ensures count { result ≡ n + length (backs (part corners (3 * nf) words.now) (mesh.passed (mesh.walk (mesh.prev_corner (links_in words.now links (3 * nf)) end) (nf + 1 - n) (mesh.here s)))) }
    ensures ring { out.new ≡ sets out.old 0 (down_from out.old (n - 1) ++ backs (part corners (3 * nf) words.now) (mesh.passed (mesh.walk (mesh.prev_corner (links_in words.now links (3 * nf)) end) (nf + 1 - n) (mesh.here s)))) }
{
    upend(n, out);
    gather_back(words, corners, links, nf, end, s, n, out)
}

// The ring of the vertex of corner s, into the front of `out`, in one passage round it: the walk on tells the kind, and has the ring of an inner vertex. It is never `Long`; with nf
// there, and not 0, the calls take 3 to 4 % fewer instructions.
#[inline(always)]
pub fn one_ring(
    words: &[u32],
    corners: usize,
    links: usize,
    nf: usize,
    s: usize,
    out: &mut [u32],
) -> Ring
    requires { Ringable words.now corners links nf s × (most_valence ≤ length out.old) }
    ensures ring { result ≡ ring_of (part corners (3 * nf) words.now) (mesh.fan (links_in words.now links (3 * nf)) s) }
    ensures out { out.new ≡ sets out.old 0 (mesh.ring (part corners (3 * nf) words.now) (mesh.fan (links_in words.now links (3 * nf)) s)) }
{
    match gather_on(words, corners, links, nf, s, out) {
        Trip::Closed(n) => Ring { n, rim: false },
        Trip::Ended(n, end) => Ring {
            n: rim_rest(words, corners, links, nf, end, s, n, out),
            rim: true,
        },
        Trip::Long => Ring { n: nf, rim: false },
    }
}
