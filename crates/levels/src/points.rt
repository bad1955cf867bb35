// The new positions of one level, in any number that the rules weigh: read in one part of the lent coordinates, written in the other.
ghost use Rattle.std.specs.Prelude.{◌≡◌, ◌+◌, ◌*◌, ◌≤◌, ◌<◌, length};
ghost use Rattle.std.proofs.lemmas.List.Edits.{sets};
ghost use Rattle.lists.specs.Lists.{part};
ghost use Rattle.rules.specs.Mesh.{links};
ghost use Rattle.rules.specs.Position.{numbers_of};
ghost use Rattle.rules.specs.Levels.{moved, new_positions};
ghost use Rattle.weights.specs.Weights.{staged};
ghost use Rattle.levels.specs.Level.{mesh_in};
ghost use Rattle.levels.specs.Moves.{Movable, Placed, edges_in, old_point, old_points, edge_point, edge_points};

use crate::first_met;
use faces::rings::one_ring;
use faces::sides::{VertNo, backward, onward};
use turns::MOST_VALENCE;
use weights::{Stage, Weighed};

// Vertex u of the mesh that stands at `at`, whose coordinates are xs, by its ring and the stage.
#[inline(always)]
pub fn moved_point<N: Weighed>(
    words: &[u32],
    at: usize,
    nf: usize,
    nv: usize,
    xs: &[N],
    u: usize,
    stage: Stage,
) -> N::Point
    requires mesh { Movable words.now at nf nv × (u < nv) }
    requires coords { (3 * nv ≤ length xs.now) × N.AllNear xs.now }
    ensures point { N.listed result ≡ moved (numbers_of N.on) (staged stage) (mesh_in words.now at nf nv) (links (part at (3 * nf) words.now)) xs.now u }
    ensures near { N.Raised result }
{
    let s = words[at + 6 * nf + u] as usize;
    let mut vs: [u32; MOST_VALENCE] = [0; MOST_VALENCE];
    let ring = one_ring(words, at, at + 3 * nf, nf, s, &mut vs);
    N::vertex(xs, VertNo(u as u32), &vs[..ring.n], ring.rim, stage)
}

// Old vertex u at the next level.
fn old_point<N: Weighed>(
    words: &[u32],
    at: usize,
    nf: usize,
    nv: usize,
    work: &[N],
    from: usize,
    u: usize,
) -> N::Point
    requires mesh { Movable words.now at nf nv × (u < nv) }
    requires room { from + 3 * nv ≤ length work.now }
    requires near { N.AllNear (part from (3 * nv) work.now) }
    ensures point { N.listed result ≡ old_point (numbers_of N.on) words.now at nf (part from (3 * nv) work.now) nv u }
    ensures near { N.Raised result }
{
    let xs = &work[from..from + 3 * nv];
    moved_point(words, at, nf, nv, xs, u, Stage::Refining)
}

// The new vertex of the edge of side s, by the corners of its face and of the face across.
fn edge_point<N: Weighed>(
    words: &[u32],
    at: usize,
    nf: usize,
    nv: usize,
    work: &[N],
    from: usize,
    s: usize,
) -> N::Point
    requires mesh { Movable words.now at nf nv × (s < 3 * nf) }
    requires room { from + 3 * nv ≤ length work.now }
    requires near { N.AllNear (part from (3 * nv) work.now) }
    ensures point { N.listed result ≡ edge_point (numbers_of N.on) words.now at nf (part from (3 * nv) work.now) s }
    ensures near { N.Raised result }
{
    let a = VertNo(words[at + s]);
    let b = VertNo(words[at + onward(s)]);
    let w = words[at + 3 * nf + s];
    if w == 0 {
        N::edge_rim(&work[from..from + 3 * nv], a, b)
    } else {
        let d = VertNo(words[at + backward(s)]);
        let e = VertNo(words[at + backward((w - 1) as usize)]);
        N::edge_inner(&work[from..from + 3 * nv], a, b, d, e)
    }
}

fn old_points<N: Weighed>(
    words: &[u32],
    at: usize,
    nf: usize,
    nv: usize,
    work: &mut [N],
    from: usize,
    to: usize,
)
    requires mesh { Movable words.now at nf nv }
    requires room { Placed (length work.old) from to nv (edges_in words.now at nf) }
    requires near { N.AllNear (part from (3 * nv) work.old) }
    ensures { work.new ≡ sets work.old to (old_points (numbers_of N.on) words.now at nf (part from (3 * nv) work.old) nv) }
{
    for u in 0..nv {
        let p = old_point(words, at, nf, nv, &work[..], from, u);
        N::put(p, work, to + 3 * u);
    }
}

// The new vertices of the edges, in the order in which these are first met.
fn edge_points<N: Weighed>(
    words: &[u32],
    at: usize,
    nf: usize,
    nv: usize,
    work: &mut [N],
    from: usize,
    to: usize,
)
    requires mesh { Movable words.now at nf nv }
    requires room { Placed (length work.old) from to nv (edges_in words.now at nf) }
    requires near { N.AllNear (part from (3 * nv) work.old) }
    ensures { work.new ≡ sets work.old (to + 3 * nv) (edge_points (numbers_of N.on) words.now at nf (part from (3 * nv) work.old)) }
{
    let mut k = 0;
    for s in 0..3 * nf {
        if first_met(words[at + 3 * nf + s], s as u32) {
            let p = edge_point(words, at, nf, nv, &work[..], from, s);
            N::put(p, work, to + 3 * nv + 3 * k);
            k += 1;
        }
    }
}

// The coordinates of the refined mesh, at `to`, from those of the mesh in the words, at `from`.
pub fn refine_points<N: Weighed>(
    words: &[u32],
    at: usize,
    nf: usize,
    nv: usize,
    work: &mut [N],
    from: usize,
    to: usize,
)
    requires mesh { Movable words.now at nf nv }
    requires room { Placed (length work.old) from to nv (edges_in words.now at nf) }
    requires near { N.AllNear (part from (3 * nv) work.old) }
    ensures { work.new ≡ sets work.old to (new_positions (numbers_of N.on) (mesh_in words.now at nf nv) (links (part at (3 * nf) words.now)) (part from (3 * nv) work.old)) }
{
    old_points(words, at, nf, nv, work, from, to);
    edge_points(words, at, nf, nv, work, from, to);
}
