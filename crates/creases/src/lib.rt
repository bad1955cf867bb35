// One level in whole micrometres where edges are sharp: the ring of a vertex with the sharp edges in it, and the new positions. Here a vertex by how many sharp and rim
// edges it has: the rules of crate `weights`, with marks.
#![tactic(auto)]

pub mod points;
pub mod rings;

ghost use Rattle.std.specs.Prelude.{◌≡◌, ◌<◌, true, [], ◌∷◌, length};
ghost use Rattle.rules.specs.Position.{whole};
ghost use Rattle.rules.specs.Levels.{three};
ghost use Rattle.weights.specs.Weights.{staged};
ghost use Rattle.weights.specs.Lent.{by_ring, Readable, AllReadable, lowered, Raised3};
ghost use Rattle.creases.specs.Counted.{staying, by_count, Creasable};

use faces::sides::VertNo;
use weights::micrometres::{Whole3, at};
use weights::{Stage, Weighed};

// Two sharp or rim edges: the rim's weights, with their far ends.
fn crease(xs: &[i32], v: VertNo, a: u32, b: u32, stage: Stage) -> Whole3
    requires { Readable xs.now v.0 × (Readable xs.now a × Readable xs.now b) }
    ensures point { lowered result ≡ three whole (by_ring whole (staged stage) xs.now v.0 true (a ∷ b ∷ [])) }
    ensures near { Raised3 result }
{
    let pair: [u32; 2] = [a, b];
    i32::vertex(xs, v, &pair, true, stage)
}

// Three or more: the vertex stays.
fn stay(xs: &[i32], v: VertNo) -> Whole3
    requires { Readable xs.now v.0 }
    ensures point { lowered result ≡ three whole (staying whole xs.now v.0) }
    ensures near { Raised3 result }
{
    Whole3 {
        x: at(xs, v, 0),
        y: at(xs, v, 1),
        z: at(xs, v, 2),
    }
}

// Vertex v by the rule of the stage, from its ring and its k sharp and rim edges, of which the first two lead to a and b.
pub fn creased(
    xs: &[i32],
    v: VertNo,
    ring: &[u32],
    k: usize,
    a: u32,
    b: u32,
    stage: Stage,
) -> Whole3
    requires readable { Readable xs.now v.0 × ((0 < length ring.now) × AllReadable xs.now ring.now) }
    requires creasable { Creasable xs.now k a b }
    ensures point { lowered result ≡ three whole (by_count whole (staged stage) xs.now v.0 ring.now k a b) }
    ensures near { Raised3 result }
{
    if k < 2 {
        return i32::vertex(xs, v, ring, false, stage);
    }
    if k == 2 {
        return crease(xs, v, a, b, stage);
    }
    stay(xs, v)
}
