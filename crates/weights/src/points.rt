// The rules in f32: the weights, edges between points, and the points that lent coordinates give.
ghost use Rattle.std.specs.Prelude.{◌≡◌, ◌<◌, ◌≤◌, refl, map, length};
ghost use Rattle.std.proofs.lemmas.List.Edits.{sets};
ghost use Rattle.turns.specs.Turns.{most_valence};
ghost use Rattle.rules.specs.Position.{refining, limit, rim_rule, f32, weight};
ghost use Rattle.rules.specs.Levels.{ends};
ghost use Rattle.weights.specs.Weights.{half_point, eighth_point};
ghost use Rattle.weights.specs.Lent.{There, AllThere, listed, point_at, ringful, weighed_point, weighted_point};

use crate::{Rule, Stage, Weighed, Weight, higher, lower};
use faces::sides::VertNo;
use turns::MOST_VALENCE;
use vectors::Vec3;

impl Weight for f32 {
    ghost of = { weight };

    ghost RIM_REFINING = { weight (rim_rule refining) };

    const RIM_REFINING: f32 = 0.125;

    ghost RIM_LIMIT = { weight (rim_rule limit) };

    const RIM_LIMIT: f32 = 0.2;

    fn beta(n: usize) -> f32 {
        if n == 3 {
            Rule::<f32>::VALENCE_THREE
        } else {
            3.0 / (8.0 * number(n))
        }
    }

    fn loop_gamma(n: usize) -> f32 {
        1.0 / (number(n) + 3.0 / (8.0 * f32::beta(n)))
    }

    ghost rim_refining = { refl };

    ghost rim_limit = { refl };
}

impl Rule<f32> {
    pub const VALENCE_THREE: f32 = 0.1875;

    pub const EDGE_RIM: f32 = 0.5;

    pub const EDGE_END: f32 = 0.375;

    pub const EDGE_FAR: f32 = 0.125;

    // Vertex v, by its ring.
    pub fn weighted(self, xs: &[f32], v: VertNo, ring: &[u32]) -> Vec3
        requires { There xs.now v.0 × ((0 < length ring.now) × AllThere xs.now ring.now) }
        ensures { result ≡ weighted_point self xs.now v.0 ring.now }
    {
        match self {
            Rule::Ring(b) => weight_one_ring(xs, v, ring, b),
            Rule::Rim(b) => weight_boundary(xs, v, ring, b),
        }
    }
}

fn number(n: usize) -> f32
    requires { n ≤ most_valence }
    ensures { result ≡ f32 n }
{
    n as f32
}

// A rim edge, lower-numbered end first.
pub fn edge_rim(a: Vec3, b: Vec3) -> Vec3
    ensures { result ≡ half_point a b }
{
    a * Rule::<f32>::EDGE_RIM + b * Rule::<f32>::EDGE_RIM
}

// An inner edge: lower-numbered end, higher, far corner of the first face, of the other.
pub fn edge_inner(a: Vec3, b: Vec3, c: Vec3, d: Vec3) -> Vec3
    ensures { result ≡ eighth_point a b c d }
{
    let ends = a * Rule::<f32>::EDGE_END + b * Rule::<f32>::EDGE_END;
    ends + c * Rule::<f32>::EDGE_FAR + d * Rule::<f32>::EDGE_FAR
}

pub fn point(xs: &[f32], v: VertNo) -> Vec3
    requires { There xs.now v.0 }
    ensures { result ≡ point_at xs.now v.0 }
{
    let i = 3 * v.0 as usize;
    Vec3 {
        x: xs[i],
        y: xs[i + 1],
        z: xs[i + 2],
    }
}

// The points of a ring.
pub fn ring_points(xs: &[f32], ring: &[u32]) -> [Vec3; MOST_VALENCE]
    requires { AllThere xs.now ring.now }
    ensures { result ≡ ringful (map (point_at xs.now) ring.now) }
{
    let o = Vec3::default();
    let mut out = [o; MOST_VALENCE];
    for (i, v) in ring.iter().enumerate() {
        let q = point(xs, VertNo(*v));
        out[i] = q;
    }
    out
}

// "Own term first, then the ring in order."
pub fn weight_one_ring(xs: &[f32], v: VertNo, ring: &[u32], b: f32) -> Vec3
    requires { There xs.now v.0 × AllThere xs.now ring.now }
    ensures { result ≡ weighed_point b xs.now v.0 ring.now }
{
    let mut at = point(xs, v) * (1.0 - number(ring.len()) * b);
    for u in ring {
        let q = point(xs, VertNo(*u));
        at = at + q * b;
    }
    at
}

pub fn weight_boundary(xs: &[f32], v: VertNo, ring: &[u32], b: f32) -> Vec3
    requires { There xs.now v.0 × ((0 < length ring.now) × AllThere xs.now ring.now) }
    ensures { result ≡ weighed_point b xs.now v.0 (ends ring.now) }
{
    let own = point(xs, v) * (1.0 - 2.0 * b);
    let first = point(xs, VertNo(ring[0]));
    let last = point(xs, VertNo(ring[ring.len() - 1]));
    own + first * b + last * b
}

impl Weighed for f32 {
    type Point = Vec3;

    ghost listed = { listed };

    ghost Raised = { λ _. Unit {0} };

    ghost Readable = { There };

    ghost AllNear = { λ _. Unit {0} };

    fn vertex(xs: &[f32], v: VertNo, ring: &[u32], rim: bool, stage: Stage) -> Vec3 {
        Rule::<f32>::new(stage, rim, ring.len()).weighted(xs, v, ring)
    }

    fn edge_rim(xs: &[f32], a: VertNo, b: VertNo) -> Vec3 {
        edge_rim(point(xs, lower(a, b)), point(xs, higher(a, b)))
    }

    fn edge_inner(xs: &[f32], a: VertNo, b: VertNo, d: VertNo, e: VertNo) -> Vec3 {
        edge_inner(
            point(xs, lower(a, b)),
            point(xs, higher(a, b)),
            point(xs, d),
            point(xs, e),
        )
    }

    fn put(p: Vec3, xs: &mut [f32], i: usize) {
        xs[i] = p.x;
        xs[i + 1] = p.y;
        xs[i + 2] = p.z;
    }

    ghost readable = { λ xs v room _. record { room = room } };
}
