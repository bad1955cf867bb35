// The rules in whole micrometres, over lent coordinates. A coordinate is read raised, so that all sums are of naturals; `whole::rounded` is the one place that rounds.
ghost use Rattle.std.specs.Prelude.{◌≡◌, ◌+◌, ◌*◌, ◌<◌, ◌≤◌, refl, length};
ghost use Rattle.std.proofs.lemmas.List.Edits.{sets};
ghost use Rattle.rules.specs.Position.{refining, limit, rim_rule, whole};
ghost use Rattle.rules.specs.Levels.{ends, coord, three};
ghost use Rattle.rules.specs.Sound.{AllNear};
ghost use Rattle.weights.specs.Lent.{halfway, eighthway, Readable, AllReadable, Stands, Stands3, sum_of, share_of, all_of, own, mean, means, weighted_whole, Whole, Shares, Few3, lowered, Raised3};
ghost use Rattle.whole.specs.Whole.{reach, lower as lower_by};

use crate::{Rule, Stage, Weighed, Weight, higher, lower};
use faces::sides::VertNo;
use whole::{put, raised_at, rounded};

// A weight as a fraction of one whole: `each` out of `all`.
#[derive(Clone, Copy)]
pub struct Share {
    pub each: u64,
    pub all: u64,
}

impl Weight for Share {
    ghost of = { share_of };

    ghost RIM_REFINING = { share_of (rim_rule refining) };

    const RIM_REFINING: Share = Share { each: 1, all: 8 };

    ghost RIM_LIMIT = { share_of (rim_rule limit) };

    const RIM_LIMIT: Share = Share { each: 1, all: 6 };

    fn beta(n: usize) -> Share {
        if n == 3 {
            Rule::<Share>::VALENCE_THREE
        } else {
            Share {
                each: 3,
                all: 8 * n as u64,
            }
        }
    }

    // 1/(n + 3/(8 beta)) comes to this.
    fn loop_gamma(n: usize) -> Share {
        if n == 3 {
            Rule::<Share>::VALENCE_THREE_LIMIT
        } else {
            Share {
                each: 1,
                all: 2 * n as u64,
            }
        }
    }

    ghost rim_refining = { refl };

    ghost rim_limit = { refl };
}

impl Rule<Share> {
    pub const VALENCE_THREE: Share = Share { each: 3, all: 16 };

    pub const VALENCE_THREE_LIMIT: Share = Share { each: 1, all: 5 };

    pub const EDGE_RIM: Share = Share { each: 1, all: 2 };

    pub const EDGE_END: Share = Share { each: 3, all: 8 };

    pub const EDGE_FAR: Share = Share { each: 1, all: 8 };

    // What the weight is out of.
    pub fn all(self) -> u64
        ensures { result ≡ all_of self }
    {
        match self {
            Rule::Ring(b) => b.all,
            Rule::Rim(b) => b.all,
        }
    }

    // Vertex v, by its ring.
    fn weighted(self, xs: &[i32], v: VertNo, ring: &[u32]) -> Whole3
        requires readable { Readable xs.now v.0 × ((0 < length ring.now) × AllReadable xs.now ring.now) }
        requires shares { Shares self (length ring.now) }
        ensures point { lowered result ≡ three whole (weighted_whole self xs.now v.0 ring.now) }
        ensures near { Raised3 result }
    {
        match self {
            Rule::Ring(b) => blend3(xs, v, ring_sum(xs, ring), ring.len() as u64, b),
            Rule::Rim(b) => blend3(xs, v, boundary_sum(xs, ring), 2, b),
        }
    }
}

// A point of raised coordinates.
#[derive(Clone, Copy)]
pub struct Whole3 {
    pub x: u64,
    pub y: u64,
    pub z: u64,
}

pub fn at(xs: &[i32], v: VertNo, c: usize) -> u64
    requires { (c < 3) × Readable xs.now v.0 }
    ensures { Stands result 1 (coord whole xs.now c v.0) }
{
    raised_at(xs, 3 * v.0 as usize + c)
}

// Coordinate by coordinate, the sum of a ring.
fn ring_sum(xs: &[i32], ring: &[u32]) -> Whole3
    requires { AllReadable xs.now ring.now }
    ensures { Stands3 result (length ring.now) (sum_of xs.now ring.now) }
{
    let mut x: u64 = 0;
    let mut y: u64 = 0;
    let mut z: u64 = 0;
    for u in ring {
        let v = VertNo(*u);
        x += at(xs, v, 0);
        y += at(xs, v, 1);
        z += at(xs, v, 2);
    }
    Whole3 { x, y, z }
}

// And of its first and its last.
fn boundary_sum(xs: &[i32], ring: &[u32]) -> Whole3
    requires { (0 < length ring.now) × AllReadable xs.now ring.now }
    ensures { Stands3 result 2 (sum_of xs.now (ends ring.now)) }
{
    let first = VertNo(ring[0]);
    let last = VertNo(ring[ring.len() - 1]);
    Whole3 {
        x: at(xs, first, 0) + at(xs, last, 0),
        y: at(xs, first, 1) + at(xs, last, 1),
        z: at(xs, first, 2) + at(xs, last, 2),
    }
}

// p with the weight 1 - k b, and with b the sum s of k others, out of the whole of b.
pub fn mix(p: u64, s: u64, k: u64, b: Share) -> u64
    requires { Whole b k × ((p ≤ 2 * reach) × (s ≤ k * (2 * reach))) }
    ensures { (result ≡ own b k * p + b.each * s) × (result ≤ b.all * (2 * reach)) }
{
    let own = b.all - k * b.each;
    own * p + b.each * s
}

// The same, rounded.
fn blend(p: u64, s: u64, k: u64, b: Share) -> u64
    requires { Whole b k × ((p ≤ 2 * reach) × (s ≤ k * (2 * reach))) }
    ensures { Stands result 1 (mean b k (lower_by 1 p) (lower_by k s)) }
{
    rounded(mix(p, s, k, b), b.all)
}

// Coordinate by coordinate, vertex v and the sum of k others.
fn blend3(xs: &[i32], v: VertNo, s: Whole3, k: u64, b: Share) -> Whole3
    requires { Readable xs.now v.0 × (Whole b k × Few3 s k) }
    ensures point { lowered result ≡ means b k xs.now v.0 s }
    ensures near { Raised3 result }
{
    Whole3 {
        x: blend(at(xs, v, 0), s.x, k, b),
        y: blend(at(xs, v, 1), s.y, k, b),
        z: blend(at(xs, v, 2), s.z, k, b),
    }
}

fn half(xs: &[i32], a: VertNo, b: VertNo, c: usize) -> u64
    requires { (c < 3) × (Readable xs.now a.0 × Readable xs.now b.0) }
    ensures { Stands result 1 (halfway whole xs.now a.0 b.0 c) }
{
    let w = Rule::<Share>::EDGE_RIM;
    rounded(w.each * at(xs, a, c) + w.each * at(xs, b, c), w.all)
}

fn eighths(xs: &[i32], a: VertNo, b: VertNo, d: VertNo, e: VertNo, c: usize) -> u64
    requires c_bound { (c < 3) × (Readable xs.now a.0 × Readable xs.now b.0) }
    requires readable { Readable xs.now d.0 × Readable xs.now e.0 }
    ensures { Stands result 1 (eighthway whole xs.now a.0 b.0 d.0 e.0 c) }
{
    let end = Rule::<Share>::EDGE_END;
    let far = Rule::<Share>::EDGE_FAR;
    let ends = end.each * at(xs, a, c) + end.each * at(xs, b, c);
    rounded(
        ends + far.each * at(xs, d, c) + far.each * at(xs, e, c),
        end.all,
    )
}

impl Weighed for i32 {
    type Point = Whole3;

    ghost listed = { lowered };

    ghost Raised = { Raised3 };

    ghost Readable = { Readable };

    ghost AllNear = { AllNear };

    fn vertex(xs: &[i32], v: VertNo, ring: &[u32], rim: bool, stage: Stage) -> Whole3 {
        Rule::<Share>::new(stage, rim, ring.len()).weighted(xs, v, ring)
    }

    fn edge_rim(xs: &[i32], a: VertNo, b: VertNo) -> Whole3 {
        let lo = lower(a, b);
        let hi = higher(a, b);
        Whole3 {
            x: half(xs, lo, hi, 0),
            y: half(xs, lo, hi, 1),
            z: half(xs, lo, hi, 2),
        }
    }

    fn edge_inner(xs: &[i32], a: VertNo, b: VertNo, d: VertNo, e: VertNo) -> Whole3 {
        let lo = lower(a, b);
        let hi = higher(a, b);
        Whole3 {
            x: eighths(xs, lo, hi, d, e, 0),
            y: eighths(xs, lo, hi, d, e, 1),
            z: eighths(xs, lo, hi, d, e, 2),
        }
    }

    fn put(p: Whole3, xs: &mut [i32], i: usize) {
        put(xs, i, p.x);
        put(xs, i + 1, p.y);
        put(xs, i + 2, p.z);
    }

    ghost readable = { λ xs v room near. record { room = room; near = λ c _. near.at (3 * v + c) } };
}
