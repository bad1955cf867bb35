// docs/RULES.md, Positions: the weights of a vertex rule and of an edge, and the points that they give. What every number shares stands here, the rules in f32 in `points`
// and those in whole micrometres in `micrometres`.
#![tactic(auto)]

pub mod micrometres;
pub mod points;

ghost use Rattle.std.specs.Prelude.{◌≡◌, ◌+◌, ◌*◌, ◌<◌, ◌≤◌, ℕ, List, min, max, length};
ghost use Rattle.std.proofs.lemmas.List.Edits.{sets};
ghost use Rattle.turns.specs.Turns.{most_valence};
ghost use Rattle.rules.specs.Position as paper;
ghost use Rattle.rules.specs.Position.{refining, limit, ring_rule, rim_rule, numbers_of};
ghost use Rattle.rules.specs.Levels.{three};
ghost use Rattle.weights.specs.Weights.{staged, rule_of, carrying};
ghost use Rattle.weights.specs.Lent.{by_ring, on_rim, within, AllOf};

use faces::sides::VertNo;
use rules::numbers::Number;

// Whether a vertex is moved to the next level, or to its limit.
#[derive(Clone, Copy)]
pub enum Stage {
    Refining,
    Limit,
}

// A weight, out of one whole.
pub trait Weight: Copy {
    // That of a vertex rule.
    ghost of: { paper.Rule → Self };

    ghost RIM_REFINING: { Self };

    const RIM_REFINING: Self;

    ghost RIM_LIMIT: { Self };

    const RIM_LIMIT: Self;

    fn beta(n: usize) -> Self
        requires { n ≤ most_valence }
        ensures { result ≡ of (ring_rule refining n) };

    fn loop_gamma(n: usize) -> Self
        requires { n ≤ most_valence }
        ensures { result ≡ of (ring_rule limit n) };

    ghost rim_refining: { RIM_REFINING ≡ of (rim_rule refining) };

    ghost rim_limit: { RIM_LIMIT ≡ of (rim_rule limit) };
}

// A vertex rule: a weight on each point of the ring, or on its first and its last.
#[derive(Clone, Copy)]
pub enum Rule<W> {
    Ring(W),
    Rim(W),
}

impl<W: Weight> Rule<W> {
    pub fn refining(rim: bool, n: usize) -> Rule<W>
        requires { n ≤ most_valence }
        ensures { result ≡ carrying W.of (rule_of refining rim n) }
    {
        if rim {
            Rule::Rim(W::RIM_REFINING)
        } else {
            Rule::Ring(W::beta(n))
        }
    }

    pub fn limit(rim: bool, n: usize) -> Rule<W>
        requires { n ≤ most_valence }
        ensures { result ≡ carrying W.of (rule_of limit rim n) }
    {
        if rim {
            Rule::Rim(W::RIM_LIMIT)
        } else {
            Rule::Ring(W::loop_gamma(n))
        }
    }

    pub fn new(stage: Stage, rim: bool, n: usize) -> Rule<W>
        requires { n ≤ most_valence }
        ensures { result ≡ carrying W.of (rule_of (staged stage) rim n) }
    {
        match stage {
            Stage::Refining => Rule::refining(rim, n),
            Stage::Limit => Rule::limit(rim, n),
        }
    }
}

// A number whose points the rules weigh, over lent coordinates, three to a vertex.
pub trait Weighed: Number {
    // A new point, before it is stored.
    type Point: Copy;

    // The coordinates that a point stands for, and what holds of each that a rule gives.
    ghost listed: { Self.Point → List Self };

    ghost Raised: { Self.Point → Type 0 };

    // What a rule asks of the coordinates of a vertex, and what gives it of all vertices.
    ghost Readable: { List Self → ℕ → Type 0 };

    ghost AllNear: { List Self → Type 0 };

    // Vertex v by the rule of the stage, from its ring.
    fn vertex(xs: &[Self], v: VertNo, ring: &[u32], rim: bool, stage: Stage) -> Self::Point
        requires { Readable xs.now v.0 × ((0 < length ring.now) × AllOf Readable xs.now ring.now) }
        ensures point { listed result ≡ three (numbers_of Self.on) (by_ring (numbers_of Self.on) (staged stage) xs.now v.0 rim ring.now) }
        ensures near { Raised result };

    // The new vertex of a rim edge, between a and b.
    fn edge_rim(xs: &[Self], a: VertNo, b: VertNo) -> Self::Point
        requires { Readable xs.now a.0 × Readable xs.now b.0 }
        ensures point { listed result ≡ three (numbers_of Self.on) (on_rim (numbers_of Self.on) xs.now a.0 b.0) }
        ensures near { Raised result };

    // The new vertex of an inner edge, between a and b; d is the far corner of the first face, e of the other.
    fn edge_inner(xs: &[Self], a: VertNo, b: VertNo, d: VertNo, e: VertNo) -> Self::Point
        requires readable { Readable xs.now a.0 × Readable xs.now b.0 }
        requires readable_2 { Readable xs.now d.0 × Readable xs.now e.0 }
        ensures point { listed result ≡ three (numbers_of Self.on) (within (numbers_of Self.on) xs.now a.0 b.0 d.0 e.0) }
        ensures near { Raised result };

    fn put(p: Self::Point, xs: &mut [Self], i: usize)
        requires { (i + 3 ≤ length xs.old) × Raised p }
        ensures { xs.new ≡ sets xs.old i (listed p) };

    // Where all coordinates are near, every vertex can be read.
    ghost readable: { (xs : List Self) (v : ℕ) → 3 * v + 3 ≤ length xs → AllNear xs → Readable xs v };
}

// The ends of an edge in order of their numbers.
pub fn lower(a: VertNo, b: VertNo) -> VertNo
    ensures { result.0 ≡ min a.0 b.0 }
{
    if a.0 < b.0 { a } else { b }
}

pub fn higher(a: VertNo, b: VertNo) -> VertNo
    ensures { result.0 ≡ max a.0 b.0 }
{
    if a.0 < b.0 { b } else { a }
}
