// The exact limit of a vertex at level 0 and 1, from the control cage in words: three raised coordinates over one denominator. Naturals only, and no product leaves 64 bits.
ghost use Rattle.std.specs.Prelude.{◌≡◌, true, map, ◌+◌, ◌*◌, ◌<◌, ◌≤◌, length};
ghost use Rattle.lists.specs.Lists.{part};
ghost use Rattle.whole.specs.Whole.{reach};
ghost use Rattle.whole.specs.Fraction.{of_whole};
ghost use Rattle.rules.specs.Mesh.{links, first_met, middle};
ghost use Rattle.rules.specs.Position.{exact};
ghost use Rattle.rules.specs.Levels.{ends};
ghost use Rattle.rules.specs.Sound.{AllNear};
ghost use Rattle.weights.specs.Weights.{staged};
ghost use Rattle.weights.specs.Lent.{by_ring, Readable, AllReadable, all_of, Shares};
ghost use Rattle.levels.specs.Moves.{Movable};
ghost use Rattle.station.specs.Far.{Exactly, exact0, exact1, raised_at, sum_n, weighted_n, Stands, Ruled, moved_in, eight_in, six_in, Ends, RimOver, InnerOver};

use faces::sides::{backward, onward};
use turns::MOST_VALENCE;
use weights::micrometres::{Share, mix};
use weights::{Rule, Stage};

// A point over one denominator, in raised numbers.
#[derive(Clone, Copy)]
pub struct Over3 {
    pub x: u64,
    pub y: u64,
    pub z: u64,
    pub den: u64,
}

// The raised coordinate c of control vertex v.
fn at(xs: &[i32], v: usize, c: usize) -> u64
    requires { (c < 3) × Readable xs.now v }
    ensures { (result ≡ raised_at xs.now c v) × (result ≤ 2 * reach) }
{
    whole::raised_at(xs, 3 * v + c)
}

// Of a ring the sum.
fn ring_sum(xs: &[i32], ring: &[u32], c: usize) -> u64
    requires { (c < 3) × AllReadable xs.now ring.now }
    ensures { (result ≡ sum_n (map (raised_at xs.now c) ring.now)) × (result ≤ length ring.now * (2 * reach)) }
{
    let mut x = 0;
    for &v in ring {
        x += at(xs, v as usize, c);
    }
    x
}

// And of its first and its last.
fn ends_sum(xs: &[i32], ring: &[u32], c: usize) -> u64
    requires { (c < 3) × ((0 < length ring.now) × AllReadable xs.now ring.now) }
    ensures { (result ≡ sum_n (map (raised_at xs.now c) (ends ring.now))) × (result ≤ 2 * (2 * reach)) }
{
    at(xs, ring[0] as usize, c) + at(xs, ring[ring.len() - 1] as usize, c)
}

// Coordinate c of vertex u by its rule, out of the whole of its weight.
fn weighted(xs: &[i32], u: usize, ring: &[u32], rule: Rule<Share>, c: usize) -> u64
    requires ring { (c < 3) × ((0 < length ring.now) × (Readable xs.now u × AllReadable xs.now ring.now)) }
    requires shares { Shares rule (length ring.now) }
    ensures { (result ≡ weighted_n rule (raised_at xs.now c) u ring.now) × (result ≤ all_of rule * (2 * reach)) }
{
    let p = at(xs, u, c);
    match rule {
        Rule::Ring(b) => mix(p, ring_sum(xs, ring, c), ring.len() as u64, b),
        Rule::Rim(b) => mix(p, ends_sum(xs, ring, c), 2, b),
    }
}

// Vertex u by the rule of the stage, from its ring.
fn ring_over(xs: &[i32], u: usize, ring: &[u32], rim: bool, stage: Stage) -> Over3
    requires { AllNear xs.now × (Readable xs.now u × ((0 < length ring.now) × AllReadable xs.now ring.now)) }
    ensures point { Stands result (by_ring exact (staged stage) (map of_whole xs.now) u rim ring.now) }
    ensures den { Ruled (staged stage) result }
{
    let rule = Rule::<Share>::new(stage, rim, ring.len());
    Over3 {
        x: weighted(xs, u, ring, rule, 0),
        y: weighted(xs, u, ring, rule, 1),
        z: weighted(xs, u, ring, rule, 2),
        den: rule.all(),
    }
}

// And from the words, in which the mesh stands at `at`.
fn vertex_over(
    words: &[u32],
    at: usize,
    nf: usize,
    nv: usize,
    xs: &[i32],
    u: usize,
    stage: Stage,
) -> Over3
    requires mesh { Movable words.now at nf nv × (u < nv) }
    requires coords { (3 * nv ≤ length xs.now) × AllNear xs.now }
    ensures point { Stands result (moved_in (staged stage) words.now at nf nv xs.now u) }
    ensures den { Ruled (staged stage) result }
{
    let s = words[at + 6 * nf + u] as usize;
    let mut vs: [u32; MOST_VALENCE] = [0; MOST_VALENCE];
    let ring = faces::rings::one_ring(words, at, at + 3 * nf, nf, s, &mut vs);
    ring_over(xs, u, &vs[..ring.n], ring.rim, stage)
}

// Vertex u of the control cage: its exact limit, at level 0 and, as a level does not move it, at level 1.
pub fn limit_over(words: &[u32], nf: usize, nv: usize, xs: &[i32], u: usize) -> Over3
    requires mesh { Movable words.now 0 nf nv × (u < nv) }
    requires coords { (3 * nv ≤ length xs.now) × AllNear xs.now }
    ensures { Exactly result (exact0 words.now nf nv xs.now) u }
{
    vertex_over(words, 0, nf, nv, xs, u, Stage::Limit)
}

// The new point of the edge of side s, times 8.
fn edge_over(
    words: &[u32],
    base: usize,
    nf: usize,
    nv: usize,
    xs: &[i32],
    s: usize,
    c: usize,
) -> u64
    requires mesh { Movable words.now base nf nv × ((s < 3 * nf) × (c < 3)) }
    requires coords { (3 * nv ≤ length xs.now) × AllNear xs.now }
    ensures { (result ≡ eight_in xs.now c words.now base nf s) × (result ≤ 16 * reach) }
{
    let a = at(xs, words[base + s] as usize, c);
    let b = at(xs, words[base + onward(s)] as usize, c);
    let w = words[base + 3 * nf + s];
    if w == 0 {
        4 * (a + b)
    } else {
        let d = at(xs, words[base + backward(s)] as usize, c);
        let e = at(xs, words[base + backward((w - 1) as usize)] as usize, c);
        3 * (a + b) + d + e
    }
}

// Over 48 j k: the new point e of a rim side, its refined ends a over 8 j and b over 8 k.
fn rim_mix(e: u64, a: u64, b: u64, j: u64, k: u64) -> u64
    requires { Ends e a b j k }
    ensures { result ≡ 4 * (e * (j * k)) + (b * j + a * k) }
{
    4 * (e * (j * k)) + (b * j + a * k)
}

// Over 96 j k: e is six times the new point of an inner edge and once each of the four round it.
fn inner_mix(e: u64, a: u64, b: u64, j: u64, k: u64) -> u64
    requires { Ends e a b j k }
    ensures { result ≡ e * (j * k) + a * k + b * j }
{
    e * (j * k) + a * k + b * j
}

// Six times the new point of the edge of side s, whose side across is t, and once each of the four round it.
fn six(words: &[u32], nf: usize, nv: usize, xs: &[i32], s: usize, t: usize, c: usize) -> u64
    requires mesh { Movable words.now 0 nf nv × ((s < 3 * nf) × ((t < 3 * nf) × (c < 3))) }
    requires coords { (3 * nv ≤ length xs.now) × AllNear xs.now }
    ensures { (result ≡ six_in xs.now c words.now nf s t) × (result ≤ 10 * (16 * reach)) }
{
    let e = edge_over(words, 0, nf, nv, xs, s, c);
    let e1 = edge_over(words, 0, nf, nv, xs, onward(s), c);
    let e2 = edge_over(words, 0, nf, nv, xs, backward(t), c);
    let e3 = edge_over(words, 0, nf, nv, xs, onward(t), c);
    let e4 = edge_over(words, 0, nf, nv, xs, backward(s), c);
    6 * e + e1 + e2 + e3 + e4
}

fn fresh_rim(words: &[u32], nf: usize, nv: usize, xs: &[i32], s: usize, u: usize, v: usize) -> Over3
    requires mesh { Movable words.now 0 nf nv × ((s < 3 * nf) × ((u < nv) × (v < nv))) }
    requires coords { (3 * nv ≤ length xs.now) × AllNear xs.now }
    ensures { RimOver result words.now nf nv xs.now s u v }
{
    let p = vertex_over(words, 0, nf, nv, xs, u, Stage::Refining);
    let q = vertex_over(words, 0, nf, nv, xs, v, Stage::Refining);
    let j = p.den / 8;
    let k = q.den / 8;
    Over3 {
        x: rim_mix(edge_over(words, 0, nf, nv, xs, s, 0), p.x, q.x, j, k),
        y: rim_mix(edge_over(words, 0, nf, nv, xs, s, 1), p.y, q.y, j, k),
        z: rim_mix(edge_over(words, 0, nf, nv, xs, s, 2), p.z, q.z, j, k),
        den: 48 * (j * k),
    }
}

fn fresh_inner(
    words: &[u32],
    nf: usize,
    nv: usize,
    xs: &[i32],
    s: usize,
    t: usize,
    u: usize,
    v: usize,
) -> Over3
    requires mesh { Movable words.now 0 nf nv × ((s < 3 * nf) × ((t < 3 * nf) × ((u < nv) × (v < nv)))) }
    requires coords { (3 * nv ≤ length xs.now) × AllNear xs.now }
    ensures { InnerOver result words.now nf nv xs.now s t u v }
{
    let p = vertex_over(words, 0, nf, nv, xs, u, Stage::Refining);
    let q = vertex_over(words, 0, nf, nv, xs, v, Stage::Refining);
    let j = p.den / 8;
    let k = q.den / 8;
    Over3 {
        x: inner_mix(six(words, nf, nv, xs, s, t, 0), p.x, q.x, j, k),
        y: inner_mix(six(words, nf, nv, xs, s, t, 1), p.y, q.y, j, k),
        z: inner_mix(six(words, nf, nv, xs, s, t, 2), p.z, q.z, j, k),
        den: 96 * (j * k),
    }
}

// The exact limit at level 1 of the new vertex of side s.
pub fn fresh_over(words: &[u32], nf: usize, nv: usize, xs: &[i32], s: usize) -> Over3
    requires mesh { Movable words.now 0 nf nv × ((s < 3 * nf) × (first_met (links (part 0 (3 * nf) words.now)) s ≡ true)) }
    requires coords { (3 * nv ≤ length xs.now) × AllNear xs.now }
    ensures { Exactly result (exact1 words.now nf nv xs.now) (middle nv (links (part 0 (3 * nf) words.now)) s) }
{
    let w = words[3 * nf + s];
    if w == 0 {
        fresh_rim(
            words,
            nf,
            nv,
            xs,
            s,
            words[s] as usize,
            words[onward(s)] as usize,
        )
    } else {
        let t = (w - 1) as usize;
        fresh_inner(
            words,
            nf,
            nv,
            xs,
            s,
            t,
            words[onward(t)] as usize,
            words[onward(s)] as usize,
        )
    }
}
