// The coordinates of a claim, each held to its exact limit: the first that needs more than the tolerance.
ghost use Rattle.std.specs.Prelude.{◌≡◌, ◌+◌, ◌*◌, ◌<◌, ◌≤◌, length, get_or, pos};
ghost use Rattle.std.proofs.Math.Option.{none};
ghost use Rattle.std.specs.Int.Signed.{mag};
ghost use Rattle.lists.specs.Lists.{pick, part, tally, bit, count};
ghost use Rattle.turns.specs.Turns.{most_valence};
ghost use Rattle.rules.specs.Mesh.{links, first_met};
ghost use Rattle.rules.specs.Position.{whole};
ghost use Rattle.rules.specs.Levels.{exact_limits};
ghost use Rattle.rules.specs.Refusals.{refusal};
ghost use Rattle.rules.specs.Sound.{AllNear};
ghost use Rattle.levels.specs.Moves.{Movable, edges_in};
ghost use Rattle.station.specs.Acceptance.{needs_at};
ghost use Rattle.station.specs.Lift.{lift, between, need_over};
ghost use Rattle.station.specs.Far.{far_from, is_yes, held_vertex, held_over, Small3, Bounded, exact0, exact1, Claimed, far_by};

use crate::fractions::{Over3, fresh_over, limit_over};
use crate::{Fault, Verdict};
use levels::first_met;

// Any i32, raised by 2^31.
fn lifted(y: i32) -> u64
    ensures { (result ≡ lift y) × (result < 4294967296) }
{
    (y as i64 + 2147483648) as u64
}

fn apart(a: u64, b: u64) -> u64
    ensures { result ≡ between a b }
{
    if a < b { b - a } else { a - b }
}

// The least tolerance, from the exact limit num / den - reach.
fn need(y: i32, num: u64, den: u64) -> u64
    requires { (0 < den) × ((den ≤ 96 * (most_valence * most_valence)) × (num ≤ den * 2000000000)) }
    ensures { (result ≡ need_over (lift y) num den) × (result < 4294967296) }
{
    let a = lifted(y) * den;
    let b = num + 1147483648 * den;
    (apart(a, b) + (den - 1)) / den
}

// Of coordinate i of the claim.
fn need_at(ys: &[i32], i: usize, num: u64, den: u64) -> u32
    requires { (i < length ys.now) × ((0 < den) × ((den ≤ 96 * (most_valence * most_valence)) × (num ≤ den * 2000000000))) }
    ensures { (result ≡ need_over (lift (get_or ys.now i (pos 0))) num den) × (mag (get_or ys.now i (pos 0)) < 2147483648) }
{
    need(ys[i], num, den) as u32
}

// The three coordinates from i on, lowest first.
fn far_at(ys: &[i32], i: usize, o: Over3, t: u32) -> Verdict
    requires { ((i + 3 ≤ length ys.now) × (i + 3 < 4294967296)) × Bounded o }
    ensures { (result ≡ held_over o ys.now i t) × Small3 ys.now i }
{
    let a = need_at(ys, i, o.x, o.den);
    let b = need_at(ys, i + 1, o.y, o.den);
    let c = need_at(ys, i + 2, o.z, o.den);
    if t < a {
        return Verdict::No(Fault::Far(i as u32, a));
    }
    if t < b {
        return Verdict::No(Fault::Far((i + 1) as u32, b));
    }
    if t < c {
        return Verdict::No(Fault::Far((i + 2) as u32, c));
    }
    Verdict::Yes
}

pub fn passes(v: Verdict) -> bool
    ensures { result ≡ is_yes v }
{
    match v {
        Verdict::Yes => true,
        Verdict::No(_) => false,
        Verdict::Refused(_) => false,
    }
}

fn old_far(words: &[u32], nf: usize, nv: usize, xs: &[i32], ys: &[i32], u: usize, t: u32) -> Verdict
    requires mesh { Movable words.now 0 nf nv × (u < nv) }
    requires coords { (3 * nv ≤ length xs.now) × AllNear xs.now }
    requires claim { (3 * nv ≤ length ys.now) × (3 * nv < 4294967296) }
    ensures { result ≡ held_vertex (exact0 words.now nf nv xs.now) ys.now t u }
{
    let o = limit_over(words, nf, nv, xs, u);
    far_at(ys, 3 * u, o, t)
}

// The vertices of the control cage.
fn far_old(words: &[u32], nf: usize, nv: usize, xs: &[i32], ys: &[i32], t: u32) -> Verdict
    requires mesh { Movable words.now 0 nf nv }
    requires coords { (3 * nv ≤ length xs.now) × AllNear xs.now }
    requires claim { (3 * nv ≤ length ys.now) × (3 * nv < 4294967296) }
    ensures { result ≡ far_from (needs_at (exact0 words.now nf nv xs.now) ys.now) t 0 (3 * nv) }
{
    for u in 0..nv {
        let v = old_far(words, nf, nv, xs, ys, u, t);
        if !passes(v) {
            return v;
        }
    }
    Verdict::Yes
}

fn counted(yes: bool, k: usize) -> usize
    requires { k < 4294967296 }
    ensures { result ≡ k + bit yes }
{
    if yes { k + 1 } else { k }
}

// It is held to vertex nv + k of the claim, where the edge is first met.
fn new_far(
    words: &[u32],
    nf: usize,
    nv: usize,
    xs: &[i32],
    ys: &[i32],
    s: usize,
    k: usize,
    met: bool,
    t: u32,
) -> Verdict
    requires mesh { Movable words.now 0 nf nv × ((s < 3 * nf) × (met ≡ first_met (links (part 0 (3 * nf) words.now)) s)) }
    requires coords { (3 * nv ≤ length xs.now) × AllNear xs.now }
    requires claim { (3 * (nv + edges_in words.now 0 nf) ≤ length ys.now) × (3 * (nv + edges_in words.now 0 nf) < 4294967296) }
    requires rank { k ≡ tally (first_met (links (part 0 (3 * nf) words.now))) (count 0 s) }
    ensures { result ≡ pick met (held_vertex (exact1 words.now nf nv xs.now) ys.now t (nv + k)) Verdict.Yes }
{
    if met {
        let o = fresh_over(words, nf, nv, xs, s);
        far_at(ys, 3 * (nv + k), o, t)
    } else {
        Verdict::Yes
    }
}

// The new vertices of level 1, in the order in which their edges are first met.
fn far_new(words: &[u32], nf: usize, nv: usize, xs: &[i32], ys: &[i32], t: u32) -> Verdict
    requires mesh { Movable words.now 0 nf nv }
    requires coords { (3 * nv ≤ length xs.now) × AllNear xs.now }
    requires claim { (3 * (nv + edges_in words.now 0 nf) ≤ length ys.now) × (3 * (nv + edges_in words.now 0 nf) < 4294967296) }
    ensures { result ≡ far_from (needs_at (exact1 words.now nf nv xs.now) ys.now) t (3 * nv) (3 * edges_in words.now 0 nf) }
{
    let mut k = 0;
    for s in 0..3 * nf {
        let met = first_met(words[3 * nf + s], s as u32);
        let v = new_far(words, nf, nv, xs, ys, s, k, met, t);
        if !passes(v) {
            return v;
        }
        k = counted(met, k);
    }
    Verdict::Yes
}

// All coordinates at level 0 or 1.
fn too_far(
    words: &[u32],
    nf: usize,
    nv: usize,
    xs: &[i32],
    ys: &[i32],
    levels: u32,
    t: u32,
) -> Verdict
    requires mesh { Movable words.now 0 nf nv }
    requires coords { (3 * nv ≤ length xs.now) × AllNear xs.now }
    requires claim { Claimed levels nv (edges_in words.now 0 nf) (length ys.now) }
    ensures { result ≡ far_by levels words.now nf nv xs.now ys.now t }
{
    let v = far_old(words, nf, nv, xs, ys, t);
    if levels == 0 {
        return v;
    }
    if !passes(v) {
        return v;
    }
    far_new(words, nf, nv, xs, ys, t)
}

// The coordinates of a claim that has as many as ours, from the cage: it is loaded once.
pub fn far_cage(levels: u32, t: u32, indices: &[u32], coords: &[i32], ys: &[i32]) -> Verdict
    requires cage { (refusal whole levels indices.now coords.now ≡ none) × (levels ≤ 1) }
    requires claim { length ys.now ≡ length (exact_limits levels indices.now coords.now) }
    ensures { result ≡ far_from (needs_at (exact_limits levels indices.now coords.now) ys.now) t 0 (length (exact_limits levels indices.now coords.now)) }
{
    let mut words = [0u32; 28672];
    let nv = coords.len() / 3;
    room::load_words(indices, nv, &mut words);
    too_far(&words, indices.len() / 3, nv, coords, ys, levels, t)
}
