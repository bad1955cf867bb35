// Checks 9 to 12: the faces round each vertex.
ghost use Rattle.std.specs.Prelude.{◌≡◌, not, ◌≤◌, ◌<◌, length, get_or, eqb, ltb};
ghost use Rattle.std.specs.Option.{option_or};
ghost use Rattle.std.specs.Bool.{then_some};
ghost use Rattle.lists.specs.Lists.{find, lowest, found};
ghost use Rattle.turns.specs.Turns.{most_valence};
ghost use Rattle.rules.specs.Mesh.{links, fan, last_corner};
ghost use Rattle.rules.specs.Refusals.{check, fan_refusal};
ghost use Rattle.faces.specs.Rings.{turn_of, valence_of};
ghost use Rattle.limits.specs.Verdicts.{verdict_of};
ghost use Rattle.cage.specs.Chains.{Faces, Below, Heads};
ghost use Rattle.cage.specs.Fans.{Tallied, Tables, Used, short_of, turn_refusal};

use super::sides::side_of;
use faces::walks::Turn;
use limits::{Check, no};
use turns::MOST_VALENCE;

// How many corners each vertex has.
pub fn count_corners(indices: &[u32], counts: &mut [u16])
    requires sizes { Faces indices.now × Below (length counts.old) indices.now }
    requires empty { Tallied indices.now 0 counts.old }
    ensures { Tallied indices.now (length indices.now) counts.new }
{
    for &u in indices {
        counts[u as usize] += 1;
    }
}

// 9: no side leaves vertex u. The faces are what the heads are of.
fn unused(indices: &[u32], heads: &[u16], v: usize) -> Check
    requires { Heads indices.now (length indices.now) heads.now × (v ≤ length heads.now) × (v ≤ 4096) }
    ensures { result ≡ verdict_of (check 9 (lowest (λ u. not (found (find (eqb u) indices.now))) v)) }
{
    for u in 0..v {
        if heads[u] == 0 {
            return no(9, u as u32);
        }
    }
    Ok(())
}

// Round vertex u from its start corner.
fn turn_at(indices: &[u32], heads: &[u16], words: &[u32], u: usize) -> Turn
    requires tables { Tables indices.now heads.now words.now }
    requires used { (u < length heads.now) × (0 < get_or heads.now u 0) }
    ensures { result ≡ turn_of (fan (links indices.now) (last_corner indices.now u)) }
{
    let s = side_of(heads[u]) as usize;
    faces::walks::turn_round(words, 0, indices.len() / 3, s)
}

pub fn short(t: Turn, n: u16) -> bool
    ensures { result ≡ short_of t n }
{
    match t {
        Turn::Inner(k) => k < n as usize,
        Turn::Rim(k, _) => k < n as usize,
        Turn::Endless => 0 < n,
    }
}

pub fn wide(t: Turn) -> bool
    ensures { result ≡ ltb most_valence (valence_of t) }
{
    match t {
        Turn::Inner(k) => k > MOST_VALENCE,
        Turn::Rim(k, _) => k >= MOST_VALENCE,
        Turn::Endless => false,
    }
}

// What was seen first, if there is something at u too.
pub fn first(seen: Option<usize>, here: bool, u: usize) -> Option<usize>
    ensures { result ≡ option_or seen (then_some here u) }
{
    seen.or(here.then_some(u))
}

// 10 and 12 in one walk round each vertex: 10 anywhere comes before 12 anywhere.
fn turns(indices: &[u32], heads: &[u16], counts: &[u16], words: &[u32], v: usize) -> Check
    requires tables { Tables indices.now heads.now words.now }
    requires counts { Tallied indices.now (length indices.now) counts.now × (v ≤ length counts.now) × (v ≤ 4096) }
    requires used { Used v heads.now }
    ensures { result ≡ verdict_of (turn_refusal v indices.now) }
{
    let mut crowded = None;
    for u in 0..v {
        let t = turn_at(indices, heads, words, u);
        if short(t, counts[u]) {
            return no(10, u as u32);
        }
        crowded = first(crowded, wide(t), u);
    }
    match crowded {
        Some(u) => no(12, u as u32),
        None => Ok(()),
    }
}

// 9 to 12.
pub fn fans(indices: &[u32], heads: &[u16], counts: &[u16], words: &[u32], v: usize) -> Check
    requires tables { Tables indices.now heads.now words.now }
    requires counts { Tallied indices.now (length indices.now) counts.now × (v ≤ length counts.now) × (v ≤ length heads.now) × (v ≤ 4096) }
    ensures { result ≡ verdict_of (fan_refusal v indices.now) }
{
    unused(indices, heads, v)?;
    turns(indices, heads, counts, words, v)
}
