// Checks 9 to 12: the corners of each vertex, and the faces round it.
ghost use Rattle.std.specs.Prelude.{◌≡◌, not, ◌≤◌, ◌<◌, length, eqb};
ghost use Rattle.lists.specs.Lists.{find, lowest, found, tally};
ghost use Rattle.rules.specs.Mesh.{links, fan, last_corner};
ghost use Rattle.rules.specs.Refusals.{check, fan_refusal};
ghost use Rattle.faces.specs.Rings.{turn_of};
ghost use Rattle.limits.specs.Verdicts.{verdict_of};
ghost use Rattle.cage.specs.Chains.{Faces, Apart};
ghost use Rattle.cage.specs.Fans.{turn_refusal};
ghost use Rattle.scans.specs.Starts.{Started};

use cage::fans::{first, short, wide};
use faces::walks::Turn;
use limits::{Check, no};
use looks::rings::turn_round;

// Whether a corner is vertex u.
fn used(indices: &[u32], u: u32) -> bool
    ensures { result ≡ found (find (eqb u) indices.now) }
{
    indices.contains(&u)
}

// 9
fn unused(indices: &[u32], v: usize) -> Check
    requires { v ≤ 4096 }
    ensures { result ≡ verdict_of (check 9 (lowest (λ u. not (found (find (eqb u) indices.now))) v)) }
{
    for u in 0..v {
        if !used(indices, u as u32) {
            return no(9, u as u32);
        }
    }
    Ok(())
}

// Where vertex u starts: the last corner in the list that is it.
pub fn start_of(indices: &[u32], u: u32) -> usize
    ensures { result ≡ last_corner indices.now u }
{
    let mut last = 0;
    for (t, &corner) in indices.iter().enumerate() {
        if corner == u {
            last = t;
        }
    }
    last
}

// How many corners are vertex u.
fn count_of(indices: &[u32], u: u32) -> u16
    requires { Faces indices.now }
    ensures { result ≡ tally (eqb u) indices.now }
{
    indices.iter().filter(|&&corner| u == corner).count() as u16
}

// Round vertex u from its start corner.
fn turn_at(indices: &[u32], u: u32) -> Turn
    requires { Faces indices.now × Apart indices.now × (last_corner indices.now u < length indices.now) }
    ensures { result ≡ turn_of (fan (links indices.now) (last_corner indices.now u)) }
{
    turn_round(indices, 0, indices.len() / 3, start_of(indices, u))
}

// 10 and 12 in one walk round each vertex: 10 anywhere comes before 12 anywhere.
fn turns(indices: &[u32], v: usize) -> Check
    requires { Faces indices.now × Apart indices.now × (v ≤ 4096) × Started v indices.now }
    ensures { result ≡ verdict_of (turn_refusal v indices.now) }
{
    let mut crowded = None;
    for u in 0..v {
        let t = turn_at(indices, u as u32);
        if short(t, count_of(indices, u as u32)) {
            return no(10, u as u32);
        }
        crowded = first(crowded, wide(t), u);
    }
    match crowded {
        Some(u) => no(12, u as u32),
        None => Ok(()),
    }
}

// 9 to 12.
pub fn fans(indices: &[u32], v: usize) -> Check
    requires { Faces indices.now × Apart indices.now × (v ≤ 4096) }
    ensures { result ≡ verdict_of (fan_refusal v indices.now) }
{
    unused(indices, v)?;
    turns(indices, v)
}
