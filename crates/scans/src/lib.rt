// Checks 7 to 13 and 18 as a tester would make them on paper: each looks through the face list anew, with no chain, no link word and no table. Checks 1 to 6 use none either and
// are those of crate `limits`.
#![tactic(auto)]

ghost use Rattle.std.specs.Prelude.{◌≡◌, map, ◌+◌, ◌≤◌, length, Ok};
ghost use Rattle.std.proofs.lemmas.List.Edits.{sets};
ghost use Rattle.lists.specs.Lists.{count};
ghost use Rattle.rules.specs.Mesh.{last_corner};
ghost use Rattle.rules.specs.Position.{whole};
ghost use Rattle.rules.specs.Refusals.{size_refusal};
ghost use Rattle.rules.specs.Sharp.{sharp_refusal, sharp_last};
ghost use Rattle.rules.specs.Answers.{counted, unless};
ghost use Rattle.cage.specs.Chains.{Faces, Below, Apart, Once};
ghost use Rattle.cage.specs.Sizes.{judged, from_marks, from_nine, from_eight, from_seven, from_five, Listed};

use limits::Check;
use rules::Outcome;

mod fans;
mod list;
mod rims;

// The start corner of each vertex.
pub fn put_starts(indices: &[u32], v: usize, words: &mut [u32], at: usize)
    requires { Faces indices.now × (v ≤ 4096) × (at + v ≤ length words.old) }
    ensures { words.new ≡ sets words.old at (map (last_corner indices.now) (count 0 v)) }
{
    for u in 0..v {
        let s = fans::start_of(indices, u as u32);
        words[at + u] = s as u32;
    }
}

// 13, on a face list that passed all else.
fn judge_size(levels: u32, indices: &[u32], v: usize) -> Outcome
    requires { (levels ≤ 7) × (v ≤ 4096) × Faces indices.now × Listed v indices.now }
    ensures { result ≡ judged (size_refusal levels v indices.now) levels v indices.now }
{
    let f = (indices.len() / 3) as u32;
    let r = rims::count_rims(indices);
    let c = limits::size::grown(levels, v as u32, f, (3 * f + r) / 2, r);
    limits::size::size(c)?;
    Ok(c)
}

// 18 and 13.
fn judge_marks(levels: u32, indices: &[u32], v: usize, sharp: &[u32]) -> Outcome
    requires { (levels ≤ 7) × (v ≤ 4096) × Faces indices.now × Listed v indices.now }
    ensures { result ≡ judged (from_marks levels v sharp.now indices.now) levels v indices.now }
{
    rims::marks(sharp, indices)?;
    judge_size(levels, indices, v)
}

fn judge_fans(levels: u32, indices: &[u32], v: usize, sharp: &[u32]) -> Outcome
    requires { (levels ≤ 7) × (v ≤ 4096) × Faces indices.now × Listed v indices.now }
    ensures { result ≡ judged (from_nine levels v sharp.now indices.now) levels v indices.now }
{
    fans::fans(indices, v)?;
    judge_marks(levels, indices, v, sharp)
}

fn judge_sets(levels: u32, indices: &[u32], v: usize, sharp: &[u32]) -> Outcome
    requires sizes { (levels ≤ 7) × (v ≤ 4096) × Faces indices.now }
    requires list { Below v indices.now × Apart indices.now × Once indices.now }
    ensures { result ≡ judged (from_eight levels v sharp.now indices.now) levels v indices.now }
{
    list::doubled(indices)?;
    judge_fans(levels, indices, v, sharp)
}

fn judge_sides(levels: u32, indices: &[u32], v: usize, sharp: &[u32]) -> Outcome
    requires { (levels ≤ 7) × (v ≤ 4096) × Faces indices.now × Below v indices.now × Apart indices.now }
    ensures { result ≡ judged (from_seven levels v sharp.now indices.now) levels v indices.now }
{
    list::reused(indices)?;
    judge_sets(levels, indices, v, sharp)
}

// 5 to 13, with 18 between 12 and 13.
fn judge_faces(levels: u32, indices: &[u32], v: usize, sharp: &[u32]) -> Outcome
    requires { (levels ≤ 7) × (v ≤ 4096) × Faces indices.now }
    ensures { result ≡ judged (from_five levels v sharp.now indices.now) levels v indices.now }
{
    limits::list::beyond(indices, v as u32)?;
    limits::list::flat(indices)?;
    judge_sides(levels, indices, v, sharp)
}

// The refusal of a cage, or what its last level counts: the promise of `cage::judge_sharp`, word for word.
pub fn judge(levels: u32, indices: &[u32], coords: &[i32], sharp: &[u32]) -> Outcome
    ensures { result ≡ unless (sharp_refusal whole levels sharp.now indices.now coords.now) (Ok (counted (sharp_last whole levels sharp.now indices.now coords.now).mesh)) }
{
    limits::shape(levels, indices.len(), coords.len())?;
    limits::range(coords)?;
    judge_faces(levels, indices, coords.len() / 3, sharp)
}
