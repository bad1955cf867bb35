// docs/RULES.md, Answers: checks 1 to 13 in the order of its table, the lowest place first; 1 to 6 and 13 are of crate `limits`. No lent buffer is written
// here: what a check needs to remember stands in local arrays.
#![tactic(auto)]

ghost use Rattle.std.specs.Prelude.{◌≡◌, ◌+◌, ◌≤◌, map, length, take, Ok};
ghost use Rattle.std.proofs.lemmas.List.Edits.{sets};
ghost use Rattle.rules.specs.Mesh.{links, cage};
ghost use Rattle.rules.specs.Position.{numbers_of, whole};
ghost use Rattle.rules.specs.Levels.{last};
ghost use Rattle.rules.specs.Refusals.{size_refusal, refusal};
ghost use Rattle.rules.specs.Sharp.{sharp_refusal, sharp_last};
ghost use Rattle.rules.specs.Answers.{counted, unless};
ghost use Rattle.faces.specs.Words.{coded};
ghost use Rattle.cage.specs.Chains.{Faces, Below, Apart, Once};
ghost use Rattle.cage.specs.Fans.{Tables};
ghost use Rattle.cage.specs.Sizes.{judged, from_marks, from_nine, from_eight, from_seven, from_five, Listed};

use limits::Check;
use rules::Outcome;
use rules::numbers::Number;

pub mod fans;
pub mod list;
pub mod marks;
pub mod sides;

// The link words of a control cage, and after them the start corners of its v vertices.
pub fn link_words(indices: &[u32], v: usize, words: &mut [u32], at: usize)
    requires sizes { Faces indices.now × Below 4096 indices.now × (v ≤ 4096) × (at + length indices.now + v ≤ length words.old) }
    requires once { Once indices.now }
    ensures { words.new ≡ sets (sets words.old at (map coded (links indices.now))) (at + length indices.now) (cage v indices.now).starts }
{
    let mut heads = [0u16; 4096];
    let mut nexts = [0u16; 12288];
    sides::chain(indices, &mut heads, &mut nexts);
    sides::put_links(indices, &heads, &nexts, words, at);
    sides::put_starts(&heads, v, words, at + indices.len());
}

// 13, on a face list that passed all else.
fn judge_size(levels: u32, indices: &[u32], words: &[u32], v: usize) -> Outcome
    requires sizes { (levels ≤ 7) × (v ≤ 4096) × Faces indices.now × Listed v indices.now }
    requires links { (length indices.now ≤ length words.now) × (take (length indices.now) words.now ≡ map coded (links indices.now)) }
    ensures { result ≡ judged (size_refusal levels v indices.now) levels v indices.now }
{
    let n = indices.len();
    let f = (n / 3) as u32;
    let r = limits::size::count_rims(words, n);
    let c = limits::size::grown(levels, v as u32, f, (3 * f + r) / 2, r);
    limits::size::size(c)?;
    Ok(c)
}

// 18 and 13.
fn judge_marks(levels: u32, indices: &[u32], words: &[u32], v: usize, sharp: &[u32]) -> Outcome
    requires sizes { (levels ≤ 7) × (v ≤ 4096) × Faces indices.now × Listed v indices.now }
    requires links { (length indices.now ≤ length words.now) × (take (length indices.now) words.now ≡ map coded (links indices.now)) }
    ensures { result ≡ judged (from_marks levels v sharp.now indices.now) levels v indices.now }
{
    marks::marks(sharp, indices, words)?;
    judge_size(levels, indices, words, v)
}

fn judge_fans(
    levels: u32,
    indices: &[u32],
    heads: &[u16],
    words: &[u32],
    v: usize,
    sharp: &[u32],
) -> Outcome
    requires sizes { (levels ≤ 7) × (v ≤ 4096) × (length heads.now ≡ 4096) × Listed v indices.now }
    requires tables { Tables indices.now heads.now words.now }
    ensures { result ≡ judged (from_nine levels v sharp.now indices.now) levels v indices.now }
{
    let mut counts = [0u16; 4096];
    fans::count_corners(indices, &mut counts);
    fans::fans(indices, heads, &counts, words, v)?;
    judge_marks(levels, indices, words, v, sharp)
}

fn judge_links(
    levels: u32,
    indices: &[u32],
    heads: &[u16],
    words: &[u32],
    v: usize,
    sharp: &[u32],
) -> Outcome
    requires sizes { (levels ≤ 7) × (v ≤ 4096) × (length heads.now ≡ 4096) }
    requires list { Below v indices.now × Apart indices.now × Once indices.now }
    requires tables { Tables indices.now heads.now words.now }
    ensures { result ≡ judged (from_eight levels v sharp.now indices.now) levels v indices.now }
{
    list::doubled(indices, words)?;
    judge_fans(levels, indices, heads, words, v, sharp)
}

fn judge_sides(levels: u32, indices: &[u32], v: usize, sharp: &[u32]) -> Outcome
    requires { (levels ≤ 7) × (v ≤ 4096) × Faces indices.now × Below v indices.now × Apart indices.now }
    ensures { result ≡ judged (from_seven levels v sharp.now indices.now) levels v indices.now }
{
    let mut heads = [0u16; 4096];
    let mut nexts = [0u16; 12288];
    let mut words = [0u32; 12288];
    sides::chain(indices, &mut heads, &mut nexts);
    let low = sides::link(indices, &heads, &nexts, &mut words, 0);
    list::reused(indices, low)?;
    judge_links(levels, indices, &heads, &words, v, sharp)
}

// 5 to 13, with 18 between 12 and 13: what does not ask for the kind of number.
fn judge_faces(levels: u32, indices: &[u32], v: usize, sharp: &[u32]) -> Outcome
    requires { (levels ≤ 7) × (v ≤ 4096) × Faces indices.now }
    ensures { result ≡ judged (from_five levels v sharp.now indices.now) levels v indices.now }
{
    limits::list::beyond(indices, v as u32)?;
    limits::list::flat(indices)?;
    judge_sides(levels, indices, v, sharp)
}

// The refusal of a cage, or what its last level counts.
pub fn judge<N: Number>(levels: u32, indices: &[u32], coords: &[N]) -> Outcome
    ensures { result ≡ unless (refusal (numbers_of N.on) levels indices.now coords.now) (Ok (counted (last (numbers_of N.on) levels indices.now coords.now).mesh)) }
{
    limits::shape(levels, indices.len(), coords.len())?;
    limits::range(coords)?;
    judge_faces(levels, indices, coords.len() / 3, &indices[..0])
}

// The same with a list of sharp sides, in whole micrometres alone.
pub fn judge_sharp(levels: u32, indices: &[u32], coords: &[i32], sharp: &[u32]) -> Outcome
    ensures { result ≡ unless (sharp_refusal whole levels sharp.now indices.now coords.now) (Ok (counted (sharp_last whole levels sharp.now indices.now coords.now).mesh)) }
{
    limits::shape(levels, indices.len(), coords.len())?;
    limits::range(coords)?;
    judge_faces(levels, indices, coords.len() / 3, sharp)
}
