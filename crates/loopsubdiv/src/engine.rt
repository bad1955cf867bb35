// The whole engine in any number that the rules weigh, once the checks are passed.
ghost use Rattle.std.specs.Prelude.{◌≡◌, ℕ, ◌*◌, ◌≤◌, ◌<◌, length};
ghost use Rattle.std.proofs.Math.Option.{none};
ghost use Rattle.std.proofs.lemmas.List.Edits.{sets};
ghost use Rattle.lists.specs.Lists.{part, cleared};
ghost use Rattle.rules.specs.Mesh.{links};
ghost use Rattle.rules.specs.Position.{numbers_of};
ghost use Rattle.rules.specs.Levels.{limits, last};
ghost use Rattle.rules.specs.Levels.{positions as positions_of};
ghost use Rattle.rules.specs.Refusals.{refusal};
ghost use Rattle.levels.specs.Level.{mesh_in};
ghost use Rattle.levels.specs.Moves.{Movable};
ghost use Rattle.room.specs.Held.{half_of, third_of, Kept, Held, Parts, Planned};

use levels::points::{moved_point, refine_points};
use levels::refine_words;
use weights::{Stage, Weighed};

pub fn limit<N: Weighed>(words: &[u32], at: usize, nf: usize, nv: usize, xs: &[N], out: &mut [N])
    requires mesh { Movable words.now at nf nv }
    requires coords { (3 * nv ≤ length xs.now) × N.AllNear xs.now }
    requires room { 3 * nv ≤ length out.old }
    ensures { out.new ≡ sets out.old 0 (limits (numbers_of N.on) (mesh_in words.now at nf nv) (links (part at (3 * nf) words.now)) xs.now) }
{
    for u in 0..nv {
        let p = moved_point(words, at, nf, nv, xs, u, Stage::Limit);
        N::put(p, out, 3 * u);
    }
}

// Level by level, from one part of the work buffers to the other.
fn refine<N: Weighed>(
    levels: u32,
    indices: &[u32],
    coords: &[N],
    half: usize,
    third: usize,
    words: &mut [u32],
    work: &mut [N],
)
    requires cage { refusal (numbers_of N.on) levels indices.now coords.now ≡ none }
    requires near { (i : ℕ) → N.AllNear (last (numbers_of N.on) i indices.now coords.now).points }
    requires parts { Parts (numbers_of N.on) levels indices.now coords.now half third }
    requires held { Held (numbers_of N.on) (last (numbers_of N.on) 0 indices.now coords.now) 0 half third words.old work.old }
    requires room { (2 * half ≤ length words.old) × (2 * third ≤ length work.old) }
    ensures held { Held (numbers_of N.on) (last (numbers_of N.on) levels indices.now coords.now) levels half third words.new work.new }
    ensures kept { Kept (2 * half) words.new words.old × Kept (2 * third) work.new work.old }
{
    let mut nf = indices.len() / 3;
    let mut nv = coords.len() / 3;
    for i in 0..levels {
        let at = room::start(i, half);
        let to = room::start(i + 1, half);
        let from = room::start(i, third);
        let next = room::start(i + 1, third);
        refine_points(&words[..], at, nf, nv, work, from, next);
        nv = nv + refine_words(words, at, to, nf, nv);
        nf = 4 * nf;
    }
}

// The last level goes out: its faces, and its limit positions.
fn finish<N: Weighed>(
    levels: u32,
    indices: &[u32],
    coords: &[N],
    nf: usize,
    nv: usize,
    words: &[u32],
    work: &[N],
    positions: &mut [N],
    out: &mut [u32],
)
    requires planned { Planned (numbers_of N.on) levels indices.now coords.now nf nv }
    requires near { (i : ℕ) → N.AllNear (last (numbers_of N.on) i indices.now coords.now).points }
    requires held { Held (numbers_of N.on) (last (numbers_of N.on) levels indices.now coords.now) levels (half_of nf nv) (third_of nv) words.now work.now }
    requires room { (2 * half_of nf nv ≤ length words.now) × ((2 * third_of nv ≤ length work.now) × ((3 * nv ≤ length positions.old) × (3 * nf ≤ length out.old))) }
    ensures positions { positions.new ≡ sets positions.old 0 (positions_of (numbers_of N.on) (last (numbers_of N.on) levels indices.now coords.now)) }
    ensures out { out.new ≡ sets out.old 0 (last (numbers_of N.on) levels indices.now coords.now).mesh.faces }
{
    let at = room::start(levels, 8 * nf + 4 * nv);
    room::copy(&words[at..at + 3 * nf], out);
    let third = 3 * nv;
    let xs = room::front(&work[0..third], &work[third..2 * third], levels, third);
    limit(words, at, nf, nv, xs, positions);
}

// Level 0, the levels and the limit. The work buffers are left with the last level in them.
pub fn work_out<N: Weighed>(
    levels: u32,
    indices: &[u32],
    coords: &[N],
    nf: usize,
    nv: usize,
    positions: &mut [N],
    out: &mut [u32],
    words: &mut [u32],
    work: &mut [N],
)
    requires planned { Planned (numbers_of N.on) levels indices.now coords.now nf nv }
    requires near { (i : ℕ) → N.AllNear (last (numbers_of N.on) i indices.now coords.now).points }
    requires room { (2 * half_of nf nv ≤ length words.old) × ((2 * third_of nv ≤ length work.old) × ((3 * nv ≤ length positions.old) × (3 * nf ≤ length out.old))) }
    ensures positions { positions.new ≡ sets positions.old 0 (positions_of (numbers_of N.on) (last (numbers_of N.on) levels indices.now coords.now)) }
    ensures out { out.new ≡ sets out.old 0 (last (numbers_of N.on) levels indices.now coords.now).mesh.faces }
    ensures held { Held (numbers_of N.on) (last (numbers_of N.on) levels indices.now coords.now) levels (half_of nf nv) (third_of nv) words.new work.new }
    ensures kept { Kept (2 * half_of nf nv) words.new words.old × Kept (2 * third_of nv) work.new work.old }
{
    let half = 8 * nf + 4 * nv;
    let third = 3 * nv;
    room::load_words(indices, coords.len() / 3, words);
    room::copy(coords, work);
    refine(levels, indices, coords, half, third, words, work);
    finish(
        levels,
        indices,
        coords,
        nf,
        nv,
        &words[..],
        &work[..],
        positions,
        out,
    );
}

// The work buffers cleared, as far as the last level needs them.
pub fn clear<N: Weighed>(nf: usize, nv: usize, words: &mut [u32], work: &mut [N])
    requires { (2 * half_of nf nv ≤ length words.old) × (2 * third_of nv ≤ length work.old) }
    ensures words { words.new ≡ cleared 0 (2 * half_of nf nv) words.old }
    ensures work { work.new ≡ cleared (numbers_of N.on).nought (2 * third_of nv) work.old }
{
    room::clear(words, 2 * (8 * nf + 4 * nv), 0);
    room::clear(work, 2 * (3 * nv), N::nought());
}

// All of it.
pub fn run<N: Weighed>(
    levels: u32,
    indices: &[u32],
    coords: &[N],
    nf: usize,
    nv: usize,
    positions: &mut [N],
    out: &mut [u32],
    words: &mut [u32],
    work: &mut [N],
)
    requires planned { Planned (numbers_of N.on) levels indices.now coords.now nf nv }
    requires near { (i : ℕ) → N.AllNear (last (numbers_of N.on) i indices.now coords.now).points }
    requires room { (2 * half_of nf nv ≤ length words.old) × ((2 * third_of nv ≤ length work.old) × ((3 * nv ≤ length positions.old) × (3 * nf ≤ length out.old))) }
    ensures positions { positions.new ≡ sets positions.old 0 (positions_of (numbers_of N.on) (last (numbers_of N.on) levels indices.now coords.now)) }
    ensures out { out.new ≡ sets out.old 0 (last (numbers_of N.on) levels indices.now coords.now).mesh.faces }
    ensures words { words.new ≡ cleared 0 (2 * half_of nf nv) words.old }
    ensures work { work.new ≡ cleared (numbers_of N.on).nought (2 * third_of nv) work.old }
{
    work_out(levels, indices, coords, nf, nv, positions, out, words, work);
    clear(nf, nv, words, work);
}
