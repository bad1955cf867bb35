// The whole engine where edges are sharp, once the checks are passed: `micrometres` of crate `loopsubdiv`, with marks.
#![tactic(auto)]

ghost use Rattle.std.specs.Prelude.{◌≡◌, ◌+◌, ◌-◌, ◌*◌, ◌/◌, ◌≤◌, ◌<◌, length, pos};
ghost use Rattle.std.proofs.lemmas.List.Edits.{sets};
ghost use Rattle.lists.specs.Lists.{count, gather, part, cleared};
ghost use Rattle.rules.specs.Mesh.{links, cage};
ghost use Rattle.rules.specs.Position.{limit as at_limit, whole};
ghost use Rattle.rules.specs.Levels.{last};
ghost use Rattle.rules.specs.Sharp.{sharp_moved, sharp_limits, sharp_last, sharp_positions};
ghost use Rattle.rules.specs.Sound.{AllNear};
ghost use Rattle.faces.specs.Words.{Holds};
ghost use Rattle.weights.specs.Lent.{lowered, Raised3};
ghost use Rattle.levels.specs.Level.{mesh_in};
ghost use Rattle.room.specs.Held.{half_of, third_of, Kept, Parts, Planned};
ghost use Rattle.marks.specs.Marks.{marks_in};
ghost use Rattle.creases.specs.Moves.{Markable};
ghost use Rattle.sharp.specs.Marked.{SharpHeld, Listed, unmarked, MarksLoaded};

use faces::sides::VertNo;
use turns::MOST_VALENCE;
use weights::micrometres::Whole3;
use weights::{Stage, Weighed};

// The words of n faces, from `at` on, with no mark.
pub fn no_marks(words: &mut [u32], at: usize, n: usize)
    requires { at + n ≤ length words.old }
    ensures { words.new ≡ sets words.old at (gather unmarked (count 0 n)) }
{
    for k in 0..n {
        words[at + k] = 0;
    }
}

// Level 0: the marks of the listed sides, on both faces, after the control cage at the front of the words.
fn load_marks(
    levels: u32,
    indices: &[u32],
    coords: &[i32],
    sharp: &[u32],
    nf: usize,
    nv: usize,
    words: &mut [u32],
)
    requires planned { Planned whole levels indices.now coords.now nf nv × Listed levels sharp.now indices.now coords.now }
    requires held { Holds words.old 0 (cage (length coords.now / 3) indices.now) }
    requires room { 2 * half_of nf nv ≤ length words.old }
    ensures { MarksLoaded sharp.now (cage (length coords.now / 3) indices.now) (half_of nf nv) words.old words.new }
{
    let n = indices.len() / 3;
    let marks = 8 * nf + 4 * nv - n;
    no_marks(words, marks, n);
    marks::mark_words(sharp, words, 3 * n, marks, n);
}

// Level by level, from one part of the work buffers to the other; the marks go with the mesh.
fn refine(
    levels: u32,
    indices: &[u32],
    coords: &[i32],
    sharp: &[u32],
    half: usize,
    third: usize,
    words: &mut [u32],
    work: &mut [i32],
)
    requires cage { Listed levels sharp.now indices.now coords.now }
    requires parts { Parts whole levels indices.now coords.now half third }
    requires held { SharpHeld (sharp_last whole 0 sharp.now indices.now coords.now) 0 half third words.old work.old }
    requires room { (2 * half ≤ length words.old) × (2 * third ≤ length work.old) }
    ensures held { SharpHeld (sharp_last whole levels sharp.now indices.now coords.now) levels half third words.new work.new }
    ensures kept { Kept (2 * half) words.new words.old × Kept (2 * third) work.new work.old }
{
    let mut nf = indices.len() / 3;
    let mut nv = coords.len() / 3;
    for i in 0..levels {
        let at = room::start(i, half);
        let to = room::start(i + 1, half);
        let from = room::start(i, third);
        let next = room::start(i + 1, third);
        let marks = at + (half - nf);
        creases::points::sharp_points(&words[..], at, marks, nf, nv, work, from, next);
        nv += levels::refine_words(words, at, to, nf, nv);
        marks::refine_marks(words, marks, to + (half - 4 * nf), nf);
        nf = 4 * nf;
    }
}

// Vertex u of the mesh that stands at `at`, whose coordinates are xs and whose marks stand at `marks`.
fn limit_at(
    words: &[u32],
    at: usize,
    marks: usize,
    nf: usize,
    nv: usize,
    xs: &[i32],
    u: usize,
) -> Whole3
    requires mesh { Markable words.now at marks nf nv × (u < nv) }
    requires coords { (3 * nv ≤ length xs.now) × AllNear xs.now }
    ensures point { lowered result ≡ sharp_moved whole at_limit (mesh_in words.now at nf nv) (links (part at (3 * nf) words.now)) (marks_in words.now marks nf) xs.now u }
    ensures near { Raised3 result }
{
    let s = words[at + 6 * nf + u] as usize;
    let mut vs: [u32; MOST_VALENCE] = [0; MOST_VALENCE];
    let ring = creases::rings::sharp_ring(words, at, at + 3 * nf, marks, nf, s, &mut vs);
    creases::creased(
        xs,
        VertNo(u as u32),
        &vs[..ring.n],
        ring.creases,
        ring.a,
        ring.b,
        Stage::Limit,
    )
}

fn limit(words: &[u32], at: usize, marks: usize, nf: usize, nv: usize, xs: &[i32], out: &mut [i32])
    requires mesh { Markable words.now at marks nf nv }
    requires coords { (3 * nv ≤ length xs.now) × AllNear xs.now }
    requires room { 3 * nv ≤ length out.old }
    ensures { out.new ≡ sets out.old 0 (sharp_limits whole (mesh_in words.now at nf nv) (links (part at (3 * nf) words.now)) (marks_in words.now marks nf) xs.now) }
{
    for u in 0..nv {
        let p = limit_at(words, at, marks, nf, nv, xs, u);
        i32::put(p, out, 3 * u);
    }
}

// The last level goes out: its faces, and its limit positions.
fn finish(
    levels: u32,
    indices: &[u32],
    coords: &[i32],
    sharp: &[u32],
    nf: usize,
    nv: usize,
    words: &[u32],
    work: &[i32],
    positions: &mut [i32],
    out: &mut [u32],
)
    requires planned { Planned whole levels indices.now coords.now nf nv × Listed levels sharp.now indices.now coords.now }
    requires held { SharpHeld (sharp_last whole levels sharp.now indices.now coords.now) levels (half_of nf nv) (third_of nv) words.now work.now }
    requires room { (2 * half_of nf nv ≤ length words.now) × ((2 * third_of nv ≤ length work.now) × ((3 * nv ≤ length positions.old) × (3 * nf ≤ length out.old))) }
    ensures positions { positions.new ≡ sets positions.old 0 (sharp_positions whole (sharp_last whole levels sharp.now indices.now coords.now)) }
    ensures out { out.new ≡ sets out.old 0 (last whole levels indices.now coords.now).mesh.faces }
{
    let half = 8 * nf + 4 * nv;
    let at = room::start(levels, half);
    room::copy(&words[at..at + 3 * nf], out);
    let third = 3 * nv;
    let xs = room::front(&work[0..third], &work[third..2 * third], levels, third);
    limit(words, at, at + (half - nf), nf, nv, xs, positions);
}

// All of it: level 0 with its marks, the levels, the limit, and the work buffers cleared.
pub fn run(
    levels: u32,
    indices: &[u32],
    coords: &[i32],
    sharp: &[u32],
    nf: usize,
    nv: usize,
    positions: &mut [i32],
    out: &mut [u32],
    words: &mut [u32],
    work: &mut [i32],
)
    requires planned { Planned whole levels indices.now coords.now nf nv × Listed levels sharp.now indices.now coords.now }
    requires room { (2 * half_of nf nv ≤ length words.old) × ((2 * third_of nv ≤ length work.old) × ((3 * nv ≤ length positions.old) × (3 * nf ≤ length out.old))) }
    ensures positions { positions.new ≡ sets positions.old 0 (sharp_positions whole (sharp_last whole levels sharp.now indices.now coords.now)) }
    ensures out { out.new ≡ sets out.old 0 (last whole levels indices.now coords.now).mesh.faces }
    ensures words { words.new ≡ cleared 0 (2 * half_of nf nv) words.old }
    ensures work { work.new ≡ cleared (pos 0) (2 * third_of nv) work.old }
{
    let half = 8 * nf + 4 * nv;
    let third = 3 * nv;
    room::load_words(indices, coords.len() / 3, words);
    load_marks(levels, indices, coords, sharp, nf, nv, words);
    room::copy(coords, work);
    refine(levels, indices, coords, sharp, half, third, words, work);
    finish(
        levels,
        indices,
        coords,
        sharp,
        nf,
        nv,
        &words[..],
        &work[..],
        positions,
        out,
    );
    room::clear(words, 2 * half, 0);
    room::clear(work, 2 * third, 0);
}
