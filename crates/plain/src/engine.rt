// The plain engine, once its checks are passed: crate `sharp` with what is looked up in place of links. Of each half of the words it keeps the face list, the start
// corners, the numbers of the sides while a level is made, and the marks; where links would stand nothing is read, and nothing written but by the clearing at the end.
ghost use Rattle.std.specs.Prelude.{◌≡◌, ◌+◌, ◌*◌, ◌/◌, ◌≤◌, length, pos};
ghost use Rattle.std.proofs.lemmas.List.Edits.{sets};
ghost use Rattle.lists.specs.Lists.{cleared};
ghost use Rattle.rules.specs.Mesh.{cage};
ghost use Rattle.rules.specs.Position.{whole};
ghost use Rattle.rules.specs.Levels.{last};
ghost use Rattle.rules.specs.Sharp.{sharp_last, sharp_positions};
ghost use Rattle.cage.specs.Chains.{Faces};
ghost use Rattle.room.specs.Held.{half_of, third_of, Kept, Parts, Planned};
ghost use Rattle.sharp.specs.Marked.{Listed};
ghost use Rattle.plain.specs.Level.{Stands};
ghost use Rattle.plain.specs.Held.{Held, loaded, MarksLoaded};

use crate::level::refine_words;
use crate::points::{limit, refine_points};

// Level 0: the control cage at the front of the words.
fn load_words(indices: &[u32], nv: usize, words: &mut [u32])
    requires { Faces indices.now × (nv ≤ 4096) × (2 * length indices.now + nv ≤ length words.old) }
    ensures { words.new ≡ loaded nv indices.now words.old }
{
    room::copy(indices, words);
    scans::put_starts(indices, nv, words, 2 * indices.len());
}

// The marks of the listed sides, on both faces, after the control cage at the front of the words.
fn load_marks(
    levels: u32,
    indices: &[u32],
    coords: &[i32],
    sharp: &[u32],
    nf: usize,
    nv: usize,
    words: &mut [u32],
)
    requires planned { Planned whole levels indices.now coords.now nf nv × Listed levels sharp.now indices.now coords.now }
    requires held { Stands words.old 0 (cage (length coords.now / 3) indices.now) }
    requires room { 2 * half_of nf nv ≤ length words.old }
    ensures { MarksLoaded sharp.now (cage (length coords.now / 3) indices.now) (half_of nf nv) words.old words.new }
{
    let n = indices.len() / 3;
    let marks = 8 * nf + 4 * nv - n;
    sharp::no_marks(words, marks, n);
    looks::mark_words(sharp, words, 0, marks, n);
}

// Level by level, from one part of the work buffers to the other; the marks go with the mesh.
fn refine(
    levels: u32,
    indices: &[u32],
    coords: &[i32],
    sharp: &[u32],
    half: usize,
    third: usize,
    words: &mut [u32],
    work: &mut [i32],
)
    requires cage { Listed levels sharp.now indices.now coords.now }
    requires parts { Parts whole levels indices.now coords.now half third }
    requires held { Held (sharp_last whole 0 sharp.now indices.now coords.now) 0 half third words.old work.old }
    requires room { (2 * half ≤ length words.old) × (2 * third ≤ length work.old) }
    ensures held { Held (sharp_last whole levels sharp.now indices.now coords.now) levels half third words.new work.new }
    ensures kept { Kept (2 * half) words.new words.old × Kept (2 * third) work.new work.old }
{
    let mut nf = indices.len() / 3;
    let mut nv = coords.len() / 3;
    for i in 0..levels {
        let at = room::start(i, half);
        let to = room::start(i + 1, half);
        let from = room::start(i, third);
        let next = room::start(i + 1, third);
        let marks = at + (half - nf);
        refine_points(&words[..], at, marks, nf, nv, work, from, next);
        nv += refine_words(words, at, to, nf, nv);
        marks::refine_marks(words, marks, to + (half - 4 * nf), nf);
        nf = 4 * nf;
    }
}

// The last level goes out: its faces, and its limit positions.
fn finish(
    levels: u32,
    indices: &[u32],
    coords: &[i32],
    sharp: &[u32],
    nf: usize,
    nv: usize,
    words: &[u32],
    work: &[i32],
    positions: &mut [i32],
    out: &mut [u32],
)
    requires planned { Planned whole levels indices.now coords.now nf nv × Listed levels sharp.now indices.now coords.now }
    requires held { Held (sharp_last whole levels sharp.now indices.now coords.now) levels (half_of nf nv) (third_of nv) words.now work.now }
    requires room { (2 * half_of nf nv ≤ length words.now) × ((2 * third_of nv ≤ length work.now) × ((3 * nv ≤ length positions.old) × (3 * nf ≤ length out.old))) }
    ensures positions { positions.new ≡ sets positions.old 0 (sharp_positions whole (sharp_last whole levels sharp.now indices.now coords.now)) }
    ensures out { out.new ≡ sets out.old 0 (last whole levels indices.now coords.now).mesh.faces }
{
    let half = 8 * nf + 4 * nv;
    let at = room::start(levels, half);
    room::copy(&words[at..at + 3 * nf], out);
    let third = 3 * nv;
    let xs = room::front(&work[0..third], &work[third..2 * third], levels, third);
    limit(words, at, at + (half - nf), nf, nv, xs, positions);
}

// All of it: level 0 with its marks, the levels, the limit, and the work buffers cleared.
pub fn run(
    levels: u32,
    indices: &[u32],
    coords: &[i32],
    sharp: &[u32],
    nf: usize,
    nv: usize,
    positions: &mut [i32],
    out: &mut [u32],
    words: &mut [u32],
    work: &mut [i32],
)
    requires planned { Planned whole levels indices.now coords.now nf nv × Listed levels sharp.now indices.now coords.now }
    requires room { (2 * half_of nf nv ≤ length words.old) × ((2 * third_of nv ≤ length work.old) × ((3 * nv ≤ length positions.old) × (3 * nf ≤ length out.old))) }
    ensures positions { positions.new ≡ sets positions.old 0 (sharp_positions whole (sharp_last whole levels sharp.now indices.now coords.now)) }
    ensures out { out.new ≡ sets out.old 0 (last whole levels indices.now coords.now).mesh.faces }
    ensures words { words.new ≡ cleared 0 (2 * half_of nf nv) words.old }
    ensures work { work.new ≡ cleared (pos 0) (2 * third_of nv) work.old }
{
    let half = 8 * nf + 4 * nv;
    let third = 3 * nv;
    load_words(indices, coords.len() / 3, words);
    load_marks(levels, indices, coords, sharp, nf, nv, words);
    room::copy(coords, work);
    refine(levels, indices, coords, sharp, half, third, words, work);
    finish(
        levels,
        indices,
        coords,
        sharp,
        nf,
        nv,
        &words[..],
        &work[..],
        positions,
        out,
    );
    room::clear(words, 2 * half, 0);
    room::clear(work, 2 * third, 0);
}
