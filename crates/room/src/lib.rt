// Lent buffers: are they long enough, copying into them, clearing them, and which part holds the last level.
#![tactic(auto)]

ghost use Rattle.std.specs.Prelude.{◌≡◌, ◌+◌, ◌*◌, ◌≤◌, ◌%◌, ◌++◌, length, take, eqb, Err, Ok};
ghost use Rattle.std.proofs.lemmas.List.Edits.{sets};
ghost use Rattle.lists.specs.Lists.{pick, cleared};
ghost use Rattle.rules.specs.Refusals.{check, short_of};
ghost use Rattle.rules.specs.Answers.{unless, whole_rooms, single_rooms};
ghost use Rattle.cage.specs.Chains.{Faces, Below, Once};
ghost use Rattle.room.specs.Held.{start_of, loaded};

use rules::{Counts, Outcome, Refusal};

// 01: place 0 positions, 1 normals, 2 indices, 3 words, 4 work coordinates.
fn short(place: u32) -> Outcome
    ensures { result ≡ Err (record { number = 14; place = place }) }
{
    Err(Refusal {
        number: 14,
        place: place,
    })
}

// A whole call is lent no normals, so that none can be missing.
pub fn whole_room(c: Counts, positions: usize, out: usize, words: usize, work: usize) -> Outcome
    ensures { result ≡ unless (check 14 (short_of (whole_rooms positions out words work c))) (Ok c) }
{
    single_room(c, positions, 3 * c.vertices as usize, out, words, work)
}

pub fn single_room(
    c: Counts,
    positions: usize,
    normals: usize,
    out: usize,
    words: usize,
    work: usize,
) -> Outcome
    ensures { result ≡ unless (check 14 (short_of (single_rooms positions normals out words work c))) (Ok c) }
{
    let v = c.vertices as usize;
    let f = c.faces as usize;
    if positions < 3 * v {
        return short(0);
    }
    if normals < 3 * v {
        return short(1);
    }
    if out < 3 * f {
        return short(2);
    }
    if words < 16 * f + 8 * v {
        return short(3);
    }
    if work < 6 * v {
        return short(4);
    }
    Ok(c)
}

// Stays: an entry at a time, since by `copy_from_slice` the library for C would need `memmove` from outside, beside `memcpy` and `memset`; tests/gate-c holds that.
pub fn copy<T: Copy>(w: &[T], s: &mut [T])
    requires { length w.now ≤ length s.old }
    ensures { s.new ≡ sets s.old 0 w.now }
{
    for k in 0..w.len() {
        s[k] = w[k];
    }
}

// The first n entries become z.
pub fn clear<T: Copy>(s: &mut [T], n: usize, z: T)
    requires { n ≤ length s.old }
    ensures { s.new ≡ cleared z n s.old }
{
    for i in 0..n {
        s[i] = z;
    }
}

// "the limit step reads the front of whichever part holds the last level, uncopied"
pub fn front<'a, T>(a: &'a [T], b: &'a [T], levels: u32, n: usize) -> &'a [T]
    requires { (n ≤ length a.now) × (n ≤ length b.now) }
    ensures { result.now ≡ take n (pick (eqb (levels % 2) 0) a.now b.now) }
{
    if levels % 2 == 0 { &a[..n] } else { &b[..n] }
}

// Level 0: the control cage at the front of the words.
pub fn load_words(indices: &[u32], nv: usize, words: &mut [u32])
    requires cage { Faces indices.now × Below 4096 indices.now × Once indices.now × (nv ≤ 4096) }
    requires room { 2 * length indices.now + nv ≤ length words.old }
    ensures { words.new ≡ sets words.old 0 (loaded nv indices.now) }
{
    copy(indices, words);
    cage::link_words(indices, nv, words, indices.len());
}

// Where level i starts, in parts of n entries.
pub fn start(i: u32, n: usize) -> usize
    ensures { result ≡ start_of i n }
{
    if i % 2 == 0 { 0 } else { n }
}
