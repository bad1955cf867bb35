// Walks and rings that look each neighbour up, as the Rust asks a face: `next_face`, `prev_face`, `next_vert`, `prev_vert`, `other_vert`.
ghost use Rattle.std.specs.Prelude.{◌≡◌, ℕ, ◌+◌, ◌-◌, ◌*◌, ◌≤◌, ◌<◌, length};
ghost use Rattle.std.proofs.lemmas.List.Edits.{sets};
ghost use Rattle.turns.specs.Turns.{most_valence};
ghost use Rattle.lists.specs.Lists.{part, tally};
ghost use Rattle.rules.specs.Mesh as mesh;
ghost use Rattle.faces.specs.Rings.{Ends, Steps, Follows, trip_of, turn_of, inners, backs};
ghost use Rattle.marks.specs.Marks.{marks_in};
ghost use Rattle.creases.specs.Rings.{comes, sharp_ring_of};
ghost use Rattle.looks.specs.Looked.{Seen, Ringed, number_of};

use crate::{bare, next_corner, prev_corner};
use creases::rings::{Met, Rest, SharpRing, meet, tallied};
use faces::face::{next_vert, other_vert, prev_vert};
use faces::sides::{FaceNo, VertNo, backward, onward};
use faces::walks::{Step, Trip, Turn, rim_turn};

pub fn number_of(v: Option<VertNo>) -> u32
    ensures { result ≡ number_of v }
{
    v.map_or(0, |x| x.0)
}

// `next_vert` of the vertex at corner s in its face, and `prev_vert`.
pub fn next_of(words: &[u32], at: usize, nf: usize, s: usize) -> u32
    requires { Seen words.now at nf × (s < 3 * nf) }
    ensures { result ≡ mesh.corner (part at (3 * nf) words.now) (mesh.onward s) }
{
    let v = VertNo(words[at + s]);
    number_of(next_vert(bare(words, at, FaceNo((s / 3) as u32)), v))
}

pub fn prev_of(words: &[u32], at: usize, nf: usize, s: usize) -> u32
    requires { Seen words.now at nf × (s < 3 * nf) }
    ensures { result ≡ mesh.corner (part at (3 * nf) words.now) (mesh.backward s) }
{
    let v = VertNo(words[at + s]);
    number_of(prev_vert(bare(words, at, FaceNo((s / 3) as u32)), v))
}

// The corner of its face that side s does not touch: `other_vert` of its two ends.
pub fn far_of(words: &[u32], at: usize, nf: usize, s: usize) -> u32
    requires { Seen words.now at nf × (s < 3 * nf) }
    ensures { result ≡ mesh.corner (part at (3 * nf) words.now) (mesh.backward s) }
{
    let a = VertNo(words[at + s]);
    let b = VertNo(words[at + onward(s)]);
    number_of(other_vert(bare(words, at, FaceNo((s / 3) as u32)), a, b))
}

// From corner s, step by step, past so many faces at most. The steps are `next_corner` or `prev_corner`.
// Stays: beside `faces::walks::walk`, since the checks of the plain engine are its own (docs/DECISIONS.md): a slip in the loop of either shows in the other.
fn walk<F: Fn(usize) -> Step>(step: F, nf: usize, s: usize) -> Trip
    requires start { s < 3 * nf }
    requires steps { Steps (F.pre step) (F.post step) nf }
    ensures { (next : ℕ → mesh.Step) → Follows (F.post step) nf next → result ≡ trip_of (mesh.walk next nf (mesh.here s)) }
{
    let mut x = s;
    for n in 0..nf {
        match step(x) {
            Step::Home => return Trip::Closed(n + 1),
            Step::Off => return Trip::Ended(n + 1, x),
            Step::Here(t) => x = t,
        }
    }
    Trip::Long
}

// Round the vertex of corner s.
pub fn turn_round(words: &[u32], at: usize, nf: usize, s: usize) -> Turn
    requires { Seen words.now at nf × (s < 3 * nf) }
    ensures { result ≡ turn_of (mesh.fan (mesh.links (part at (3 * nf) words.now)) s) }
{
    match walk(|x| next_corner(words, at, 3 * nf, s, x), nf, s) {
        Trip::Closed(n) => Turn::Inner(n),
        Trip::Ended(_, end) => rim_turn(
            walk(|x| prev_corner(words, at, 3 * nf, end, x), nf, end),
            end,
        ),
        Trip::Long => Turn::Endless,
    }
}

// The ring of an inner vertex, with the sharp edges in it: `next_vert` of each face, by `next_face` from corner s until it is back.
fn inner_ring(
    words: &[u32],
    at: usize,
    marks: usize,
    nf: usize,
    s: usize,
    out: &mut [u32],
) -> SharpRing
    requires { Seen words.now at nf × (s < 3 * nf) × Ends (mesh.next_corner (mesh.links (part at (3 * nf) words.now)) s) nf s (length out.old) × (marks + nf ≤ length words.now) }
    ensures ring { result ≡ sharp_ring_of (part at (3 * nf) words.now) (marks_in words.now marks nf) (mesh.inner (mesh.passed (mesh.walk (mesh.next_corner (mesh.links (part at (3 * nf) words.now)) s) nf (mesh.here s)))) }
    ensures out { out.new ≡ sets out.old 0 (inners (part at (3 * nf) words.now) (mesh.passed (mesh.walk (mesh.next_corner (mesh.links (part at (3 * nf) words.now)) s) nf (mesh.here s)))) }
{
    let mut x = s;
    let mut n: usize = 0;
    let mut met = Met { n: 0, a: 0, b: 0 };
    // Stays: the walk ends by its own step; a `for` would add a bound, and an answer after it that is never given.
    loop {
        let v = next_of(words, at, nf, x);
        out[n] = v;
        met = meet(words, marks, x, met, v);
        n += 1;
        match next_corner(words, at, 3 * nf, s, x) {
            Step::Home | Step::Off => {
                return SharpRing {
                    n,
                    creases: met.n,
                    a: met.a,
                    b: met.b,
                };
            }
            Step::Here(t) => x = t,
        }
    }
}

// Back from the end corner by `prev_face`: `prev_vert` of each face, into `out` from 1 on, and how many of the sides that lead there are sharp.
fn ring_back(words: &[u32], at: usize, marks: usize, nf: usize, end: usize, out: &mut [u32]) -> Rest
    requires { Seen words.now at nf × (end < 3 * nf) × Ends (mesh.prev_corner (mesh.links (part at (3 * nf) words.now)) end) nf end (length out.old - 1) × (marks + nf ≤ length words.now) }
    ensures count { result.n ≡ length (mesh.passed (mesh.walk (mesh.prev_corner (mesh.links (part at (3 * nf) words.now)) end) nf (mesh.here end))) }
    ensures sharp { result.sharp ≡ tally (comes (marks_in words.now marks nf)) (mesh.passed (mesh.walk (mesh.prev_corner (mesh.links (part at (3 * nf) words.now)) end) nf (mesh.here end))) }
    ensures ring { out.new ≡ sets out.old 1 (backs (part at (3 * nf) words.now) (mesh.passed (mesh.walk (mesh.prev_corner (mesh.links (part at (3 * nf) words.now)) end) nf (mesh.here end)))) }
{
    let mut x = end;
    let mut n: usize = 0;
    let mut k: usize = 0;
    // Stays: the walk ends by its own step; a `for` would add a bound, and an answer after it that is never given.
    loop {
        let v = prev_of(words, at, nf, x);
        out[1 + n] = v;
        k = tallied(words, marks, backward(x), k);
        n += 1;
        match prev_corner(words, at, 3 * nf, end, x) {
            Step::Home | Step::Off => return Rest { n, sharp: k },
            Step::Here(t) => x = t,
        }
    }
}

// The ring of a rim vertex, with its sharp and rim edges: `next_vert` of the face at its end corner, then `prev_vert` of each face.
fn rim_ring(
    words: &[u32],
    at: usize,
    marks: usize,
    nf: usize,
    end: usize,
    out: &mut [u32],
) -> SharpRing
    requires { Seen words.now at nf × (end < 3 * nf) × Ends (mesh.prev_corner (mesh.links (part at (3 * nf) words.now)) end) nf end (length out.old - 1) × (marks + nf ≤ length words.now) }
    ensures ring { result ≡ sharp_ring_of (part at (3 * nf) words.now) (marks_in words.now marks nf) (mesh.rim (mesh.passed (mesh.walk (mesh.prev_corner (mesh.links (part at (3 * nf) words.now)) end) nf (mesh.here end)))) }
    ensures out { out.new ≡ sets out.old 0 (mesh.ring (part at (3 * nf) words.now) (mesh.rim (mesh.passed (mesh.walk (mesh.prev_corner (mesh.links (part at (3 * nf) words.now)) end) nf (mesh.here end))))) }
{
    out[0] = next_of(words, at, nf, end);
    let r = ring_back(words, at, marks, nf, end, out);
    let m = r.n;
    let k = r.sharp;
    SharpRing {
        n: m + 1,
        creases: 2 + k,
        a: out[0],
        b: out[m],
    }
}

// The ring of the vertex of corner s, into the front of `out`, and its sharp and rim edges: a first walk tells its kind.
pub fn sharp_ring(
    words: &[u32],
    at: usize,
    marks: usize,
    nf: usize,
    s: usize,
    out: &mut [u32],
) -> SharpRing
    requires { Ringed words.now at nf s × (marks + nf ≤ length words.now) × (most_valence ≤ length out.old) }
    ensures ring { result ≡ sharp_ring_of (part at (3 * nf) words.now) (marks_in words.now marks nf) (mesh.fan (mesh.links (part at (3 * nf) words.now)) s) }
    ensures out { out.new ≡ sets out.old 0 (mesh.ring (part at (3 * nf) words.now) (mesh.fan (mesh.links (part at (3 * nf) words.now)) s)) }
{
    match walk(|x| next_corner(words, at, 3 * nf, s, x), nf, s) {
        Trip::Closed(_) => inner_ring(words, at, marks, nf, s, out),
        Trip::Ended(_, end) => rim_ring(words, at, marks, nf, end, out),
        Trip::Long => SharpRing {
            n: 0,
            creases: 0,
            a: 0,
            b: 0,
        },
    }
}
