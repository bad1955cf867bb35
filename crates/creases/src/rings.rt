// The ring of a vertex with the sharp edges in it: crate `faces`, with marks.
ghost use Rattle.std.specs.Prelude.{◌≡◌, ◌++◌, ◌+◌, ◌-◌, ◌*◌, ◌/◌, ◌%◌, ◌≤◌, ◌<◌, length, get_or};
ghost use Rattle.std.proofs.lemmas.List.Edits.{sets};
ghost use Rattle.lists.specs.Lists.{part, pick, bit, keep, tally};
ghost use Rattle.turns.specs.Turns.{most_valence};
ghost use Rattle.rules.specs.Mesh as mesh;
ghost use Rattle.rules.specs.Sharp.{sharp};
ghost use Rattle.faces.specs.Words.{links_in};
ghost use Rattle.faces.specs.Rings.{Walkable, Mated, Ends, trip_of, inners, backs, down_from};
ghost use Rattle.marks.specs.Marks.{mark_of, marks_in};
ghost use Rattle.creases.specs.Rings.{comes, Sharpable, met_of, noted, sharp_ring_of};

use faces::rings::{next_vert_at, upend};
use faces::sides::backward;
use faces::walks::{Step, Trip, next_corner, prev_corner};
use marks::mark;

// The sharp edges met: how many, and the far ends of the first two.
#[derive(Clone, Copy)]
pub struct Met {
    pub n: usize,
    pub a: u32,
    pub b: u32,
}

fn note(m: Met, v: u32) -> Met
    requires { m.n + 1 < 18446744073709551616 }
    ensures { result ≡ noted m v }
{
    match m.n {
        0 => Met { n: 1, a: v, b: 0 },
        1 => Met { n: 2, a: m.a, b: v },
        n => Met { n: n + 1, ..m },
    }
}

// Side s, which leads to vertex v, noted if it is sharp.
pub fn meet(words: &[u32], marks: usize, s: usize, m: Met, v: u32) -> Met
    requires { (marks + s / 3 < length words.now) × (m.n + 1 < 18446744073709551616) }
    ensures { result ≡ pick (mark_of (get_or words.now (marks + s / 3) 0) (s % 3)) (noted m v) m }
{
    if mark(words, marks, s) { note(m, v) } else { m }
}

// One more, if side s is sharp.
pub fn tallied(words: &[u32], marks: usize, s: usize, k: usize) -> usize
    requires { (marks + s / 3 < length words.now) × (k + 1 < 18446744073709551616) }
    ensures { result ≡ k + bit (mark_of (get_or words.now (marks + s / 3) 0) (s % 3)) }
{
    if mark(words, marks, s) { k + 1 } else { k }
}

// What the walk on finds, and the sharp edges that it meets.
#[derive(Clone, Copy)]
struct Walked {
    trip: Trip,
    met: Met,
}

// `gather_on`, with the sharp edges among those that it stands at.
fn sharp_on(
    words: &[u32],
    corners: usize,
    links: usize,
    marks: usize,
    nf: usize,
    s: usize,
    out: &mut [u32],
) -> Walked
    requires walk { Walkable words.now links nf s × (corners + 3 * nf ≤ length words.now) × Mated words.now corners links nf }
    requires few { Ends (mesh.next_corner (links_in words.now links (3 * nf)) s) nf s (length out.old) }
    requires marks { marks + nf ≤ length words.now }
    ensures trip { result.trip ≡ trip_of (mesh.walk (mesh.next_corner (links_in words.now links (3 * nf)) s) nf (mesh.here s)) }
    ensures met { result.met ≡ met_of (inners (part corners (3 * nf) words.now) (keep (sharp (marks_in words.now marks nf)) (mesh.passed (mesh.walk (mesh.next_corner (links_in words.now links (3 * nf)) s) nf (mesh.here s))))) }
    ensures ring { out.new ≡ sets out.old 0 (inners (part corners (3 * nf) words.now) (mesh.passed (mesh.walk (mesh.next_corner (links_in words.now links (3 * nf)) s) nf (mesh.here s)))) }
{
    let mut at = s;
    let mut met = Met { n: 0, a: 0, b: 0 };
    for n in 0..nf {
        let v = next_vert_at(words, corners, links, nf, at);
        out[n] = v;
        met = meet(words, marks, at, met, v);
        match next_corner(words, links, s, at) {
            Step::Home => {
                return Walked {
                    trip: Trip::Closed(n + 1),
                    met,
                };
            }
            Step::Off => {
                return Walked {
                    trip: Trip::Ended(n + 1, at),
                    met,
                };
            }
            Step::Here(t) => at = t,
        }
    }
    Walked {
        trip: Trip::Long,
        met,
    }
}

// The ring with the sharp and rim edges in it: how many there are, and the far ends of the first two.
#[derive(Clone, Copy)]
pub struct SharpRing {
    pub n: usize,
    pub creases: usize,
    pub a: u32,
    pub b: u32,
}

// What the way back adds: how many there are now, and how many of its sides are sharp.
#[derive(Clone, Copy)]
pub struct Rest {
    pub n: usize,
    pub sharp: usize,
}

// `gather_back`, with how many of the sides that it comes by are sharp.
fn sharp_back(
    words: &[u32],
    corners: usize,
    links: usize,
    marks: usize,
    nf: usize,
    q: usize,
    end: usize,
    s: usize,
    from: usize,
    out: &mut [u32],
) -> Rest
    requires { Walkable words.now links nf s × (corners + 3 * nf ≤ length words.now) × Ends (mesh.prev_corner (links_in words.now links (3 * nf)) end) q s (most_valence - from) × (0 < q) × (most_valence ≤ length out.old) × (marks + nf ≤ length words.now) }
    ensures count { result.n ≡ from + length (backs (part corners (3 * nf) words.now) (mesh.passed (mesh.walk (mesh.prev_corner (links_in words.now links (3 * nf)) end) q (mesh.here s)))) }
    ensures sharp { result.sharp ≡ tally (comes (marks_in words.now marks nf)) (mesh.passed (mesh.walk (mesh.prev_corner (links_in words.now links (3 * nf)) end) q (mesh.here s))) }
    ensures ring { out.new ≡ sets out.old from (backs (part corners (3 * nf) words.now) (mesh.passed (mesh.walk (mesh.prev_corner (links_in words.now links (3 * nf)) end) q (mesh.here s)))) }
{
    let mut at = s;
    let mut n: usize = 0;
    let mut k: usize = 0;
    // Stays: the walk ends by its own step; a `for` would add a bound, and an answer after it that is never given.
    loop {
        let c = backward(at);
        out[from + n] = words[corners + c];
        k = tallied(words, marks, c, k);
        n += 1;
        match prev_corner(words, links, end, at) {
            Step::Home | Step::Off => {
                return Rest {
                    n: from + n,
                    sharp: k,
                };
            }
            Step::Here(t) => at = t,
        }
    }
}

// `rim_rest`, with the rim's two edges and the sharp ones, of which the walk on met k.
fn sharp_rest(
    words: &[u32],
    corners: usize,
    links: usize,
    marks: usize,
    nf: usize,
    end: usize,
    s: usize,
    n: usize,
    k: usize,
    out: &mut [u32],
) -> SharpRing
    requires words { Walkable words.now links nf s × (corners + 3 * nf ≤ length words.now) }
    requires on { (0 < n) × (n < most_valence) × (n ≤ nf) × (most_valence ≤ length out.old) }
    requires back { Ends (mesh.prev_corner (links_in words.now links (3 * nf)) end) (nf + 1 - n) s (most_valence - n) }
    requires marks { (marks + nf ≤ length words.now) × (k ≤ most_valence) }
    ensures count { result.n ≡ n + length (backs (part corners (3 * nf) words.now) (mesh.passed (mesh.walk (mesh.prev_corner (links_in words.now links (3 * nf)) end) (nf + 1 - n) (mesh.here s)))) }
    ensures creases { result.creases ≡ 2 + k + tally (comes (marks_in words.now marks nf)) (mesh.passed (mesh.walk (mesh.prev_corner (links_in words.now links (3 * nf)) end) (nf + 1 - n) (mesh.here s))) }
    ensures ends { (result.a ≡ get_or out.new 0 0) × (result.b ≡ get_or out.new (result.n - 1) 0) }
    ensures ring { out.new ≡ sets out.old 0 (down_from out.old (n - 1) ++ backs (part corners (3 * nf) words.now) (mesh.passed (mesh.walk (mesh.prev_corner (links_in words.now links (3 * nf)) end) (nf + 1 - n) (mesh.here s)))) }
{
    upend(n, out);
    let r = sharp_back(words, corners, links, marks, nf, nf + 1 - n, end, s, n, out);
    let m = r.n;
    let j = r.sharp;
    SharpRing {
        n: m,
        creases: 2 + k + j,
        a: out[0],
        b: out[m - 1],
    }
}

// The ring of the vertex of corner s, into the front of `out`, and its sharp and rim edges, in one passage round it.
pub fn sharp_ring(
    words: &[u32],
    corners: usize,
    links: usize,
    marks: usize,
    nf: usize,
    s: usize,
    out: &mut [u32],
) -> SharpRing
    requires { Sharpable words.now corners links marks nf s × (most_valence ≤ length out.old) }
    ensures ring { result ≡ sharp_ring_of (part corners (3 * nf) words.now) (marks_in words.now marks nf) (mesh.fan (links_in words.now links (3 * nf)) s) }
    ensures out { out.new ≡ sets out.old 0 (mesh.ring (part corners (3 * nf) words.now) (mesh.fan (links_in words.now links (3 * nf)) s)) }
{
    let p = sharp_on(words, corners, links, marks, nf, s, out);
    let met = p.met;
    let trip = p.trip;
    match trip {
        Trip::Closed(n) => SharpRing {
            n,
            creases: met.n,
            a: met.a,
            b: met.b,
        },
        Trip::Ended(n, end) => sharp_rest(words, corners, links, marks, nf, end, s, n, met.n, out),
        Trip::Long => SharpRing {
            n: 0,
            creases: 0,
            a: 0,
            b: 0,
        },
    }
}
