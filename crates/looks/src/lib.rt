// What is found by looking through a face list, each time it is asked: what lies across a side, a face with its links, the walks round a vertex, its ring. No links are kept.
#![tactic(auto)]

pub mod rings;

ghost use Rattle.std.specs.Prelude.{◌≡◌, ◌+◌, ◌*◌, ◌≤◌, ◌<◌, length, get_or};
ghost use Rattle.std.proofs.Math.Option.{none};
ghost use Rattle.lists.specs.Lists.{part};
ghost use Rattle.rules.specs.Mesh.{side, opposite, links, step_to, next_corner, prev_corner};
ghost use Rattle.faces.specs.Words.{coded};
ghost use Rattle.faces.specs.Faces.{face_at};
ghost use Rattle.faces.specs.Rings.{step_of};
ghost use Rattle.cage.specs.Chains.{Apart};
ghost use Rattle.marks.specs.Marks.{Marking};
ghost use Rattle.looks.specs.Looked.{Listed, looked, bare_at, spot_in, Within, stand_of};
ghost use Rattle.looks.specs.Marking.{Listable};

use faces::face::{Corner, Face, next_face, prev_face, vnum};
use faces::sides::{FaceNo, Link, VertNo, decode, onward};
use faces::walks::{Step, step_to};
use marks::set_mark;

// Whether side t runs from b to a.
fn comes_back(words: &[u32], at: usize, n: usize, a: u32, b: u32, t: usize) -> bool
    requires { Listed words.now at n × (t < n) }
    ensures { result ≡ opposite (record { from = a; to = b }) (side (part at n words.now) t) }
{
    a == words[at + onward(t)] && b == words[at + t]
}

// One past the side across side s, of the n sides whose corners stand from `at` on; 0 at the rim.
pub fn across(words: &[u32], at: usize, n: usize, s: usize) -> u32
    requires { Listed words.now at n × (s < n) }
    ensures { result ≡ coded (get_or (links (part at n words.now)) s none) }
{
    let a = words[at + s];
    let b = words[at + onward(s)];
    for t in 0..n {
        if comes_back(words, at, n, a, b, t) {
            return (t + 1) as u32;
        }
    }
    0
}

// Face f by value, its links looked up.
pub fn face(words: &[u32], at: usize, n: usize, f: FaceNo) -> Face
    requires { Listed words.now at n × (3 * f.0 + 3 ≤ n) }
    ensures { result ≡ face_at (looked (part at n words.now)) 0 n f.0 }
{
    let s = 3 * (f.0 as usize);
    Face {
        f0: decode(across(words, at, n, s)),
        f1: decode(across(words, at, n, s + 1)),
        f2: decode(across(words, at, n, s + 2)),
        ..bare(words, at, f)
    }
}

// Face g by value, without its links: no look is spent on them.
pub fn bare(words: &[u32], at: usize, g: FaceNo) -> Face
    requires { at + 3 * g.0 + 3 ≤ length words.now }
    ensures { result ≡ bare_at words.now at g.0 }
{
    let i = at + 3 * (g.0 as usize);
    Face {
        v0: VertNo(words[i]),
        v1: VertNo(words[i + 1]),
        v2: VertNo(words[i + 2]),
        f0: None,
        f1: None,
        f2: None,
    }
}

fn spot_in(k: Option<Corner>, g: FaceNo) -> usize
    ensures { result ≡ spot_in k g.0 }
{
    let s = 3 * (g.0 as usize);
    match k {
        Some(Corner::First) | None => s,
        Some(Corner::Second) => s + 1,
        Some(Corner::Third) => s + 2,
    }
}

// Across a side at vertex v: to the corner at which v stands in the face there, or off the rim.
fn step_across(words: &[u32], at: usize, home: usize, v: VertNo, link: Option<Link>) -> Step
    requires { Within (length words.now) at link }
    ensures { result ≡ step_of (step_to home (stand_of words.now at v link)) }
{
    match link {
        Some(Some(g)) => step_to(home, spot_in(vnum(bare(words, at, g), v), g)),
        Some(None) | None => Step::Off,
    }
}

// `next_face` of the vertex at corner s, and the corner at which it stands there.
pub fn next_corner(words: &[u32], at: usize, n: usize, home: usize, s: usize) -> Step
    requires listed { Listed words.now at n × (s < n) }
    requires apart { Apart (part at n words.now) }
    ensures { result ≡ step_of (next_corner (links (part at n words.now)) home s) }
{
    let v = VertNo(words[at + s]);
    let f = face(words, at, n, FaceNo((s / 3) as u32));
    step_across(words, at, home, v, next_face(f, v))
}

// `prev_face` of it, and the corner at which it stands there.
pub fn prev_corner(words: &[u32], at: usize, n: usize, home: usize, s: usize) -> Step
    requires listed { Listed words.now at n × (s < n) }
    requires apart { Apart (part at n words.now) }
    ensures { result ≡ step_of (prev_corner (links (part at n words.now)) home s) }
{
    let v = VertNo(words[at + s]);
    let f = face(words, at, n, FaceNo((s / 3) as u32));
    step_across(words, at, home, v, prev_face(f, v))
}

// The listed sides marked on both faces, where none is marked yet: the other face is found by looking.
pub fn mark_words(sharp: &[u32], words: &mut [u32], at: usize, marks: usize, nf: usize)
    requires { Listable words.old at marks nf sharp.now }
    ensures { Marking words.old (links (part at (3 * nf) words.old)) marks nf sharp.now words.new }
{
    for side in sharp {
        let s = *side as usize;
        let t = across(&words[..], at, 3 * nf, s) as usize;
        set_mark(words, marks, s);
        set_mark(words, marks, t - 1);
    }
}
