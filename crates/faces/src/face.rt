// The Rust's face by value, and its six questions. The plain engine asks them, through crate `looks`; the linked one goes by side numbers and holds no face.
ghost use Rattle.std.specs.Prelude.{◌≡◌, ◌+◌, ◌*◌, ◌≤◌, length};
ghost use Rattle.faces.specs.Faces.{at, face_at, vnum_of, next_face_of, prev_face_of, next_vert_of, prev_vert_of, unless, other_vert_of};

use crate::sides::{FaceNo, Link, VertNo, decode};

// A face by value: three corners, and what lies across the side that leaves each.
#[derive(Clone, Copy)]
pub struct Face {
    pub v0: VertNo,
    pub v1: VertNo,
    pub v2: VertNo,
    pub f0: Link,
    pub f1: Link,
    pub f2: Link,
}

// Which corner a vertex is.
#[derive(Clone, Copy, PartialEq, Eq)]
pub enum Corner {
    First,
    Second,
    Third,
}

// Of what stands at the three corners, that at corner k.
fn at<T: Copy>(k: Corner, a: T, b: T, c: T) -> T
    ensures { result ≡ at k a b c }
{
    match k {
        Corner::First => a,
        Corner::Second => b,
        Corner::Third => c,
    }
}

// None where the vertex is not on the face; so too of the four that follow.
pub fn vnum(f: Face, v: VertNo) -> Option<Corner>
    ensures { result ≡ vnum_of f v }
{
    if f.v0 == v {
        Some(Corner::First)
    } else if f.v1 == v {
        Some(Corner::Second)
    } else if f.v2 == v {
        Some(Corner::Third)
    } else {
        None
    }
}

pub fn next_face(f: Face, v: VertNo) -> Option<Link>
    ensures { result ≡ next_face_of f v }
{
    vnum(f, v).map(|k| at(k, f.f0, f.f1, f.f2))
}

pub fn prev_face(f: Face, v: VertNo) -> Option<Link>
    ensures { result ≡ prev_face_of f v }
{
    vnum(f, v).map(|k| at(k, f.f2, f.f0, f.f1))
}

pub fn next_vert(f: Face, v: VertNo) -> Option<VertNo>
    ensures { result ≡ next_vert_of f v }
{
    vnum(f, v).map(|k| at(k, f.v1, f.v2, f.v0))
}

pub fn prev_vert(f: Face, v: VertNo) -> Option<VertNo>
    ensures { result ≡ prev_vert_of f v }
{
    vnum(f, v).map(|k| at(k, f.v2, f.v0, f.v1))
}

// The vertex c, unless it is a or b: then d.
fn or_else(c: VertNo, a: VertNo, b: VertNo, d: Option<VertNo>) -> Option<VertNo>
    ensures { result ≡ unless c a b d }
{
    if c == a || c == b { d } else { Some(c) }
}

pub fn other_vert(f: Face, a: VertNo, b: VertNo) -> Option<VertNo>
    ensures { result ≡ other_vert_of f a b }
{
    or_else(f.v0, a, b, or_else(f.v1, a, b, or_else(f.v2, a, b, None)))
}

// Face f of those whose corner words stand from `corners` on, and whose link words from `links` on.
pub fn load(words: &[u32], corners: usize, links: usize, f: FaceNo) -> Face
    requires { (corners + 3 * f.0 + 3 ≤ length words.now) × (links + 3 * f.0 + 3 ≤ length words.now) }
    ensures { result ≡ face_at words.now corners links f.0 }
{
    let n = 3 * (f.0 as usize);
    let i = corners + n;
    let j = links + n;
    let a = VertNo(words[i]);
    let b = VertNo(words[i + 1]);
    let c = VertNo(words[i + 2]);
    let p = decode(words[j]);
    let q = decode(words[j + 1]);
    let r = decode(words[j + 2]);
    Face {
        v0: a,
        v1: b,
        v2: c,
        f0: p,
        f1: q,
        f2: r,
    }
}
