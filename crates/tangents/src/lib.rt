// docs/RULES.md, Positions: tangents, of the limit positions of a vertex and its ring, in f32: each operation rounded once, in the written order.
#![tactic(auto)]

ghost use Rattle.std.specs.Prelude.{◌≡◌, [], ◌∷◌, map, ◌+◌, ◌*◌, ◌≤◌, ◌<◌, length, take};
ghost use Rattle.std.proofs.lemmas.List.Edits.{sets};
ghost use Rattle.lists.specs.Lists.{count, gather};
ghost use Rattle.turns.specs.Turns.{most_valence};
ghost use Rattle.vectors.specs.Vectors.{cross};
ghost use Rattle.rules.specs.Tangents.{point, inner_tangents, rim_weight, rim_tangent, rim_tangents, three_of};
ghost use Rattle.weights.specs.Lent.{There, AllThere};
ghost use Rattle.tangents.specs.Normals.{both, tangents_by, fewest, Smooth, normal_in};

use faces::rings::one_ring;
use faces::sides::VertNo;
use turns::{MOST_VALENCE, Tables};
use vectors::Vec3;
use weights::Weighed;
use weights::points::{point, ring_points};

// S and T.
#[derive(Clone, Copy)]
pub struct Tangents {
    pub s: Vec3,
    pub t: Vec3,
}

// "S and T begin at zero and add r_i times cos(2 pi i/n), sin(2 pi i/n), i from 0", to the valence.
pub fn inner_tangents(tables: &Tables, xs: &[f32], ring: &[u32]) -> Tangents
    requires in_bounds { (3 ≤ length ring.now) × AllThere xs.now ring.now }
    ensures { result ≡ both (inner_tangents (map (point xs.now) ring.now)) }
{
    let n = ring.len();
    let mut s = Vec3::default();
    let mut t = Vec3::default();
    for i in 0..n {
        let r = point(xs, VertNo(ring[i]));
        s = s + r * tables.cosine(i, n);
        t = t + r * tables.sine(i, n);
    }
    Tangents { s: s, t: t }
}

// (2 cos theta - 2) sin(k theta), theta the half turn over m.
fn rim_weight(tables: &Tables, m: usize, k: usize) -> f32
    requires le_m { (3 ≤ m) × (m ≤ most_valence) × (k ≤ m) }
    ensures { result ≡ rim_weight m k }
{
    (2.0 * tables.half_cosine(1, m) - 2.0) * tables.half_sine(k, m)
}

// T at valence 4: -r0 + 2 r1 + 2 r2 - r3 - 2p.
fn rim_tangent_4(p: Vec3, a: Vec3, b: Vec3, c: Vec3, d: Vec3) -> Vec3
    ensures { result ≡ rim_tangent p (a ∷ b ∷ c ∷ d ∷ []) }
{
    a * -1.0 + b * 2.0 + c * 2.0 + d * -1.0 + p * -2.0
}

// T from valence 5 on.
fn rim_tangent_5(tables: &Tables, p: Vec3, ring: [Vec3; MOST_VALENCE], n: usize) -> Vec3
    requires le_n { (5 ≤ n) × (n ≤ most_valence) }
    ensures { result ≡ rim_tangent p (take n ring) }
{
    let m = n - 1;
    let first = ring[0];
    let last = ring[m];
    let mut t = (first + last) * tables.half_sine(1, m);
    for k in 1..m {
        let r = ring[k];
        t = t + r * rim_weight(tables, m, k);
    }
    -t
}

// T at a rim point p.
pub fn rim_tangent(tables: &Tables, p: Vec3, ring: [Vec3; MOST_VALENCE], n: usize) -> Vec3
    requires le_n { (2 ≤ n) × (n ≤ most_valence) }
    ensures { result ≡ rim_tangent p (take n ring) }
{
    if n == 2 {
        let a = ring[0];
        let b = ring[1];
        return a + b - p * 2.0;
    }
    if n == 3 {
        let b = ring[1];
        return b - p;
    }
    if n == 4 {
        let a = ring[0];
        let b = ring[1];
        let c = ring[2];
        let d = ring[3];
        return rim_tangent_4(p, a, b, c, d);
    }
    rim_tangent_5(tables, p, ring, n)
}

// S = last - first.
pub fn rim_tangents(tables: &Tables, p: Vec3, ring: [Vec3; MOST_VALENCE], n: usize) -> Tangents
    requires le_n { (2 ≤ n) × (n ≤ most_valence) }
    ensures { result ≡ both (rim_tangents p (take n ring)) }
{
    let m = n - 1;
    let first = ring[0];
    let last = ring[m];
    let s = last - first;
    let t = rim_tangent(tables, p, ring, n);
    Tangents { s: s, t: t }
}

// At vertex v, from its ring.
pub fn tangents_at(tables: &Tables, xs: &[f32], v: VertNo, ring: &[u32], rim: bool) -> Tangents
    requires there { There xs.now v.0 × (AllThere xs.now ring.now × (fewest rim ≤ length ring.now)) }
    ensures { result ≡ both (tangents_by xs.now v.0 rim ring.now) }
{
    if rim {
        rim_tangents(tables, point(xs, v), ring_points(xs, ring), ring.len())
    } else {
        inner_tangents(tables, xs, ring)
    }
}

// "S cross T, not made unit."
pub fn normal(p: Tangents) -> Vec3
    ensures { result ≡ cross p.s p.t }
{
    p.s.cross(p.t)
}

// The normal at vertex v of the mesh that stands at `at`, from the limit positions xs.
pub fn normal_at(
    tables: &Tables,
    words: &[u32],
    at: usize,
    nf: usize,
    nv: u32,
    xs: &[f32],
    v: VertNo,
) -> Vec3
    requires smooth { Smooth words.now at nf nv xs.now × (v.0 < nv) }
    ensures { three_of result ≡ normal_in words.now at nf nv xs.now v.0 }
{
    let s = words[at + 6 * nf + v.0 as usize] as usize;
    let mut vs: [u32; MOST_VALENCE] = [0; MOST_VALENCE];
    let ring = one_ring(words, at, at + 3 * nf, nf, s, &mut vs);
    normal(tangents_at(tables, xs, v, &vs[..ring.n], ring.rim))
}

// The normals of all its vertices.
pub fn normals(words: &[u32], at: usize, nf: usize, nv: u32, xs: &[f32], out: &mut [f32])
    requires { Smooth words.now at nf nv xs.now × (3 * nv ≤ length out.old) }
    ensures { out.new ≡ sets out.old 0 (gather (normal_in words.now at nf nv xs.now) (count 0 nv)) }
{
    let tables = Tables::new();
    for v in 0..nv {
        let a = normal_at(&tables, words, at, nf, nv, xs, VertNo(v));
        f32::put(a, out, 3 * v as usize);
    }
}
