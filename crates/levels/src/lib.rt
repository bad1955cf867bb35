// One level of a mesh that stands in lent words, in place of the Rust's hash maps by links alone: edge numbers, children, their links, start corners.
// The level is read in one part of the words and the next one is written in the other; see crate `faces`, specs/Words.
#![tactic(auto)]

pub mod points;

ghost use Rattle.std.specs.Prelude.{◌≡◌, ◌⊎◌, ◌+◌, ◌-◌, ◌*◌, ◌≤◌, ◌<◌, [], ◌∷◌, map, length, get_or};
ghost use Rattle.std.proofs.lemmas.List.Edits.{sets};
ghost use Rattle.lists.specs.Lists.{pick, bit, count, gather, part};
ghost use Rattle.rules.specs.Mesh.{links, is_first, firsts, middle, four, restart, fourth};
ghost use Rattle.faces.specs.Words.{link_of, links_in};
ghost use Rattle.levels.specs.Level.{Below, Mutual, children_by, first_half, second_half, twelve_words, links_by, Ready, Grown};

// Whether side s, with link word w, is the one at which its edge is first met: the side across is no earlier one.
pub fn first_met(w: u32, s: u32) -> bool
    ensures { result ≡ is_first s (link_of w) }
{
    w == 0 || s < w
}

// The number of the edge of side s: the next one where it is first met, and else what the side across was given.
pub fn edge_number(words: &[u32], mids: usize, w: u32, s: u32, next: u32) -> u32
    requires { mids + s ≤ length words.now }
    ensures { result ≡ pick (is_first s (link_of w)) next (get_or words.now (mids + (w - 1)) 0) }
{
    if first_met(w, s) {
        next
    } else {
        words[mids + (w - 1) as usize]
    }
}

pub fn counted(yes: bool, k: usize) -> usize
    requires { k < 4294967296 }
    ensures { result ≡ k + bit yes }
{
    if yes { k + 1 } else { k }
}

// "Then each edge gets a vertex, numbered in order of faces and, within one, sides 0, 1, 2, the first time the edge is met." How many there are.
fn number(words: &mut [u32], links: usize, mids: usize, sides: usize, v: usize) -> usize
    requires room { (links + sides ≤ mids) × (mids + sides ≤ length words.old) }
    requires small { v + sides < 4294967296 }
    requires mutual { Mutual (links_in words.old links sides) }
    ensures count { result ≡ length (firsts (links_in words.old links sides)) }
    ensures numbers { words.new ≡ sets words.old mids (map (middle v (links_in words.old links sides)) (count 0 sides)) }
{
    let mut k = 0;
    for s in 0..sides {
        let w = words[links + s];
        let m = edge_number(&words[..], mids, w, s as u32, (v + k) as u32);
        words[mids + s] = m;
        k = counted(first_met(w, s as u32), k);
    }
    k
}

fn put3(words: &mut [u32], j: usize, a: u32, b: u32, c: u32)
    requires { j + 3 ≤ length words.old }
    ensures { words.new ≡ sets words.old j (a ∷ b ∷ c ∷ []) }
{
    words[j] = a;
    words[j + 1] = b;
    words[j + 2] = c;
}

// "(v0, m0, m2), (m0, v1, m1), (m2, m1, v2), (m0, m1, m2)"
fn put_children(words: &mut [u32], j: usize, v0: u32, v1: u32, v2: u32, m0: u32, m1: u32, m2: u32)
    requires { j + 12 ≤ length words.old }
    ensures { words.new ≡ sets words.old j (four v0 v1 v2 m0 m1 m2) }
{
    put3(words, j, v0, m0, m2);
    put3(words, j + 3, m0, v1, m1);
    put3(words, j + 6, m2, m1, v2);
    put3(words, j + 9, m0, m1, m2);
}

// "Face f becomes 4f to 4f+3."
pub fn children(words: &mut [u32], at: usize, mids: usize, to: usize, nf: usize)
    requires room { (at + 3 * nf ≤ length words.old) × ((mids + 3 * nf ≤ length words.old) × (to + 12 * nf ≤ length words.old)) }
    requires apart { ((at + 3 * nf ≤ to) ⊎ (to + 12 * nf ≤ at)) × ((mids + 3 * nf ≤ to) ⊎ (to + 12 * nf ≤ mids)) }
    ensures { words.new ≡ sets words.old to (gather (children_by (part at (3 * nf) words.old) (part mids (3 * nf) words.old)) (count 0 nf)) }
{
    for f in 0..nf {
        let s = 3 * f;
        let v0 = words[at + s];
        let v1 = words[at + (s + 1)];
        let v2 = words[at + (s + 2)];
        let m0 = words[mids + s];
        let m1 = words[mids + (s + 1)];
        let m2 = words[mids + (s + 2)];
        put_children(words, to + 12 * f, v0, v1, v2, m0, m1, m2);
    }
}

// "An old vertex restarts at the child of its start face at that corner".
fn restarted(s: usize) -> usize
    requires { s < 4294967296 }
    ensures { result ≡ restart s }
{
    12 * (s / 3) + 4 * (s % 3)
}

// "an edge vertex at the fourth child of the face that first met it".
pub fn in_fourth(s: usize) -> usize
    requires { s < 4294967296 }
    ensures { result ≡ fourth s }
{
    12 * (s / 3) + 9 + s % 3
}

// The link words of the two halves of a side, from the link word w of the side across.
fn first_half(w: u32) -> u32
    requires { 4 * w + 12 < 4294967296 }
    ensures { result ≡ first_half w }
{
    if w == 0 {
        0
    } else {
        (restarted((w - 1) as usize) + 1) as u32
    }
}

fn second_half(w: u32) -> u32
    requires { 4 * w + 12 < 4294967296 }
    ensures { result ≡ second_half w }
{
    if w == 0 {
        0
    } else {
        (faces::sides::backward(restarted(faces::sides::onward((w - 1) as usize))) + 1) as u32
    }
}

// The link words a, b and c of the sides of face f become those of its children: a half lies across the other half of the side across, and inside the face the
// links are always the same.
fn put_links(words: &mut [u32], j: usize, f: usize, a: u32, b: u32, c: u32)
    requires room { j + 12 ≤ length words.old }
    requires small { (12 * f + 12 < 4294967296) × ((4 * a + 12 < 4294967296) × ((4 * b + 12 < 4294967296) × (4 * c + 12 < 4294967296))) }
    ensures { words.new ≡ sets words.old j (twelve_words f a b c) }
{
    let e = (12 * f) as u32;
    put3(words, j, second_half(a), e + 12, first_half(c));
    put3(words, j + 3, first_half(a), second_half(b), e + 10);
    put3(words, j + 6, e + 11, first_half(b), second_half(c));
    put3(words, j + 9, e + 6, e + 7, e + 2);
}

// The links of the refined face list, twelve to a face.
fn child_links(words: &mut [u32], links: usize, to: usize, nf: usize)
    requires room { (links + 3 * nf ≤ length words.old) × (to + 12 * nf ≤ length words.old) }
    requires apart { (links + 3 * nf ≤ to) ⊎ (to + 12 * nf ≤ links) }
    requires small { (12 * nf + 16 < 4294967296) × Below (part links (3 * nf) words.old) (3 * nf + 1) }
    ensures { words.new ≡ sets words.old to (gather (links_by (part links (3 * nf) words.old)) (count 0 nf)) }
{
    for f in 0..nf {
        let s = 3 * f;
        let a = words[links + s];
        let b = words[links + (s + 1)];
        let c = words[links + (s + 2)];
        put_links(words, to + 12 * f, f, a, b, c);
    }
}

// Old vertices keep their numbers, and restart.
pub fn old_starts(words: &mut [u32], starts: usize, to: usize, v: usize, sides: usize)
    requires room { (starts + v ≤ length words.old) × (to + v ≤ length words.old) }
    requires apart { (starts + v ≤ to) ⊎ (to + v ≤ starts) }
    requires small { (4 * sides + 12 < 4294967296) × Below (part starts v words.old) sides }
    ensures { words.new ≡ sets words.old to (map restart (part starts v words.old)) }
{
    for u in 0..v {
        let s = words[starts + u];
        words[to + u] = restarted(s as usize) as u32;
    }
}

// The vertices of the edges start where their edges are first met.
fn new_starts(words: &mut [u32], links: usize, to: usize, sides: usize)
    requires room { (links + sides ≤ length words.old) × (to + length (firsts (links_in words.old links sides)) ≤ length words.old) }
    requires apart { (links + sides ≤ to) ⊎ (to + length (firsts (links_in words.old links sides)) ≤ links) }
    requires small { 4 * sides + 12 < 4294967296 }
    ensures { words.new ≡ sets words.old to (map fourth (firsts (links_in words.old links sides))) }
{
    let mut k = 0;
    for s in 0..sides {
        let w = words[links + s];
        if first_met(w, s as u32) {
            words[to + k] = in_fourth(s) as u32;
            k += 1;
        }
    }
}

// One level of the words: the mesh at `at` is refined, and the refined one stands at `to` with its links and its start corners. Answers how many vertices are new.
pub fn refine_words(words: &mut [u32], at: usize, to: usize, nf: usize, nv: usize) -> usize
    requires { Ready words.old at to nf nv }
    ensures edges { result ≡ length (firsts (links (part at (3 * nf) words.old))) }
    ensures words { Grown words.old words.new at to nf nv }
{
    let sides = 3 * nf;
    let linked = at + 3 * nf;
    let starts = at + 6 * nf;
    let mids = at + 6 * nf + nv;
    let edges = number(words, linked, mids, sides, nv);
    children(words, at, mids, to, nf);
    child_links(words, linked, to + 12 * nf, nf);
    old_starts(words, starts, to + 24 * nf, nv, sides);
    new_starts(words, linked, to + 24 * nf + nv, sides);
    edges
}
