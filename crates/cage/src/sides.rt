// Sides by the vertex they leave: a head for each vertex, and from each side the one before it. The checks, which meet vertices of any number of faces, find the side across by marks: at
// each vertex in turn the sides that leave it write their numbers where they end, and those that come to it read there. Of a cage that passed them it is sought along the chain.
ghost use Rattle.std.specs.Prelude.{◌≡◌, ◌+◌, ◌-◌, ◌≤◌, ◌<◌, map, length, take};
ghost use Rattle.std.proofs.lemmas.List.Edits.{sets};
ghost use Rattle.lists.specs.Lists.{lowest};
ghost use Rattle.rules.specs.Mesh.{onward, corner, sides, links};
ghost use Rattle.rules.specs.Refusals.{used_before};
ghost use Rattle.faces.specs.Words.{coded};
ghost use Rattle.cage.specs.Chains.{last_below, leaves, runs, Faces, Below, Once, Heads, Chained, fresh_mark, lower_of, Marked, Met, Repeat, Least, Coming, before};
ghost use Rattle.cage.specs.Fans.{place_of};

// Where side s ends.
pub fn end_of(indices: &[u32], s: usize) -> u32
    requires { Faces indices.now × (s < length indices.now) }
    ensures { result ≡ corner indices.now (onward s) }
{
    indices[faces::sides::onward(s)]
}

// Of the sides that leave a vertex, heads holds one past the last; of each side, nexts holds one past the one before it at its vertex. 0 is none.
pub fn chain(indices: &[u32], heads: &mut [u16], nexts: &mut [u16])
    requires sizes { Faces indices.now × Below (length heads.old) indices.now }
    requires empty { Heads indices.now 0 heads.old × Chained indices.now 0 nexts.old }
    ensures heads { Heads indices.now (length indices.now) heads.new }
    ensures nexts { Chained indices.now (length indices.now) nexts.new }
{
    for (s, &u) in indices.iter().enumerate() {
        let a = u as usize;
        nexts[s] = heads[a];
        heads[a] = (s + 1) as u16;
    }
}

// A mark as vertex u takes it: one past a side that leaves u. One that a side of another vertex left is stale, and stands for none.
fn fresh(indices: &[u32], m: u16, u: u32) -> u16
    requires { m ≤ length indices.now }
    ensures { result ≡ fresh_mark indices.now u m }
{
    if m == 0 {
        return 0;
    }
    if indices[(m - 1) as usize] == u { m } else { 0 }
}

// The lower of `low` and the side that a mark m stands for, if that is a later one than the side before h.
fn lower(low: u32, m: u16, h: u16) -> u32
    ensures { result ≡ lower_of low m h }
{
    if m > h { low.min((m - 1) as u32) } else { low }
}

// Along the chain of vertex u: each side leaves a mark at its end. Where it meets one of u, that is of a later side, which so is used before; the lowest of
// these and of `low`.
fn mark(indices: &[u32], nexts: &[u16], head: u16, u: u32, marks: &mut [u16], low: u32) -> u32
    requires sizes { Faces indices.now × Below (length marks.old) indices.now }
    requires chain { Chained indices.now (length indices.now) nexts.now × (head ≡ last_below (leaves indices.now u) (length indices.now)) }
    requires marks { Marked indices.now marks.old × Repeat indices.now low }
    ensures marks { Marked indices.now marks.new × Met indices.now u 0 marks.new }
    ensures low { (result ≤ low) × Repeat indices.now result × Least indices.now u 0 result }
{
    let mut seen = low;
    let mut h = head;
    // Stays: a walk along a chain, whose next side stands in `nexts`, counts no index.
    while h > 0 {
        let s = (h - 1) as usize;
        let b = end_of(indices, s) as usize;
        let m = fresh(indices, marks[b], u);
        seen = lower(seen, m, h);
        marks[b] = h;
        h = nexts[s];
    }
    seen
}

// Along the same chain: each side that comes to u finds the side across it by the mark where it starts.
fn put_coming(
    indices: &[u32],
    nexts: &[u16],
    head: u16,
    u: u32,
    marks: &[u16],
    words: &mut [u32],
    at: usize,
)
    requires sizes { Faces indices.now × Below (length marks.now) indices.now × (at + length indices.now ≤ length words.old) }
    requires chain { Chained indices.now (length indices.now) nexts.now × (head ≡ last_below (leaves indices.now u) (length indices.now)) }
    requires marks { Marked indices.now marks.now × Met indices.now u 0 marks.now }
    ensures { Coming indices.now at u 0 words.old words.new }
{
    let mut h = head;
    // Stays: a walk along a chain, as in `mark`.
    while h > 0 {
        let s = (h - 1) as usize;
        let t = faces::sides::backward(s);
        let a = indices[t] as usize;
        let m = fresh(indices, marks[a], u);
        words[at + t] = m as u32;
        h = nexts[s];
    }
}

// Both at vertex u.
fn put_vertex(
    indices: &[u32],
    nexts: &[u16],
    head: u16,
    u: u32,
    marks: &mut [u16],
    words: &mut [u32],
    at: usize,
    low: u32,
) -> u32
    requires sizes { Faces indices.now × Below (length marks.old) indices.now × (at + length indices.now ≤ length words.old) }
    requires chain { Chained indices.now (length indices.now) nexts.now × (head ≡ last_below (leaves indices.now u) (length indices.now)) }
    requires marks { Marked indices.now marks.old × Repeat indices.now low }
    ensures marks { Marked indices.now marks.new }
    ensures words { Coming indices.now at u 0 words.old words.new }
    ensures low { (result ≤ low) × Repeat indices.now result × Least indices.now u 0 result }
{
    let r = mark(indices, nexts, head, u, marks, low);
    put_coming(indices, nexts, head, u, marks, words, at);
    r
}

// At each vertex, which is taken at the first side that leaves it.
fn put_vertices(
    indices: &[u32],
    heads: &[u16],
    nexts: &[u16],
    marks: &mut [u16],
    words: &mut [u32],
    at: usize,
) -> Option<u32>
    requires sizes { Faces indices.now × Below (length heads.now) indices.now × Below (length marks.old) indices.now × (at + length indices.now ≤ length words.old) }
    requires chains { Heads indices.now (length indices.now) heads.now × Chained indices.now (length indices.now) nexts.now }
    requires marks { Marked indices.now marks.old }
    ensures used { result ≡ place_of (lowest (used_before (sides indices.now)) (length indices.now)) }
    ensures links { Once indices.now → words.new ≡ sets words.old at (map coded (links indices.now)) }
{
    // Stays: the lowest so far begins past every side, so that `lower` has one comparison for none and for some.
    let mut low = indices.len() as u32;
    for (s, &u) in indices.iter().enumerate() {
        if nexts[s] == 0 {
            low = put_vertex(indices, nexts, heads[u as usize], u, marks, words, at, low);
        }
    }
    if low < indices.len() as u32 {
        Some(low)
    } else {
        None
    }
}

// The link word of each side; and of the sides that are used before the lowest. No side is sought, so a vertex of many faces costs no more for each of them.
pub fn link(
    indices: &[u32],
    heads: &[u16],
    nexts: &[u16],
    words: &mut [u32],
    at: usize,
) -> Option<u32>
    requires sizes { Faces indices.now × Below (length heads.now) indices.now × Below 4096 indices.now × (at + length indices.now ≤ length words.old) }
    requires chains { Heads indices.now (length indices.now) heads.now × Chained indices.now (length indices.now) nexts.now }
    ensures used { result ≡ place_of (lowest (used_before (sides indices.now)) (length indices.now)) }
    ensures links { Once indices.now → words.new ≡ sets words.old at (map coded (links indices.now)) }
{
    let mut marks = [0u16; 4096];
    put_vertices(indices, heads, nexts, &mut marks, words, at)
}

// Along a chain from `head` on: one past the last side that ends at b, or 0.
fn seek(indices: &[u32], nexts: &[u16], head: u16, b: u32) -> u32
    requires sizes { Faces indices.now × (head ≤ length indices.now) }
    requires nexts { Chained indices.now (length indices.now) nexts.now }
    ensures { result ≡ last_below (runs indices.now (corner indices.now (head - 1)) b) head }
{
    let mut h = head;
    // Stays: a walk along a chain, as in `mark`.
    while h > 0 {
        let k = (h - 1) as usize;
        if end_of(indices, k) == b {
            return h as u32;
        }
        h = nexts[k];
    }
    0
}

// The link word of each side of a cage that passed the checks: along the chain of the sides that leave its end, the one that comes back. A vertex has few sides then, so no marks are
// needed, whose table would stand in the frames of all who load a cage.
pub fn put_links(indices: &[u32], heads: &[u16], nexts: &[u16], words: &mut [u32], at: usize)
    requires sizes { Faces indices.now × Below (length heads.now) indices.now × (at + length indices.now ≤ length words.old) }
    requires chains { Heads indices.now (length indices.now) heads.now × Chained indices.now (length indices.now) nexts.now }
    requires once { Once indices.now }
    ensures { words.new ≡ sets words.old at (map coded (links indices.now)) }
{
    for (s, &a) in indices.iter().enumerate() {
        let b = end_of(indices, s) as usize;
        let t = seek(indices, nexts, heads[b], a);
        words[at + s] = t;
    }
}

// The side at that place of a chain.
// Stays: where the chain is empty it is 0, since `last_corner` is 0 for a vertex that no side leaves, and `link_words` says so of every cage.
pub fn side_of(h: u16) -> u32
    ensures { result ≡ before h }
{
    u32::from(h.saturating_sub(1))
}

// A vertex starts at the last corner in the list that is it.
pub fn put_starts(heads: &[u16], v: usize, words: &mut [u32], at: usize)
    requires { (v ≤ length heads.now) × (at + v ≤ length words.old) }
    ensures { words.new ≡ sets words.old at (map before (take v heads.now)) }
{
    for u in 0..v {
        let s = side_of(heads[u]);
        words[at + u] = s;
    }
}
