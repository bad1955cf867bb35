// The rim of a control cage: the rim side that leaves each vertex, the way along it, and where its loops begin.
ghost use Rattle.std.specs.Prelude.{◌≡◌, map, ◌+◌, ◌≤◌, ◌<◌, length, take};
ghost use Rattle.std.proofs.Math.Option.{some};
ghost use Rattle.lists.specs.Lists.{bit, count, tally};
ghost use Rattle.rules.specs.Mesh.{corner, links as links_of, onward, step_to};
ghost use Rattle.faces.specs.Words.{coded};
ghost use Rattle.cage.specs.Chains.{Faces, Below, Once};
ghost use Rattle.outlines.specs.Loops.{leaving as leaving_of, next_rim, around, begins};
ghost use Rattle.outlines.specs.Pieces.{Traceable, Leaving, Left, step_word, Painted, vertex_of, Marked, Firsts};

// Side s, if it is a rim side, is the one that leaves its vertex.
fn put_side(indices: &[u32], links: &[u32], s: usize, leaving: &mut [u32])
    requires sizes { Faces indices.now × Below (length leaving.old) indices.now × (s < length indices.now) }
    requires links { (length indices.now ≤ length links.now) × (take (length indices.now) links.now ≡ map coded (links_of indices.now)) }
    requires before { Leaving indices.now s leaving.old }
    ensures after { Leaving indices.now (s + 1) leaving.new × (length leaving.new ≡ length leaving.old) }
{
    if links[s] == 0 {
        let a = indices[s] as usize;
        leaving[a] = (s + 1) as u32;
    }
}

fn put_leaving(indices: &[u32], links: &[u32], v: usize, leaving: &mut [u32])
    requires cage { Faces indices.now × Below (length leaving.old) indices.now × Traceable v indices.now }
    requires links { (length indices.now ≤ length links.now) × (take (length indices.now) links.now ≡ map coded (links_of indices.now)) }
    requires empty { Leaving indices.now 0 leaving.old }
    ensures { Left indices.now leaving.new × (length leaving.new ≡ length leaving.old) }
{
    for s in 0..indices.len() {
        put_side(indices, links, s, leaving);
    }
}

fn put_links(indices: &[u32], links: &mut [u32])
    requires { Faces indices.now × Below 4096 indices.now × Once indices.now × (length indices.now ≤ length links.old) }
    ensures { take (length indices.now) links.new ≡ map coded (links_of indices.now) }
{
    let mut heads = [0u16; 4096];
    let mut nexts = [0u16; 12288];
    cage::sides::chain(indices, &mut heads, &mut nexts);
    cage::sides::put_links(indices, &heads, &nexts, links, 0);
}

// The rim side that leaves each vertex of an accepted cage. The links are given up before the call acts: they are the largest of its tables.
pub fn leaving_sides(indices: &[u32], v: usize, leaving: &mut [u32])
    requires cage { Faces indices.now × Below 4096 indices.now × Once indices.now × Traceable v indices.now }
    requires empty { (length leaving.old ≡ 4096) × Leaving indices.now 0 leaving.old }
    ensures { Left indices.now leaving.new × (length leaving.new ≡ length leaving.old) }
{
    let mut links = [0u32; 12288];
    put_links(indices, &mut links);
    put_leaving(indices, &links, v, leaving);
}

// One past the rim side after side t on the loop from side `first`; 0 where that is `first`.
pub fn next_word(indices: &[u32], leaving: &[u32], first: usize, t: usize) -> u32
    requires { Faces indices.now × Below (length leaving.now) indices.now × Left indices.now leaving.now × (t < length indices.now) × (first < length indices.now) }
    ensures { result ≡ step_word (step_to first (next_rim indices.now (links_of indices.now) t)) }
{
    let w = leaving[indices[faces::sides::onward(t)] as usize];
    if w as usize == first + 1 { 0 } else { w }
}

// Mark k at each vertex of the loop from side `first`.
fn mark_loop(indices: &[u32], leaving: &[u32], v: usize, first: usize, k: u32, marks: &mut [u32])
    requires cage { Faces indices.now × Below (length leaving.now) indices.now × Traceable v indices.now × Left indices.now leaving.now }
    requires first { (first < length indices.now) × (leaving_of indices.now (links_of indices.now) (corner indices.now first) ≡ some first) }
    requires room { v ≤ length marks.old }
    ensures { Painted (vertex_of indices.now first) (length (around indices.now (links_of indices.now) first)) k marks.new marks.old }
{
    let mut n = 0usize;
    let mut w = (first + 1) as u32;
    // Stays: the rim leads from side to side; n, of which the invariant speaks, says how many.
    while w > 0 {
        let t = (w - 1) as usize;
        let a = indices[t] as usize;
        marks[a] = k;
        w = next_word(indices, leaving, first, t);
        n += 1;
    }
}

// 1 where a loop begins at vertex u, and then its vertices are marked.
fn mark_at(indices: &[u32], leaving: &[u32], v: usize, u: usize, marks: &mut [u32]) -> u32
    requires cage { Faces indices.now × Below (length leaving.now) indices.now × Traceable v indices.now × Left indices.now leaving.now }
    requires vertex { (u < v) × (v ≤ 4096) × (v ≤ length leaving.now) }
    requires marks { Marked v indices.now u marks.old }
    ensures begins { result ≡ bit (begins indices.now (links_of indices.now) u) }
    ensures marks { Marked v indices.now (u + 1) marks.new × (length marks.new ≡ length marks.old) }
{
    let w = leaving[u];
    if w == 0 {
        return 0;
    }
    if marks[u] != 0 {
        return 0;
    }
    mark_loop(indices, leaving, v, (w - 1) as usize, (u + 1) as u32, marks);
    1
}

// How many loops there are, and marks that tell where they begin.
pub fn mark_loops(indices: &[u32], leaving: &[u32], v: usize, marks: &mut [u32]) -> u32
    requires cage { Faces indices.now × Below (length leaving.now) indices.now × Traceable v indices.now × Left indices.now leaving.now }
    requires few { (v ≤ 4096) × (v ≤ length leaving.now) }
    requires marks { Marked v indices.now 0 marks.old }
    ensures loops { result ≡ tally (begins indices.now (links_of indices.now)) (count 0 v) }
    ensures marks { Firsts v indices.now marks.new × (length marks.new ≡ length marks.old) }
{
    let mut loops = 0;
    for u in 0..v {
        loops += mark_at(indices, leaving, v, u, marks);
    }
    loops
}
