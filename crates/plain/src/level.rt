// One level of a mesh that stands in lent words without links: what lies across a side is looked up, each time it is asked. Crate `levels` has the children and
// the old start corners, which ask nothing of links.
ghost use Rattle.std.specs.Prelude.{◌≡◌, ◌⊎◌, ◌+◌, ◌*◌, ◌≤◌, ◌<◌, map, length};
ghost use Rattle.std.proofs.lemmas.List.Edits.{sets};
ghost use Rattle.lists.specs.Lists.{count, part};
ghost use Rattle.rules.specs.Mesh.{links, firsts, middle, fourth};
ghost use Rattle.levels.specs.Level.{Mutual};
ghost use Rattle.looks.specs.Looked.{Listed};
ghost use Rattle.plain.specs.Level.{Ready, Grown};

use levels::{children, counted, edge_number, first_met, in_fourth, old_starts};
use looks::across;

// The numbers of the edges: the next one where the side that runs back came no earlier, and else what that side was given. How many there are.
fn number(words: &mut [u32], at: usize, mids: usize, n: usize, v: usize) -> usize
    requires room { (at + n ≤ mids) × (mids + n ≤ length words.old) × Listed words.old at n }
    requires small { v + n < 4294967296 }
    requires mutual { Mutual (links (part at n words.old)) }
    ensures count { result ≡ length (firsts (links (part at n words.old))) }
    ensures numbers { words.new ≡ sets words.old mids (map (middle v (links (part at n words.old))) (count 0 n)) }
{
    let mut k = 0;
    for s in 0..n {
        let w = across(&words[..], at, n, s);
        let m = edge_number(&words[..], mids, w, s as u32, (v + k) as u32);
        words[mids + s] = m;
        k = counted(first_met(w, s as u32), k);
    }
    k
}

// The vertices of the edges start where their edges are first met.
fn new_starts(words: &mut [u32], at: usize, to: usize, n: usize)
    requires room { Listed words.old at n × (to + length (firsts (links (part at n words.old))) ≤ length words.old) }
    requires apart { (at + n ≤ to) ⊎ (to + length (firsts (links (part at n words.old))) ≤ at) }
    requires small { 4 * n + 12 < 4294967296 }
    ensures { words.new ≡ sets words.old to (map fourth (firsts (links (part at n words.old)))) }
{
    let mut k = 0;
    for s in 0..n {
        let w = across(&words[..], at, n, s);
        if first_met(w, s as u32) {
            words[to + k] = in_fourth(s) as u32;
            k += 1;
        }
    }
}

// The mesh at `at` is refined, and the refined one stands at `to` with its start corners; where its links would stand, nothing is written. How many vertices are new.
pub fn refine_words(words: &mut [u32], at: usize, to: usize, nf: usize, nv: usize) -> usize
    requires { Ready words.old at to nf nv }
    ensures edges { result ≡ length (firsts (links (part at (3 * nf) words.old))) }
    ensures words { Grown words.old words.new at to nf nv }
{
    let n = 3 * nf;
    let starts = at + 6 * nf;
    let mids = at + 6 * nf + nv;
    let edges = number(words, at, mids, n, nv);
    children(words, at, mids, to, nf);
    old_starts(words, starts, to + 24 * nf, nv, n);
    new_starts(words, at, to + 24 * nf + nv, n);
    edges
}
