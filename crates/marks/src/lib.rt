// The marks of sharp edges in lent words: one word to a face, bit k the mark of its side k. Read, set from a list of sides, and carried from level to level.
#![tactic(auto)]

ghost use Rattle.std.specs.Prelude.{◌≡◌, ◌⊎◌, ◌+◌, ◌*◌, ◌/◌, ◌%◌, ◌≤◌, ◌<◌, length, get_or, set};
ghost use Rattle.std.proofs.lemmas.List.Edits.{sets};
ghost use Rattle.lists.specs.Lists.{count, gather, part};
ghost use Rattle.faces.specs.Words.{links_in};
ghost use Rattle.marks.specs.Marks.{mark_of, four_marks, marks_from, with_bit, Marking, Listable};

// Bit k of the word x.
fn has_bit(x: u32, k: usize) -> bool
    ensures { result ≡ mark_of x k }
{
    match k {
        0 => x % 2 == 1,
        1 => x / 2 % 2 == 1,
        _ => x / 4 % 2 == 1,
    }
}

// The mark of side s: bit s % 3 of the word of its face, of those that stand from `marks` on.
pub fn mark(words: &[u32], marks: usize, s: usize) -> bool
    requires { marks + s / 3 < length words.now }
    ensures { result ≡ mark_of (get_or words.now (marks + s / 3) 0) (s % 3) }
{
    has_bit(words[marks + s / 3], s % 3)
}

// The words of the marks of a face's four children, from its own word x.
fn put_marks(words: &mut [u32], j: usize, x: u32)
    requires { j + 4 ≤ length words.old }
    ensures { words.new ≡ sets words.old j (four_marks x) }
{
    words[j] = x % 2 + 4 * (x / 4);
    words[j + 1] = x % 4;
    words[j + 2] = 2 * (x / 2);
    words[j + 3] = 0;
}

// "its two halves are sharp; sides inside a parent face are smooth": the marks of the refined mesh, at `to`, from those at `from`.
pub fn refine_marks(words: &mut [u32], from: usize, to: usize, nf: usize)
    requires room { (from + nf ≤ length words.old) × (to + 4 * nf ≤ length words.old) }
    requires apart { (from + nf ≤ to) ⊎ (to + 4 * nf ≤ from) }
    ensures { words.new ≡ sets words.old to (gather (marks_from (part from nf words.old)) (count 0 nf)) }
{
    for f in 0..nf {
        let x = words[from + f];
        put_marks(words, to + 4 * f, x);
    }
}

// The word x with bit k set.
fn with_bit(x: u32, k: usize) -> u32
    requires { k < 3 }
    ensures { result ≡ with_bit x k }
{
    if has_bit(x, k) {
        return x;
    }
    match k {
        0 => x + 1,
        1 => x + 2,
        _ => x + 4,
    }
}

// Side s is sharp, from now on.
pub fn set_mark(words: &mut [u32], marks: usize, s: usize)
    requires { marks + s / 3 < length words.old }
    ensures { words.new ≡ set words.old (marks + s / 3) (with_bit (get_or words.old (marks + s / 3) 0) (s % 3)) }
{
    let j = marks + s / 3;
    let x = words[j];
    words[j] = with_bit(x, s % 3);
}

// The listed sides, on both faces, where none is marked yet.
pub fn mark_words(sharp: &[u32], words: &mut [u32], links: usize, marks: usize, nf: usize)
    requires { Listable words.old links marks nf sharp.now }
    ensures { Marking words.old (links_in words.old links (3 * nf)) marks nf sharp.now words.new }
{
    for &side in sharp {
        let s = side as usize;
        let t = words[links + s] as usize;
        set_mark(words, marks, s);
        set_mark(words, marks, t - 1);
    }
}
