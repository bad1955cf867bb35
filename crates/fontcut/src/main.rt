// `fontcut`: a font's sheets from standard input, their number and lengths before them; the listing or the refusal of each in turn to standard output.
#![tactic(auto)]

ghost use Rattle.std.specs.Prelude.{◌≡◌, ◌+◌, ◌*◌, ◌≤◌, length, get_or};
ghost use Rattle.rules.specs.Calls.{given};
ghost use Rattle.listing.specs.Text.{Put};
ghost use Rattle.fontcut.specs.Output.{slot_text, slot_texts, sums, batch_text, font_text};

use rules::{Counts, Refusal};

// One slot: the plate where its number is 0, else the refusal.
fn slot(five: &[u32], positions: &[i32], indices: &[u32], text: &mut [u8]) -> usize
    requires { (5 ≤ length five.now) × (3 * get_or five.now 2 0 ≤ length positions.now) × (3 * get_or five.now 3 0 ≤ length indices.now) × (68 + 68 * get_or five.now 2 0 + 65 * get_or five.now 3 0 ≤ length text.old) }
    ensures put { Put text.old 0 (slot_text (given five) (given positions) (given indices)) text.new result }
    ensures upper_bound { result ≤ length text.old }
{
    let number = five[0];
    if number != 0 {
        return listing::refused_text(
            text,
            Refusal {
                number: number,
                place: five[1],
            },
        );
    }
    listing::mesh_text(
        text,
        Counts {
            vertices: five[2],
            faces: five[3],
            rims: five[4],
        },
        positions,
        indices,
    )
}

// n slots, each over the output that follows the previous one.
fn slots(answers: &[u32], n: usize, positions: &[i32], indices: &[u32], text: &mut [u8]) -> usize
    requires { (5 * n ≤ length answers.now) × (sums 2 n answers.now ≤ length positions.now) × (sums 3 n answers.now ≤ length indices.now) × (204 * n + 68 * length positions.now + 65 * length indices.now ≤ 3 * length text.old) }
    ensures put { Put text.old 0 (slot_texts n (given answers) (given positions) (given indices)) text.new result }
    ensures upper_bound { result ≤ length text.old }
{
    let mut at = 0;
    let mut p = 0;
    let mut q = 0;
    for k in 0..n {
        let s = 5 * k;
        let v = answers[s + 2] as usize;
        let f = answers[s + 3] as usize;
        let e = p + 3 * v;
        let g = q + 3 * f;
        let end = at + 68 + 68 * v + 65 * f;
        let put = slot(
            &answers[s..],
            &positions[p..e],
            &indices[q..g],
            &mut text[at..end],
        );
        at = at + put;
        p = e;
        q = g;
    }
    at
}

// Room for 4,096 faces and 4,096 vertices in all is lent; the text of 64 sheets with as many is at most 68 * 64 + 68 * 4096 + 65 * 4096 bytes.
fn batch(bytes: &[u8], lengths: &[u32], text: &mut [u8]) -> usize
    requires { 549120 ≤ length text.old }
    ensures put { Put text.old 0 (batch_text (given bytes) (given lengths)) text.new result }
    ensures upper_bound { result ≤ length text.old }
{
    let mut positions = [0i32; 12288];
    let mut indices = [0u32; 12288];
    let mut words = [0u32; 98304];
    let mut work = [0i32; 24576];
    let mut answers = [0u32; 320];
    let number = alphabet::subdivide_sheets(
        bytes,
        lengths,
        &mut positions,
        &mut indices,
        &mut words,
        &mut work,
        &mut answers,
    );
    if number != 0 {
        return listing::refused_by(text, number);
    }
    slots(&answers, lengths.len(), &positions, &indices, text)
}

// 16, then 19 where the input has no room for what it counts, then the sheets.
fn cut(input: &[u8], text: &mut [u8]) -> usize
    requires { 549120 ≤ length text.old }
    ensures put { Put text.old 0 (font_text (given input)) text.new result }
    ensures upper_bound { result ≤ length text.old }
{
    let n = input.len();
    if n > 262144 {
        return listing::refused_by(text, 16);
    }
    if n < 4 {
        return listing::refused_by(text, 19);
    }
    let sheets = reader::word_at(input, 0) as usize;
    if sheets > 64 {
        return listing::refused_by(text, 19);
    }
    let start = 4 + 4 * sheets;
    if n < start {
        return listing::refused_by(text, 19);
    }
    let mut lengths = [0u32; 64];
    reader::numbers_from(&input[4..], sheets, &mut lengths);
    batch(&input[start..], &lengths[..sheets], text)
}

fn main() {
    let mut input = [0u8; 262145];
    let n = listing::input(&mut input);
    let mut text = [0u8; 549120];
    let k = cut(&input[..n], &mut text);
    listing::output(
        &text[..k],
        b"fontcut: the listings could not be written whole. Do not cast from them.\n",
    );
}
