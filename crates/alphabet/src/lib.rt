// A whole alphabet at once: sheets laid end to end, each done in the room that the sheets before it left.
#![tactic(auto)]

ghost use Rattle.std.specs.Prelude.{◌≡◌, ◌+◌, ◌*◌, ◌≤◌, ◌<◌, length};
ghost use Rattle.std.proofs.lemmas.List.Edits.{sets};
ghost use Rattle.rules.specs.Answers.{answer};
ghost use Rattle.rules.specs.Calls.{given, lent, buffers};
ghost use Rattle.alphabet.specs.Sheets.{One, Left, SheetsCall, all_of, cut, total, nothing, wrong};

use rules::Outcome;

// One sheet, in the room past p positions and q indices.
fn one(
    bytes: &[u8],
    positions: &mut [i32],
    p: usize,
    out: &mut [u32],
    q: usize,
    words: &mut [u32],
    work: &mut [i32],
) -> Outcome
    requires { (p ≤ length positions.old) × (q ≤ length out.old) }
    ensures { One (buffers positions out words work) p q (given bytes) result }
{
    sheet::subdivide_sheet(bytes, &mut positions[p..], &mut out[q..], words, work)
}

// An answer's five numbers, into the slot that starts at `at`.
fn tell(o: Outcome, slots: &mut [u32], at: usize)
    requires { at + 5 ≤ length slots.old }
    ensures { slots.new ≡ sets slots.old at (answer o) }
{
    let mut told = [0u32; 5];
    rules::tell(o, &mut told);
    for k in 0..5 {
        slots[at + k] = told[k];
    }
}

// Sheet after sheet: where its bytes begin, and how much room the sheets before it took.
fn run(
    bytes: &[u8],
    lengths: &[u32],
    positions: &mut [i32],
    out: &mut [u32],
    words: &mut [u32],
    work: &mut [i32],
    slots: &mut [u32],
)
    requires { (total lengths.now ≡ length bytes.now) × (5 * length lengths.now ≤ length slots.old) }
    ensures { Left (all_of (nothing (buffers positions out words work).old) (cut (given lengths) (given bytes))) (buffers positions out words work) (lent slots) }
{
    let mut at = 0;
    let mut p = 0;
    let mut q = 0;
    for (i, &n) in lengths.iter().enumerate() {
        let end = at + n as usize;
        let o = one(&bytes[at..end], positions, p, out, q, words, work);
        tell(o, slots, 5 * i);
        if let Ok(c) = o {
            p += 3 * c.vertices as usize;
            q += 3 * c.faces as usize;
        }
        at = end;
    }
}

// The lengths together, in 64 bits, where the sum of 64 cannot wrap.
fn added(lengths: &[u32]) -> u64
    requires { length lengths.now ≤ 64 }
    ensures { result ≡ total (given lengths) }
{
    let mut sum = 0;
    for &n in lengths {
        sum += n as u64;
    }
    sum
}

// 19, from the lengths alone: no sheet is read.
fn refused(bytes: usize, lengths: &[u32], entries: usize) -> bool
    ensures { result ≡ wrong bytes (given lengths) entries }
{
    if lengths.len() > 64 {
        return true;
    }
    if added(lengths) != bytes as u64 {
        return true;
    }
    entries < 5 * lengths.len()
}

// Up to 64 sheets laid end to end: 19 and nothing written, or 0 and five numbers for each sheet. A refused sheet takes no room.
pub fn subdivide_sheets(
    bytes: &[u8],
    lengths: &[u32],
    positions: &mut [i32],
    out: &mut [u32],
    words: &mut [u32],
    work: &mut [i32],
    answers: &mut [u32],
) -> u32
    ensures { SheetsCall (given bytes) (given lengths) (buffers positions out words work) (lent answers) result }
{
    // Stays: the number is what `SheetsCall` says and plates.h hands out; the theorems over it speak of 19 and 0.
    if refused(bytes.len(), lengths, answers.len()) {
        return 19;
    }
    run(bytes, lengths, positions, out, words, work, answers);
    0
}
