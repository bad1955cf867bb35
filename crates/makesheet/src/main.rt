// `makesheet`: bare lists from standard input; their sheet to standard output, or the refusal to standard error and nothing to standard output.
#![tactic(auto)]

ghost use Rattle.std.specs.Prelude.{◌≡◌, ◌+◌, ◌*◌, ◌≤◌, length, drop};
ghost use Rattle.rules.specs.Sheets.{words_of, coords_of};
ghost use Rattle.rules.specs.Calls.{given, lent};
ghost use Rattle.writer.specs.Writing.{WriteCall};
ghost use Rattle.makesheet.specs.Lists.{refused_by, MakeCall};

use rules::Refusal;

fn refused(number: u32) -> Result<u32, Refusal>
    ensures { result ≡ refused_by number }
{
    Err(Refusal {
        number: number,
        place: 0,
    })
}

// The lists are within local arrays once check 3 has passed.
fn lists(bytes: &[u8], nc: usize, ni: usize, levels: u32, out: &mut [u8]) -> Result<u32, Refusal>
    requires { (nc ≤ 12288) × (ni ≤ 12288) × (length bytes.now ≡ 12 + 4 * nc + 4 * ni) }
    ensures { WriteCall levels (words_of (drop (12 + 4 * nc) (given bytes)) ni) (coords_of (drop 12 (given bytes)) nc) (lent out) result }
{
    let mut coords = [0i32; 12288];
    reader::numbers_from(&bytes[12..], nc, &mut coords);
    let mut corners = [0u32; 12288];
    let at = 12 + 4 * nc;
    reader::numbers_from(&bytes[at..], ni, &mut corners);
    writer::write_sheet(levels, &corners[..ni], &coords[..nc], out)
}

// 16, 15, then the writer on the lists.
fn made(bytes: &[u8], out: &mut [u8]) -> Result<u32, Refusal>
    ensures { MakeCall (given bytes) (lent out) result }
{
    let n = bytes.len();
    if n > 98316 {
        return refused(16);
    }
    if n < 12 {
        return refused(15);
    }
    let levels = reader::word_at(bytes, 0);
    let nc = reader::word_at(bytes, 4) as usize;
    let ni = reader::word_at(bytes, 8) as usize;
    if n != 12 + 4 * nc + 4 * ni {
        return refused(15);
    }
    limits::shape(levels, ni, nc)?;
    lists(bytes, nc, ni, levels, out)
}

fn main() {
    let mut input = [0u8; 98317];
    let n = listing::input(&mut input);
    let mut out = [0u8; 98324];
    match made(&input[..n], &mut out) {
        Ok(k) => listing::output(
            &out[..k as usize],
            b"makesheet: the sheet could not be written whole. Do not cut from it.\n",
        ),
        Err(r) => listing::complain_of(r),
    }
}
