// The sheet writer: a sheet from bare lists, once checks 1 to 12 have nothing against them.
#![tactic(auto)]

ghost use Rattle.std.specs.Prelude.{◌≡◌, ◌+◌, ◌*◌, ◌/◌, ◌≤◌, [], ◌∷◌, map, length};
ghost use Rattle.std.proofs.lemmas.List.Edits.{sets};
ghost use Rattle.lists.specs.Lists.{gather};
ghost use Rattle.rules.specs.Position.{whole};
ghost use Rattle.rules.specs.Refusals.{mesh_refusal};
ghost use Rattle.rules.specs.Sheets.{bytes_of, sheet_bytes};
ghost use Rattle.limits.specs.Verdicts.{verdict_of};
ghost use Rattle.rules.specs.Calls.{given, lent};
ghost use Rattle.writer.specs.Writing.{WriteCall};

use limits::Check;
use reader::Number;
use rules::{Outcome, Refusal};

// 1 to 12. Where no level is made check 13 asks for nothing, so the whole judgement at level 0 does.
fn checked_whole(levels: u32, indices: &[u32], coords: &[i32]) -> Check
    ensures { result ≡ verdict_of (mesh_refusal whole levels indices.now coords.now) }
{
    limits::shape(levels, indices.len(), coords.len())?;
    cage::judge(0, indices, coords)?;
    Ok(())
}

// Little endian.
fn put_word(bytes: &mut [u8], at: usize, w: u32)
    requires { at + 4 ≤ length bytes.old }
    ensures { bytes.new ≡ sets bytes.old at (bytes_of w) }
{
    bytes[at..at + 4].copy_from_slice(&w.to_le_bytes());
}

fn put_numbers<N: Number>(bytes: &mut [u8], at: usize, xs: &[N])
    requires { at + 4 * length xs.now ≤ length bytes.old }
    ensures { bytes.new ≡ sets bytes.old at (gather bytes_of (map N.word xs.now)) }
{
    for (k, x) in xs.iter().enumerate() {
        put_word(bytes, at + 4 * k, x.word());
    }
}

// The trailer: vertex offset, V, face offset, F, levels.
fn put_trailer(bytes: &mut [u8], at: usize, v: u32, f: u32, levels: u32)
    requires { (at + 20 ≤ length bytes.old) × (v ≤ 4096) }
    ensures { bytes.new ≡ sets bytes.old at (gather bytes_of (0 ∷ v ∷ 12 * v ∷ f ∷ levels ∷ [])) }
{
    let t = [0, v, 12 * v, f, levels];
    put_numbers(bytes, at, &t);
}

// The blocks and the trailer, of lists that fit.
fn put_sheet(levels: u32, indices: &[u32], coords: &[i32], bytes: &mut [u8])
    requires { (length indices.now ≤ 12288) × (length coords.now ≤ 12288) × (4 * length coords.now + 4 * length indices.now + 20 ≤ length bytes.old) }
    ensures { bytes.new ≡ sets bytes.old 0 (sheet_bytes levels indices.now coords.now) }
{
    let a = 4 * coords.len();
    let b = a + 4 * indices.len();
    put_numbers(bytes, 0, coords);
    put_numbers(bytes, a, indices);
    put_trailer(
        bytes,
        b,
        (coords.len() / 3) as u32,
        (indices.len() / 3) as u32,
        levels,
    );
}

// A sheet at the front of the lent bytes, so many bytes long; or the refusal: 1 to 12, then 17 where the buffer is short.
pub fn write_sheet(
    levels: u32,
    indices: &[u32],
    coords: &[i32],
    bytes: &mut [u8],
) -> Result<u32, Refusal>
    ensures { WriteCall levels (given indices) (given coords) (lent bytes) result }
{
    checked_whole(levels, indices, coords)?;
    let n = 4 * coords.len() + 4 * indices.len() + 20;
    if bytes.len() < n {
        return Err(Refusal {
            number: 17,
            place: 0,
        });
    }
    put_sheet(levels, indices, coords, bytes);
    Ok(n as u32)
}
