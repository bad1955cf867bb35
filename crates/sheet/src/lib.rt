// The whole engine on a sheet of any length: 01, "Sheets and limits".
#![tactic(auto)]

ghost use Rattle.std.specs.Prelude.{◌≡◌, ◌≤◌};
ghost use Rattle.reader.specs.Reading.{sheet_of};
ghost use Rattle.rules.specs.Calls.{given, buffers, SharpCall, WholeCall, SheetCall};

use reader::{Sheet, face_block, numbers_from, read_sheet, vertex_block};
use rules::{Outcome, Refusal};

// The engine that runs: the one that keeps links between faces, or the plain one, which looks through the face list. Both promise the same.
pub trait Engine {
    fn loop_subdivide(
        levels: u32,
        indices: &[u32],
        coords: &[i32],
        sharp: &[u32],
        positions: &mut [i32],
        out: &mut [u32],
        words: &mut [u32],
        work: &mut [i32],
    ) -> Outcome
        ensures { SharpCall levels (given sharp) (given indices) (given coords) (buffers positions out words work) result };
}

#[derive(Clone, Copy)]
pub struct Linked;

#[derive(Clone, Copy)]
pub struct Plain;

impl Engine for Linked {
    fn loop_subdivide(
        levels: u32,
        indices: &[u32],
        coords: &[i32],
        sharp: &[u32],
        positions: &mut [i32],
        out: &mut [u32],
        words: &mut [u32],
        work: &mut [i32],
    ) -> Outcome {
        loopsubdiv::loop_subdivide_whole(
            levels, indices, coords, sharp, positions, out, words, work,
        )
    }
}

impl Engine for Plain {
    fn loop_subdivide(
        levels: u32,
        indices: &[u32],
        coords: &[i32],
        sharp: &[u32],
        positions: &mut [i32],
        out: &mut [u32],
        words: &mut [u32],
        work: &mut [i32],
    ) -> Outcome {
        plain::loop_subdivide_plain(levels, indices, coords, sharp, positions, out, words, work)
    }
}

// The whole engine with no sharp edges: a sheet has no marks.
fn smooth<E: Engine>(
    levels: u32,
    indices: &[u32],
    coords: &[i32],
    positions: &mut [i32],
    out: &mut [u32],
    words: &mut [u32],
    work: &mut [i32],
) -> Outcome
    ensures { WholeCall levels (given indices) (given coords) (buffers positions out words work) result }
{
    let none = &indices[..0];
    E::loop_subdivide(levels, indices, coords, none, positions, out, words, work)
}

// The whole engine on the lists of a sheet, which checks 1 and 3 keep within local arrays. They stand in a frame of their own, which a refusal does not make.
#[inline(never)]
fn subdivide_lists<E: Engine>(
    bytes: &[u8],
    sheet: Sheet,
    positions: &mut [i32],
    out: &mut [u32],
    words: &mut [u32],
    work: &mut [i32],
) -> Outcome
    requires { (sheet.vertices ≤ 4096) × ((sheet.faces ≤ 4096) × (sheet_of bytes.now ≡ Some sheet)) }
    ensures { SheetCall (given bytes) (buffers positions out words work) result }
{
    let nc = 3 * sheet.vertices as usize;
    let mut coords = [0i32; 12288];
    numbers_from(vertex_block(bytes), nc, &mut coords);
    let nw = 3 * sheet.faces as usize;
    let mut indices = [0u32; 12288];
    numbers_from(face_block(bytes), nw, &mut indices);
    smooth::<E>(
        sheet.levels,
        &indices[..nw],
        &coords[..nc],
        positions,
        out,
        words,
        work,
    )
}

// Either engine on a sheet of any length. 15, 1 and 3 need the trailer alone; 2 cannot occur.
pub fn subdivide_by<E: Engine>(
    bytes: &[u8],
    positions: &mut [i32],
    out: &mut [u32],
    words: &mut [u32],
    work: &mut [i32],
) -> Outcome
    ensures { SheetCall (given bytes) (buffers positions out words work) result }
{
    let Some(sheet) = read_sheet(bytes) else {
        return Err(Refusal {
            number: 15,
            place: 0,
        });
    };
    let nv = sheet.vertices as usize;
    let nf = sheet.faces as usize;
    limits::shape(sheet.levels, 3 * nf, 3 * nv)?;
    subdivide_lists::<E>(bytes, sheet, positions, out, words, work)
}

// The linked engine on a sheet.
pub fn subdivide_sheet(
    bytes: &[u8],
    positions: &mut [i32],
    out: &mut [u32],
    words: &mut [u32],
    work: &mut [i32],
) -> Outcome
    ensures { SheetCall (given bytes) (buffers positions out words work) result }
{
    subdivide_by::<Linked>(bytes, positions, out, words, work)
}

// The plain engine on a sheet.
pub fn subdivide_sheet_plain(
    bytes: &[u8],
    positions: &mut [i32],
    out: &mut [u32],
    words: &mut [u32],
    work: &mut [i32],
) -> Outcome
    ensures { SheetCall (given bytes) (buffers positions out words work) result }
{
    subdivide_by::<Plain>(bytes, positions, out, words, work)
}
