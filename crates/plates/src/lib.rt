// For C (plates.h): the public calls over numbers and slices, with numbers for the answer: a mesh's five, the writer's three, one for a batch, four for outlines, six for a claim, three and four for OBJ text. Each promises all that the call below it does.
#![tactic(auto)]

ghost use Rattle.std.specs.Prelude.{◌≡◌};
ghost use Rattle.rules.specs.Calls.{given, lent, buffers, SharpCall, SingleCall, SheetCall, Told};
ghost use Rattle.writer.specs.Writing.{written_answer, WriteTold};
ghost use Rattle.alphabet.specs.Sheets.{SheetsCall};
ghost use Rattle.outlines.specs.Loops.{traced_answer, OutlineTold};
ghost use Rattle.obj.specs.Calls.{text_answer, TextTold, lists_answer, ListsTold};
ghost use Rattle.station.specs.Acceptance.{plate, StationTold};
ghost use Rattle.station.specs.Acceptance.{answer as verdict_answer};

use obj::Lists;
use outlines::Traced;
use rules::Refusal;
use station::{Fault, Verdict};

#[unsafe(no_mangle)]
pub extern "C" fn plates_loop_subdivide_whole(
    levels: u32,
    indices: &[u32],
    coords: &[i32],
    sharp: &[u32],
    positions: &mut [i32],
    out: &mut [u32],
    words: &mut [u32],
    work: &mut [i32],
    told: &mut [u32; 5],
)
    ensures { Told (SharpCall levels (given sharp) (given indices) (given coords) (buffers positions out words work)) told.new }
{
    rules::tell(
        loopsubdiv::loop_subdivide_whole(
            levels, indices, coords, sharp, positions, out, words, work,
        ),
        told,
    );
}

// The same by the plain engine, which keeps no links between faces.
#[unsafe(no_mangle)]
pub extern "C" fn plates_loop_subdivide_plain(
    levels: u32,
    indices: &[u32],
    coords: &[i32],
    sharp: &[u32],
    positions: &mut [i32],
    out: &mut [u32],
    words: &mut [u32],
    work: &mut [i32],
    told: &mut [u32; 5],
)
    ensures { Told (SharpCall levels (given sharp) (given indices) (given coords) (buffers positions out words work)) told.new }
{
    rules::tell(
        plain::loop_subdivide_plain(levels, indices, coords, sharp, positions, out, words, work),
        told,
    );
}

// In f32, with normals.
#[unsafe(no_mangle)]
pub extern "C" fn plates_loop_subdivide(
    levels: u32,
    indices: &[u32],
    coords: &[f32],
    positions: &mut [f32],
    normals: &mut [f32],
    out: &mut [u32],
    words: &mut [u32],
    work: &mut [f32],
    told: &mut [u32; 5],
)
    ensures { Told (SingleCall levels (given indices) (given coords) (buffers positions out words work) (lent normals)) told.new }
{
    rules::tell(
        loopsubdiv::loop_subdivide(
            levels, indices, coords, positions, normals, out, words, work,
        ),
        told,
    );
}

// The whole engine on a sheet of any length.
#[unsafe(no_mangle)]
pub extern "C" fn plates_subdivide_sheet(
    bytes: &[u8],
    positions: &mut [i32],
    out: &mut [u32],
    words: &mut [u32],
    work: &mut [i32],
    told: &mut [u32; 5],
)
    ensures { Told (SheetCall (given bytes) (buffers positions out words work)) told.new }
{
    rules::tell(
        sheet::subdivide_sheet(bytes, positions, out, words, work),
        told,
    );
}

// Of a sheet or a text: how many bytes it has, or the refusal.
fn tell_length(answer: Result<u32, Refusal>, told: &mut [u32; 3])
    ensures sheet { told.new ≡ written_answer answer }
    ensures text { told.new ≡ text_answer answer }
{
    match answer {
        Ok(n) => {
            *told = [0, 0, n];
        }
        Err(r) => {
            let n = r.number;
            let p = r.place;
            *told = [n, p, 0];
        }
    }
}

// A sheet from bare lists: refusal number or 0, place, length in bytes.
#[unsafe(no_mangle)]
pub extern "C" fn plates_write_sheet(
    levels: u32,
    indices: &[u32],
    coords: &[i32],
    bytes: &mut [u8],
    told: &mut [u32; 3],
)
    ensures { WriteTold levels (given indices) (given coords) (lent bytes) told.new }
{
    tell_length(writer::write_sheet(levels, indices, coords, bytes), told);
}

// Up to 64 sheets laid end to end, five numbers for each.
#[unsafe(no_mangle)]
pub extern "C" fn plates_subdivide_sheets(
    bytes: &[u8],
    lengths: &[u32],
    positions: &mut [i32],
    out: &mut [u32],
    words: &mut [u32],
    work: &mut [i32],
    answers: &mut [u32],
) -> u32
    ensures { SheetsCall (given bytes) (given lengths) (buffers positions out words work) (lent answers) result }
{
    alphabet::subdivide_sheets(bytes, lengths, positions, out, words, work, answers)
}

fn tell_loops(t: Traced, told: &mut [u32; 4])
    ensures { told.new ≡ traced_answer t }
{
    match t {
        Ok(o) => {
            let n = o.loops;
            let v = o.listed;
            *told = [0, 0, n, v];
        }
        Err(r) => {
            let n = r.number;
            let p = r.place;
            *told = [n, p, 0, 0];
        }
    }
}

// The whole call, and the rim of its last level as loops: refusal number or 0, place, loops, vertices listed.
#[unsafe(no_mangle)]
pub extern "C" fn plates_rim_loops(
    levels: u32,
    indices: &[u32],
    coords: &[i32],
    positions: &mut [i32],
    out: &mut [u32],
    words: &mut [u32],
    work: &mut [i32],
    list: &mut [u32],
    told: &mut [u32; 4],
)
    ensures { OutlineTold levels (given indices) (given coords) (buffers positions out words work) (lent list) told.new }
{
    tell_loops(
        outlines::rim_loops(levels, indices, coords, positions, out, words, work, list),
        told,
    );
}

fn tell_no(f: Fault, told: &mut [u32; 6])
    ensures { told.new ≡ verdict_answer (Verdict.No f) }
{
    match f {
        Fault::Counts => {
            *told = [0, 0, 0, 1, 0, 0];
        }
        Fault::Face(n) => {
            *told = [0, 0, 0, 2, n, 0];
        }
        Fault::Far(i, k) => {
            *told = [0, 0, 0, 3, i, k];
        }
    }
}

fn tell_verdict(v: Verdict, told: &mut [u32; 6])
    ensures { told.new ≡ verdict_answer v }
{
    match v {
        Verdict::Yes => {
            *told = [0, 0, 1, 0, 0, 0];
        }
        Verdict::No(f) => {
            tell_no(f, told);
        }
        Verdict::Refused(r) => {
            let n = r.number;
            let p = r.place;
            *told = [n, p, 0, 0, 0, 0];
        }
    }
}

// A plate made elsewhere: refusal number or 0, place, 1 for yes, what is wrong first, where, and the tolerance that it needs.
#[unsafe(no_mangle)]
pub extern "C" fn plates_accept(
    levels: u32,
    tolerance: u32,
    indices: &[u32],
    coords: &[i32],
    theirs: &[u32],
    claimed: &[i32],
    positions: &mut [i32],
    out: &mut [u32],
    words: &mut [u32],
    work: &mut [i32],
    told: &mut [u32; 6],
)
    ensures { StationTold tolerance levels (plate indices coords) (plate theirs claimed) (buffers positions out words work) told.new }
{
    tell_verdict(
        station::accept(
            levels, tolerance, indices, coords, theirs, claimed, positions, out, words, work,
        ),
        told,
    );
}

// A mesh as OBJ text: refusal number or 0, place, length in bytes.
#[unsafe(no_mangle)]
pub extern "C" fn plates_write_obj(
    coords: &[i32],
    corners: &[u32],
    text: &mut [u8],
    told: &mut [u32; 3],
)
    ensures { TextTold (given coords) (given corners) (lent text) told.new }
{
    tell_length(obj::write_obj(coords, corners, text), told);
}

fn tell_lists(answer: Result<Lists, Refusal>, told: &mut [u32; 4])
    ensures { told.new ≡ lists_answer answer }
{
    match answer {
        Ok(l) => {
            let v = l.vertices;
            let f = l.faces;
            *told = [0, 0, v, f];
        }
        Err(r) => {
            let number = r.number;
            let place = r.place;
            *told = [number, place, 0, 0];
        }
    }
}

// OBJ text as a mesh: refusal number or 0, place, vertices, faces.
#[unsafe(no_mangle)]
pub extern "C" fn plates_read_obj(
    text: &[u8],
    coords: &mut [i32],
    corners: &mut [u32],
    told: &mut [u32; 4],
)
    ensures { ListsTold (given text) (lent coords) (lent corners) told.new }
{
    tell_lists(obj::read_obj(text, coords, corners), told);
}
