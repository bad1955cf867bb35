// The rim loops of a final mesh, for the router, on top of the whole engine. Judge, then act: no lent buffer is touched before the outcome is known, the list's room included.
#![tactic(auto)]

ghost use Rattle.std.specs.Prelude.{◌≡◌, ◌/◌, ◌≤◌, length, Ok};
ghost use Rattle.std.proofs.lemmas.List.Edits.{sets};
ghost use Rattle.rules.specs.Position.{whole};
ghost use Rattle.rules.specs.Answers.{outcome, whole_rooms};
ghost use Rattle.rules.specs.Calls.{given, lent, buffers, WholeCall};
ghost use Rattle.outlines.specs.Loops.{listing, loops_of, OutlineCall};
ghost use Rattle.outlines.specs.Pieces.{Left, Firsts};

use rules::{Counts, Refusal};

mod list;
mod pieces;
mod rim;

// How many loops, and how many vertices in all of them.
#[derive(Clone, Copy)]
pub struct Outline {
    pub loops: u32,
    pub listed: u32,
}

pub type Traced = Result<Outline, Refusal>;

// The whole call acts, and the loops of what it wrote go into the list.
fn write(
    c: Counts,
    levels: u32,
    indices: &[u32],
    coords: &[i32],
    positions: &mut [i32],
    out: &mut [u32],
    words: &mut [u32],
    work: &mut [i32],
    leaving: &[u32],
    marks: &[u32],
    list: &mut [u32],
)
    requires success { outcome whole (whole_rooms (length positions.old) (length out.old) (length words.old) (length work.old)) levels indices.now coords.now ≡ Ok c }
    requires tables { (length leaving.now ≡ 4096) × (length marks.now ≡ 4096) × Left indices.now leaving.now × Firsts (length coords.now / 3) indices.now marks.now }
    requires room { length (listing (loops_of levels indices.now coords.now)) ≤ length list.old }
    ensures call { WholeCall levels (given indices) (given coords) (buffers positions out words work) (Ok c) }
    ensures list { list.new ≡ sets list.old 0 (listing (loops_of levels (given indices) (given coords))) }
{
    let all = 1 << levels;
    let n = 3 * (c.faces as usize);
    loopsubdiv::act_whole(
        c,
        levels,
        indices,
        coords,
        &indices[..0],
        positions,
        out,
        words,
        work,
    );
    list::put_loops(
        levels,
        all,
        indices,
        leaving,
        marks,
        coords.len() / 3,
        &out[..n],
        list,
    );
}

// A cage that the whole call accepts, with its table of leaving sides: 20, or all of it.
fn finish(
    c: Counts,
    levels: u32,
    indices: &[u32],
    coords: &[i32],
    positions: &mut [i32],
    out: &mut [u32],
    words: &mut [u32],
    work: &mut [i32],
    leaving: &[u32],
    list: &mut [u32],
) -> Traced
    requires success { outcome whole (whole_rooms (length positions.old) (length out.old) (length words.old) (length work.old)) levels indices.now coords.now ≡ Ok c }
    requires leaving { (length leaving.now ≡ 4096) × Left indices.now leaving.now }
    ensures { OutlineCall levels (given indices) (given coords) (buffers positions out words work) (lent list) result }
{
    let mut marks = [0u32; 4096];
    let rims = c.rims;
    let loops = rim::mark_loops(indices, leaving, coords.len() / 3, &mut marks);
    if list.len() < (rims + loops) as usize {
        return Err(Refusal {
            number: 20,
            place: 0,
        });
    }
    write(
        c, levels, indices, coords, positions, out, words, work, leaving, &marks, list,
    );
    Ok(Outline {
        loops,
        listed: rims,
    })
}

fn trace(
    c: Counts,
    levels: u32,
    indices: &[u32],
    coords: &[i32],
    positions: &mut [i32],
    out: &mut [u32],
    words: &mut [u32],
    work: &mut [i32],
    list: &mut [u32],
) -> Traced
    requires { outcome whole (whole_rooms (length positions.old) (length out.old) (length words.old) (length work.old)) levels indices.now coords.now ≡ Ok c }
    ensures { OutlineCall levels (given indices) (given coords) (buffers positions out words work) (lent list) result }
{
    let mut leaving = [0u32; 4096];
    rim::leaving_sides(indices, coords.len() / 3, &mut leaving);
    finish(
        c, levels, indices, coords, positions, out, words, work, &leaving, list,
    )
}

// The whole call, and after it the loops of the last level: each loop's length, then its vertices from the lowest on along the rim.
pub fn rim_loops(
    levels: u32,
    indices: &[u32],
    coords: &[i32],
    positions: &mut [i32],
    out: &mut [u32],
    words: &mut [u32],
    work: &mut [i32],
    list: &mut [u32],
) -> Traced
    ensures { OutlineCall levels (given indices) (given coords) (buffers positions out words work) (lent list) result }
{
    let c = loopsubdiv::judge_whole(
        levels,
        indices,
        coords,
        &indices[..0],
        positions.len(),
        out.len(),
        words.len(),
        work.len(),
    )?;
    trace(
        c, levels, indices, coords, positions, out, words, work, list,
    )
}
