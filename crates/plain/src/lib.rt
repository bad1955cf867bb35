// A second engine for whole micrometres, which keeps no links: what lies across a side, a vertex's fan and an edge's number are found by looking through the face list,
// each time they are asked. Its promise is that of `loop_subdivide_whole`, word for word.
#![tactic(auto)]

ghost use Rattle.std.specs.Prelude.{◌≡◌};
ghost use Rattle.rules.specs.Position.{whole};
ghost use Rattle.rules.specs.Answers.{whole_rooms};
ghost use Rattle.rules.specs.Sharp.{sharp_outcome};
ghost use Rattle.rules.specs.Calls.{given, buffers, SharpCall};

use rules::Outcome;

pub mod engine;
pub mod level;
pub mod points;

// The outcome of a call on buffers of these lengths, by the checks that look: nothing is written for it.
fn judge_room(
    levels: u32,
    indices: &[u32],
    coords: &[i32],
    sharp: &[u32],
    positions: usize,
    out: usize,
    words: usize,
    work: usize,
) -> Outcome
    ensures { result ≡ sharp_outcome whole (whole_rooms positions out words work) levels sharp.now indices.now coords.now }
{
    let c = scans::judge(levels, indices, coords, sharp)?;
    room::whole_room(c, positions, out, words, work)
}

// Whole micrometres, with the edges of the listed sides (3 face + side) sharp. Lent at the final F and V: positions 3V, out 3F, words 16F+8V, work 6V.
pub fn loop_subdivide_plain(
    levels: u32,
    indices: &[u32],
    coords: &[i32],
    sharp: &[u32],
    positions: &mut [i32],
    out: &mut [u32],
    words: &mut [u32],
    work: &mut [i32],
) -> Outcome
    ensures { SharpCall levels (given sharp) (given indices) (given coords) (buffers positions out words work) result }
{
    let c = judge_room(
        levels,
        indices,
        coords,
        sharp,
        positions.len(),
        out.len(),
        words.len(),
        work.len(),
    )?;
    let nf = c.faces as usize;
    let nv = c.vertices as usize;
    engine::run(
        levels, indices, coords, sharp, nf, nv, positions, out, words, work,
    );
    Ok(c)
}
