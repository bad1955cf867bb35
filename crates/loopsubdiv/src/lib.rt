// The Loop smoother of pbrt-rust's `src/shapes/loopsubdiv.rs`, with checks and numbered refusals in place of panics: the public calls. Judge, then act: no lent buffer
// is touched before the outcome is known.
#![tactic(auto)]

ghost use Rattle.std.specs.Prelude.{◌≡◌, ◌+◌, ◌*◌, ◌≤◌, length, pos, Ok};
ghost use Rattle.std.proofs.lemmas.List.Edits.{sets};
ghost use Rattle.lists.specs.Lists.{cleared};
ghost use Rattle.rules.specs.Position.{whole, single};
ghost use Rattle.rules.specs.Levels.{last};
ghost use Rattle.rules.specs.Answers.{outcome, whole_rooms, single_rooms};
ghost use Rattle.rules.specs.Sharp.{sharp_last, sharp_positions, sharp_outcome};
ghost use Rattle.rules.specs.Calls.{given, lent, buffers, SharpCall, SingleCall};
ghost use Rattle.room.specs.Held.{half_of, third_of, Planned};
ghost use Rattle.sharp.specs.Marked.{Listed};

use rules::{Counts, Outcome};

mod engine;
pub mod micrometres;
pub mod points;

// The outcome of a call on buffers of these lengths: nothing is written for it.
pub fn judge_whole(
    levels: u32,
    indices: &[u32],
    coords: &[i32],
    sharp: &[u32],
    positions: usize,
    out: usize,
    words: usize,
    work: usize,
) -> Outcome
    ensures { result ≡ sharp_outcome whole (whole_rooms positions out words work) levels (given sharp) (given indices) (given coords) }
{
    let c = cage::judge_sharp(levels, indices, coords, sharp)?;
    room::whole_room(c, positions, out, words, work)
}

// The run with marks, or that without where no side is listed.
fn act(
    levels: u32,
    indices: &[u32],
    coords: &[i32],
    sharp: &[u32],
    nf: usize,
    nv: usize,
    positions: &mut [i32],
    out: &mut [u32],
    words: &mut [u32],
    work: &mut [i32],
)
    requires planned { Planned whole levels indices.now coords.now nf nv × Listed levels sharp.now indices.now coords.now }
    requires room { (2 * half_of nf nv ≤ length words.old) × ((2 * third_of nv ≤ length work.old) × ((3 * nv ≤ length positions.old) × (3 * nf ≤ length out.old))) }
    ensures positions { positions.new ≡ sets positions.old 0 (sharp_positions whole (sharp_last whole levels sharp.now indices.now coords.now)) }
    ensures out { out.new ≡ sets out.old 0 (last whole levels indices.now coords.now).mesh.faces }
    ensures words { words.new ≡ cleared 0 (2 * half_of nf nv) words.old }
    ensures work { work.new ≡ cleared (pos 0) (2 * third_of nv) work.old }
{
    if sharp.len() == 0 {
        micrometres::run(levels, indices, coords, nf, nv, positions, out, words, work);
        return;
    }
    sharp::run(
        levels, indices, coords, sharp, nf, nv, positions, out, words, work,
    );
}

// The acting half of the whole call, once its outcome is known.
pub fn act_whole(
    c: Counts,
    levels: u32,
    indices: &[u32],
    coords: &[i32],
    sharp: &[u32],
    positions: &mut [i32],
    out: &mut [u32],
    words: &mut [u32],
    work: &mut [i32],
)
    requires { sharp_outcome whole (whole_rooms (length positions.old) (length out.old) (length words.old) (length work.old)) levels sharp.now indices.now coords.now ≡ Ok c }
    ensures { SharpCall levels (given sharp) (given indices) (given coords) (buffers positions out words work) (Ok c) }
{
    let nf = c.faces as usize;
    let nv = c.vertices as usize;
    act(
        levels, indices, coords, sharp, nf, nv, positions, out, words, work,
    );
}

// Whole micrometres, with the edges of the listed sides (3 face + side) sharp. Lent at the final F and V: positions 3V, out 3F, words 16F+8V, work 6V.
pub fn loop_subdivide_whole(
    levels: u32,
    indices: &[u32],
    coords: &[i32],
    sharp: &[u32],
    positions: &mut [i32],
    out: &mut [u32],
    words: &mut [u32],
    work: &mut [i32],
) -> Outcome
    ensures { SharpCall levels (given sharp) (given indices) (given coords) (buffers positions out words work) result }
{
    let c = judge_whole(
        levels,
        indices,
        coords,
        sharp,
        positions.len(),
        out.len(),
        words.len(),
        work.len(),
    )?;
    act_whole(
        c, levels, indices, coords, sharp, positions, out, words, work,
    );
    Ok(c)
}

fn judge_single(
    levels: u32,
    indices: &[u32],
    coords: &[f32],
    positions: usize,
    normals: usize,
    out: usize,
    words: usize,
    work: usize,
) -> Outcome
    ensures { result ≡ outcome single (single_rooms positions normals out words work) levels indices.now coords.now }
{
    let c = cage::judge(levels, indices, coords)?;
    room::single_room(c, positions, normals, out, words, work)
}

// f32, with normals, as the Rust. Lent at the final F and V: positions 3V, normals 3V, out 3F, words 16F+8V, work 6V.
pub fn loop_subdivide(
    levels: u32,
    indices: &[u32],
    coords: &[f32],
    positions: &mut [f32],
    normals: &mut [f32],
    out: &mut [u32],
    words: &mut [u32],
    work: &mut [f32],
) -> Outcome
    ensures { SingleCall levels (given indices) (given coords) (buffers positions out words work) (lent normals) result }
{
    let c = judge_single(
        levels,
        indices,
        coords,
        positions.len(),
        normals.len(),
        out.len(),
        words.len(),
        work.len(),
    )?;
    let nf = c.faces as usize;
    let nv = c.vertices as usize;
    points::run(
        levels, indices, coords, nf, nv, positions, normals, out, words, work,
    );
    Ok(c)
}
