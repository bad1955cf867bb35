// Plates made elsewhere: a claimed result is held to our faces, up to turning their corners round, and to the exact limits of the cage, within a tolerance.
#![tactic(auto)]

pub mod corners;
pub mod fractions;
pub mod near;

ghost use Rattle.std.specs.Prelude.{◌≡◌, ◌*◌, ◌≤◌, length};
ghost use Rattle.std.proofs.Math.Option.{none};
ghost use Rattle.rules.specs.Position.{whole};
ghost use Rattle.rules.specs.Levels.{last, exact_limits};
ghost use Rattle.rules.specs.Refusals.{refusal};
ghost use Rattle.rules.specs.Calls.{given, buffers, WholeCall};
ghost use Rattle.station.specs.Acceptance.{held, StationCall};

use rules::{Outcome, Refusal};

// What is wrong first: the counts; the corners of a face; a coordinate, with the least whole tolerance at which it would pass.
#[derive(Clone, Copy)]
pub enum Fault {
    Counts,
    Face(u32),
    Far(u32, u32),
}

#[derive(Clone, Copy)]
pub enum Verdict {
    Yes,
    No(Fault),
    Refused(Refusal),
}

// The claim, held to our faces and to the exact limits of the cage.
fn hold(
    levels: u32,
    t: u32,
    indices: &[u32],
    coords: &[i32],
    ours: &[u32],
    nf: usize,
    nv: usize,
    theirs: &[u32],
    ys: &[i32],
) -> Verdict
    requires cage { (refusal whole levels indices.now coords.now ≡ none) × (levels ≤ 1) }
    requires ours { (ours.now ≡ (last whole levels indices.now coords.now).mesh.faces) × ((length ours.now ≡ 3 * nf) × (nf ≤ 32768)) }
    requires count { (3 * nv ≡ length (exact_limits levels indices.now coords.now)) × (nv ≤ 32768) }
    ensures { result ≡ held t (last whole levels indices.now coords.now).mesh.faces (exact_limits levels indices.now coords.now) theirs.now ys.now }
{
    if theirs.len() != 3 * nf {
        return Verdict::No(Fault::Counts);
    }
    if ys.len() != 3 * nv {
        return Verdict::No(Fault::Counts);
    }
    let v = corners::wrong_face(ours, theirs, nf);
    if !near::passes(v) {
        return v;
    }
    near::far_cage(levels, t, indices, coords, ys)
}

fn refused(number: u32) -> Verdict
    ensures { result ≡ Verdict.Refused (record { number = number; place = 0 }) }
{
    Verdict::Refused(Refusal {
        number: number,
        place: 0,
    })
}

// The whole engine with no sharp edges: a claim has no marks.
fn smooth(
    levels: u32,
    indices: &[u32],
    coords: &[i32],
    positions: &mut [i32],
    out: &mut [u32],
    words: &mut [u32],
    work: &mut [i32],
) -> Outcome
    ensures { WholeCall levels (given indices) (given coords) (buffers positions out words work) result }
{
    loopsubdiv::loop_subdivide_whole(
        levels,
        indices,
        coords,
        &indices[..0],
        positions,
        out,
        words,
        work,
    )
}

// Is the claim within the tolerance of the exact limit, face by face ours? The buffers are lent and left as those of the whole call.
pub fn accept(
    levels: u32,
    tolerance: u32,
    indices: &[u32],
    coords: &[i32],
    theirs: &[u32],
    claimed: &[i32],
    positions: &mut [i32],
    out: &mut [u32],
    words: &mut [u32],
    work: &mut [i32],
) -> Verdict
    ensures { StationCall tolerance levels (given indices) (given coords) (given theirs) (given claimed) (buffers positions out words work) result }
{
    if levels > 7 {
        return refused(1);
    }
    if tolerance > 1000 {
        return refused(21);
    }
    if levels > 1 {
        return refused(21);
    }
    match smooth(levels, indices, coords, positions, out, words, work) {
        Err(x) => Verdict::Refused(x),
        Ok(c) => {
            let nf = c.faces as usize;
            let nv = c.vertices as usize;
            hold(
                levels,
                tolerance,
                indices,
                coords,
                &out[..3 * nf],
                nf,
                nv,
                theirs,
                claimed,
            )
        }
    }
}
