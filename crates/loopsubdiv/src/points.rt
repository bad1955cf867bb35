// The f32 engine, once the checks are passed: `engine` at f32, which asks nothing of coordinates, and the normals.
ghost use Rattle.std.specs.Prelude.{◌≡◌, ◌*◌, ◌≤◌, length};
ghost use Rattle.std.proofs.lemmas.List.Edits.{sets};
ghost use Rattle.lists.specs.Lists.{part, cleared};
ghost use Rattle.rules.specs.Mesh.{links};
ghost use Rattle.rules.specs.Position.{single, f32};
ghost use Rattle.rules.specs.Levels.{limits, last};
ghost use Rattle.rules.specs.Levels.{positions as positions_of};
ghost use Rattle.rules.specs.Tangents.{normals as normals_of};
ghost use Rattle.levels.specs.Level.{mesh_in};
ghost use Rattle.levels.specs.Moves.{Movable};
ghost use Rattle.room.specs.Held.{half_of, third_of, Planned};

use crate::engine;

pub fn limit(words: &[u32], at: usize, nf: usize, nv: usize, xs: &[f32], out: &mut [f32])
    requires mesh { Movable words.now at nf nv }
    requires coords { 3 * nv ≤ length xs.now }
    requires room { 3 * nv ≤ length out.old }
    ensures { out.new ≡ sets out.old 0 (limits single (mesh_in words.now at nf nv) (links (part at (3 * nf) words.now)) xs.now) }
{
    engine::limit(words, at, nf, nv, xs, out);
}

// All of it: what the last level gives, and the normals from that, before the work buffers are cleared.
pub fn run(
    levels: u32,
    indices: &[u32],
    coords: &[f32],
    nf: usize,
    nv: usize,
    positions: &mut [f32],
    normals: &mut [f32],
    out: &mut [u32],
    words: &mut [u32],
    work: &mut [f32],
)
    requires planned { Planned single levels indices.now coords.now nf nv }
    requires room { (2 * half_of nf nv ≤ length words.old) × ((2 * third_of nv ≤ length work.old) × ((3 * nv ≤ length positions.old) × ((3 * nv ≤ length normals.old) × (3 * nf ≤ length out.old)))) }
    ensures positions { positions.new ≡ sets positions.old 0 (positions_of single (last single levels indices.now coords.now)) }
    ensures normals { normals.new ≡ sets normals.old 0 (normals_of (last single levels indices.now coords.now)) }
    ensures out { out.new ≡ sets out.old 0 (last single levels indices.now coords.now).mesh.faces }
    ensures words { words.new ≡ cleared 0 (2 * half_of nf nv) words.old }
    ensures work { work.new ≡ cleared (f32 0) (2 * third_of nv) work.old }
{
    engine::work_out(levels, indices, coords, nf, nv, positions, out, words, work);
    let at = room::start(levels, 8 * nf + 4 * nv);
    let third = 3 * nv;
    tangents::normals(&words[..], at, nf, nv as u32, &positions[0..third], normals);
    engine::clear(nf, nv, words, work);
}
