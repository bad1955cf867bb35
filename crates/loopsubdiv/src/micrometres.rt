// The whole engine, once the checks are passed: `engine` at i32. No level of an accepted cage leaves the range, so the run asks nothing of coordinates either.
ghost use Rattle.std.specs.Prelude.{◌≡◌, ◌*◌, ◌≤◌, length, pos};
ghost use Rattle.std.proofs.lemmas.List.Edits.{sets};
ghost use Rattle.lists.specs.Lists.{part, cleared};
ghost use Rattle.rules.specs.Mesh.{links};
ghost use Rattle.rules.specs.Position.{whole};
ghost use Rattle.rules.specs.Levels.{limits, last};
ghost use Rattle.rules.specs.Levels.{positions as positions_of};
ghost use Rattle.rules.specs.Sound.{AllNear};
ghost use Rattle.levels.specs.Level.{mesh_in};
ghost use Rattle.levels.specs.Moves.{Movable};
ghost use Rattle.room.specs.Held.{half_of, third_of, Planned};

use crate::engine;

pub fn limit(words: &[u32], at: usize, nf: usize, nv: usize, xs: &[i32], out: &mut [i32])
    requires mesh { Movable words.now at nf nv }
    requires coords { (3 * nv ≤ length xs.now) × AllNear xs.now }
    requires room { 3 * nv ≤ length out.old }
    ensures { out.new ≡ sets out.old 0 (limits whole (mesh_in words.now at nf nv) (links (part at (3 * nf) words.now)) xs.now) }
{
    engine::limit(words, at, nf, nv, xs, out);
}

// All of it: level 0, the levels, the limit, and the work buffers cleared.
pub fn run(
    levels: u32,
    indices: &[u32],
    coords: &[i32],
    nf: usize,
    nv: usize,
    positions: &mut [i32],
    out: &mut [u32],
    words: &mut [u32],
    work: &mut [i32],
)
    requires planned { Planned whole levels indices.now coords.now nf nv }
    requires room { (2 * half_of nf nv ≤ length words.old) × ((2 * third_of nv ≤ length work.old) × ((3 * nv ≤ length positions.old) × (3 * nf ≤ length out.old))) }
    ensures positions { positions.new ≡ sets positions.old 0 (positions_of whole (last whole levels indices.now coords.now)) }
    ensures out { out.new ≡ sets out.old 0 (last whole levels indices.now coords.now).mesh.faces }
    ensures words { words.new ≡ cleared 0 (2 * half_of nf nv) words.old }
    ensures work { work.new ≡ cleared (pos 0) (2 * third_of nv) work.old }
{
    engine::run(levels, indices, coords, nf, nv, positions, out, words, work);
}
