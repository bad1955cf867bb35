// Crate `cage` for C (tests/checks.c): five numbers (docs/RULES.md, Answers), refusal number or 0, place, vertices, faces, rim sides.
#![tactic(auto)]

ghost use Rattle.std.specs.Prelude.{◌≡◌, Ok};
ghost use Rattle.rules.specs.Position.{whole, single};
ghost use Rattle.rules.specs.Levels.{last};
ghost use Rattle.rules.specs.Refusals.{refusal};
ghost use Rattle.rules.specs.Answers.{answer, counted, unless};

use rules::Outcome;

#[unsafe(no_mangle)]
pub extern "C" fn cage_judge_whole(
    levels: u32,
    indices: &[u32],
    coords: &[i32],
    told: &mut [u32; 5],
)
    ensures { told.new ≡ answer (unless (refusal whole levels indices.now coords.now) (Ok (counted (last whole levels indices.now coords.now).mesh))) }
{
    rules::tell(cage::judge(levels, indices, coords), told);
}

#[unsafe(no_mangle)]
pub extern "C" fn cage_judge_single(
    levels: u32,
    indices: &[u32],
    coords: &[f32],
    told: &mut [u32; 5],
)
    ensures { told.new ≡ answer (unless (refusal single levels indices.now coords.now) (Ok (counted (last single levels indices.now coords.now).mesh))) }
{
    rules::tell(cage::judge(levels, indices, coords), told);
}
