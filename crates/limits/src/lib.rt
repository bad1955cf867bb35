// docs/RULES.md, Answers: checks 1 to 6 and 13. The limits of what is given, the corners of each face, and the counts after the levels: none follows a link.
#![tactic(auto)]

ghost use Rattle.std.specs.Prelude.{◌≡◌, ◌≤◌, length, Err};
ghost use Rattle.rules.specs.Position.{numbers_of};
ghost use Rattle.rules.specs.Refusals.{shape_refusal, range_refusal};
ghost use Rattle.limits.specs.Verdicts.{verdict_of};

use rules::Refusal;
use rules::numbers::Number;

pub mod list;
pub mod size;

// What a check answers: nothing, or the refusal.
pub type Check = Result<(), Refusal>;

pub fn no(number: u32, place: u32) -> Check
    ensures { result ≡ Err (record { number = number; place = place }) }
{
    Err(Refusal {
        number: number,
        place: place,
    })
}

// 1, 2, 3: the levels and the lengths of the two lists.
pub fn shape(levels: u32, indices: usize, coords: usize) -> Check
    ensures { result ≡ verdict_of (shape_refusal levels indices coords) }
{
    if levels > 7 {
        return no(1, 0);
    }
    if indices % 3 != 0 {
        return no(2, 0);
    }
    if coords % 3 != 0 {
        return no(2, 1);
    }
    if indices / 3 > 4096 {
        return no(3, 0);
    }
    if coords / 3 > 4096 {
        return no(3, 1);
    }
    Ok(())
}

// 4
pub fn range<N: Number>(coords: &[N]) -> Check
    requires { length coords.now ≤ 12288 }
    ensures { result ≡ verdict_of (range_refusal (numbers_of N.on) coords.now) }
{
    for (i, x) in coords.iter().enumerate() {
        if !x.allowed() {
            return no(4, i as u32);
        }
    }
    Ok(())
}
