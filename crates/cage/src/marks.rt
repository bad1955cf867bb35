// Check 18: the list of sharp sides, against the link words.
ghost use Rattle.std.specs.Prelude.{◌≡◌, min};
ghost use Rattle.lists.specs.Lists.{find};
ghost use Rattle.rules.specs.Mesh.{links};
ghost use Rattle.rules.specs.Sharp.{unlinked, told};
ghost use Rattle.rules.specs.Refusals.{check};
ghost use Rattle.limits.specs.Verdicts.{verdict_of};
ghost use Rattle.cage.specs.Fans.{Linked};

use limits::{Check, no};

// A place has 32 bits and the list has no limit: an index past the largest is told as the largest.
pub fn place(i: usize) -> u32
    ensures { result ≡ min i 4294967295 }
{
    u32::try_from(i).unwrap_or(u32::MAX)
}

// "not below 3F, or on the rim"
fn loose(indices: &[u32], words: &[u32], s: u32) -> bool
    requires { Linked indices.now words.now }
    ensures { result ≡ unlinked (links indices.now) s }
{
    let k = s as usize;
    k >= indices.len() || words[k] == 0
}

// 18
pub fn marks(sharp: &[u32], indices: &[u32], words: &[u32]) -> Check
    requires { Linked indices.now words.now }
    ensures { result ≡ verdict_of (check 18 (told (find (unlinked (links indices.now)) sharp.now))) }
{
    for (i, &s) in sharp.iter().enumerate() {
        if loose(indices, words, s) {
            return no(18, place(i));
        }
    }
    Ok(())
}
