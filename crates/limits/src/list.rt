// Checks 5 and 6: the corners of each face by itself.
ghost use Rattle.std.specs.Prelude.{◌≡◌, ◌+◌, ◌*◌, ◌/◌, ◌%◌, ◌≤◌, ◌<◌, length, leb};
ghost use Rattle.lists.specs.Lists.{find, lowest};
ghost use Rattle.rules.specs.Refusals.{check, equal_corners};
ghost use Rattle.limits.specs.Verdicts.{verdict_of};

use super::{Check, no};

// 5
pub fn beyond(indices: &[u32], v: u32) -> Check
    requires { length indices.now ≤ 12288 }
    ensures { result ≡ verdict_of (check 5 (find (λ u. leb v u) indices.now)) }
{
    for (i, &u) in indices.iter().enumerate() {
        if u >= v {
            return no(5, i as u32);
        }
    }
    Ok(())
}

fn equal_corners(indices: &[u32], f: usize) -> bool
    requires { (3 * f + 2 < length indices.now) × (length indices.now ≤ 12288) }
    ensures { result ≡ equal_corners indices.now f }
{
    let a = indices[3 * f];
    let b = indices[3 * f + 1];
    let c = indices[3 * f + 2];
    a == b || b == c || c == a
}

// 6
pub fn flat(indices: &[u32]) -> Check
    requires { (length indices.now % 3 ≡ 0) × (length indices.now ≤ 12288) }
    ensures { result ≡ verdict_of (check 6 (lowest (equal_corners indices.now) (length indices.now / 3))) }
{
    for f in 0..indices.len() / 3 {
        if equal_corners(indices, f) {
            return no(6, f as u32);
        }
    }
    Ok(())
}
