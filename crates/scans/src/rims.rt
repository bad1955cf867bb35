// Check 18, and what check 13 counts: sides with no side across.
ghost use Rattle.std.specs.Prelude.{◌≡◌, not, ◌<◌, length, get_or};
ghost use Rattle.std.proofs.Math.Option.{none};
ghost use Rattle.lists.specs.Lists.{find, found};
ghost use Rattle.rules.specs.Mesh.{links, rims};
ghost use Rattle.rules.specs.Sharp.{unlinked, told};
ghost use Rattle.rules.specs.Refusals.{check};
ghost use Rattle.limits.specs.Verdicts.{verdict_of};
ghost use Rattle.cage.specs.Chains.{Faces};

use cage::marks::place;
use limits::{Check, no};
use looks::across;

// Whether no side lies across side s.
fn on_rim(indices: &[u32], s: usize) -> bool
    requires { Faces indices.now × (s < length indices.now) }
    ensures { result ≡ not (found (get_or (links indices.now) s none)) }
{
    across(indices, 0, indices.len(), s) == 0
}

// "not below 3F, or on the rim"
fn loose(indices: &[u32], s: u32) -> bool
    requires { Faces indices.now }
    ensures { result ≡ unlinked (links indices.now) s }
{
    let k = s as usize;
    k >= indices.len() || on_rim(indices, k)
}

// 18
pub fn marks(sharp: &[u32], indices: &[u32]) -> Check
    requires { Faces indices.now }
    ensures { result ≡ verdict_of (check 18 (told (find (unlinked (links indices.now)) sharp.now))) }
{
    for (i, &s) in sharp.iter().enumerate() {
        if loose(indices, s) {
            return no(18, place(i));
        }
    }
    Ok(())
}

// How many sides are on the rim.
pub fn count_rims(indices: &[u32]) -> u32
    requires { Faces indices.now }
    ensures { result ≡ rims (links indices.now) }
{
    let mut k = 0;
    for s in 0..indices.len() {
        if on_rim(indices, s) {
            k = k + 1;
        }
    }
    k
}
