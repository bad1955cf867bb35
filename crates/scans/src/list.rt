// Checks 7 and 8: sides and faces that came before.
ghost use Rattle.std.specs.Prelude.{◌≡◌, ◌+◌, ◌*◌, ◌/◌, ◌<◌, length};
ghost use Rattle.lists.specs.Lists.{lowest, found};
ghost use Rattle.rules.specs.Mesh.{side, sides};
ghost use Rattle.rules.specs.Refusals.{check, same, used_before, has as has_of, same_set};
ghost use Rattle.limits.specs.Verdicts.{verdict_of};
ghost use Rattle.cage.specs.Chains.{Faces};

use faces::sides::onward;
use limits::{Check, no};

// Whether side t runs from a to b.
fn runs(indices: &[u32], a: u32, b: u32, t: usize) -> bool
    requires { Faces indices.now × (t < length indices.now) }
    ensures { result ≡ same (record { from = a; to = b }) (side indices.now t) }
{
    a == indices[t] && b == indices[onward(t)]
}

// Whether an earlier side runs as side s does.
fn used_before(indices: &[u32], s: usize) -> bool
    requires { Faces indices.now × (s < length indices.now) }
    ensures { result ≡ used_before (sides indices.now) s }
{
    let a = indices[s];
    let b = indices[onward(s)];
    for t in 0..s {
        if runs(indices, a, b, t) {
            return true;
        }
    }
    false
}

// 7
pub fn reused(indices: &[u32]) -> Check
    requires { Faces indices.now }
    ensures { result ≡ verdict_of (check 7 (lowest (used_before (sides indices.now)) (3 * (length indices.now / 3)))) }
{
    for s in 0..indices.len() {
        if used_before(indices, s) {
            return no(7, s as u32);
        }
    }
    Ok(())
}

// Whether x is one of three.
fn has(a: u32, b: u32, c: u32, x: u32) -> bool
    ensures { result ≡ has_of a b c x }
{
    x == a || x == b || x == c
}

fn same_set(indices: &[u32], f: usize, g: usize) -> bool
    requires { Faces indices.now × (3 * f + 2 < length indices.now) × (3 * g + 2 < length indices.now) }
    ensures { result ≡ same_set indices.now f g }
{
    let a = indices[3 * f];
    let b = indices[3 * f + 1];
    let c = indices[3 * f + 2];
    has(a, b, c, indices[3 * g])
        && has(a, b, c, indices[3 * g + 1])
        && has(a, b, c, indices[3 * g + 2])
}

// Whether an earlier face has the corner set of face f.
fn set_before(indices: &[u32], f: usize) -> bool
    requires { Faces indices.now × (3 * f + 2 < length indices.now) }
    ensures { result ≡ found (lowest (same_set indices.now f) f) }
{
    for g in 0..f {
        if same_set(indices, f, g) {
            return true;
        }
    }
    false
}

// 8
pub fn doubled(indices: &[u32]) -> Check
    requires { Faces indices.now }
    ensures { result ≡ verdict_of (check 8 (lowest (λ f. found (lowest (same_set indices.now f) f)) (length indices.now / 3))) }
{
    for f in 0..indices.len() / 3 {
        if set_before(indices, f) {
            return no(8, f as u32);
        }
    }
    Ok(())
}
