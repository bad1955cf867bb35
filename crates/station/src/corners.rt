// The faces of a claim, each held to ours in the same position.
ghost use Rattle.std.specs.Prelude.{◌≡◌, not, ◌&&◌, ◌+◌, ◌*◌, ◌<◌, ◌≤◌, eqb, length};
ghost use Rattle.lists.specs.Lists.{lowest};
ghost use Rattle.station.specs.Acceptance.{same_face};
ghost use Rattle.station.specs.Far.{wrong_face};

use crate::{Fault, Verdict};

fn equal3(a: u32, b: u32, c: u32, x: u32, y: u32, z: u32) -> bool
    ensures { result ≡ (eqb a x && eqb b y && eqb c z) }
{
    if a != x {
        return false;
    }
    if b != y {
        return false;
    }
    c == z
}

// Face f of the claim is ours, begun at any of its corners.
fn same_face(ours: &[u32], theirs: &[u32], f: usize) -> bool
    requires { (3 * f + 3 ≤ length ours.now) × (3 * f + 3 ≤ length theirs.now) }
    ensures { result ≡ same_face ours.now theirs.now f }
{
    let x = ours[3 * f];
    let y = ours[3 * f + 1];
    let z = ours[3 * f + 2];
    let a = theirs[3 * f];
    let b = theirs[3 * f + 1];
    let c = theirs[3 * f + 2];
    if equal3(a, b, c, x, y, z) {
        return true;
    }
    if equal3(a, b, c, y, z, x) {
        return true;
    }
    equal3(a, b, c, z, x, y)
}

// The first face that is not.
pub fn wrong_face(ours: &[u32], theirs: &[u32], nf: usize) -> Verdict
    requires { (3 * nf ≤ length ours.now) × ((3 * nf ≤ length theirs.now) × (3 * nf < 4294967296)) }
    ensures { result ≡ wrong_face (lowest (λ f. not (same_face ours.now theirs.now f)) nf) }
{
    for f in 0..nf {
        if !same_face(ours, theirs, f) {
            return Verdict::No(Fault::Face(f as u32));
        }
    }
    Verdict::Yes
}
