// Checks 7 and 8: each side once, and no face turned over.
ghost use Rattle.std.specs.Prelude.{◌≡◌, ◌+◌, ◌*◌, ◌/◌, ◌%◌, ◌≤◌, ◌<◌, map, length, take};
ghost use Rattle.lists.specs.Lists.{lowest, found};
ghost use Rattle.rules.specs.Mesh.{sides, links};
ghost use Rattle.rules.specs.Refusals.{check, used_before, same_set};
ghost use Rattle.faces.specs.Words.{link_of, coded};
ghost use Rattle.limits.specs.Verdicts.{verdict_of};
ghost use Rattle.cage.specs.Chains.{Faces, Apart, Once, folds_back};
ghost use Rattle.cage.specs.Fans.{place_of};

use limits::{Check, no};

// 7: an earlier side that leaves the same vertex ends where side s does. `low` is the lowest such side.
pub fn reused(indices: &[u32], low: Option<u32>) -> Check
    requires { Faces indices.now × (low ≡ place_of (lowest (used_before (sides indices.now)) (length indices.now))) }
    ensures { result ≡ verdict_of (check 7 (lowest (used_before (sides indices.now)) (3 * (length indices.now / 3)))) }
{
    match low {
        Some(s) => no(7, s),
        None => Ok(()),
    }
}

// Does face f have the corner set of an earlier face, if its side 0 has this link word?
fn folds_back(indices: &[u32], f: usize, link: u32) -> bool
    requires { Faces indices.now × (3 * f + 2 < length indices.now) × (link ≤ length indices.now) }
    ensures { result ≡ folds_back indices.now f (link_of link) }
{
    if link == 0 {
        return false;
    }
    let t = (link - 1) as usize;
    t < 3 * f && indices[faces::sides::backward(t)] == indices[3 * f + 2]
}

// 8: after 6 and 7, a face with the corner set of an earlier one is that face turned over, so it lies across side 0.
pub fn doubled(indices: &[u32], words: &[u32]) -> Check
    requires sizes { Faces indices.now × (length indices.now ≤ length words.now) }
    requires links { take (length indices.now) words.now ≡ map coded (links indices.now) }
    requires once { Apart indices.now × Once indices.now }
    ensures { result ≡ verdict_of (check 8 (lowest (λ f. found (lowest (same_set indices.now f) f)) (length indices.now / 3))) }
{
    for f in 0..indices.len() / 3 {
        if folds_back(indices, f, words[3 * f]) {
            return no(8, f as u32);
        }
    }
    Ok(())
}
