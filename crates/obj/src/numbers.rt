// The number that a byte ends, and where it is stored.
ghost use Rattle.std.specs.Prelude.{◌≡◌, true, ◌≤◌, pos, length};
ghost use Rattle.std.proofs.lemmas.List.Edits.{sets};
ghost use Rattle.whole.specs.Whole.{reach};
ghost use Rattle.spots.specs.Spots.{is_digit as is_digit_of};
ghost use Rattle.obj.specs.Reading.{minus as minus_of};
ghost use Rattle.obj.specs.Inside.{held_at, ended_by, coords_held, corners_held, fits};

use super::Held;
use spots::Spot;

// The number at a spot.
fn held_at(spot: Spot) -> Option<Held>
    ensures { result ≡ held_at spot }
{
    match spot {
        Spot::Above(n) => Some(Held::Plus(n)),
        Spot::Under(n) => Some(Held::Less(n)),
        Spot::Number(n) => Some(Held::Corner(n)),
        _ => None,
    }
}

fn is_digit(c: u32) -> bool
    ensures { result ≡ is_digit_of c }
{
    c >= 48 && c <= 57
}

pub fn ended(spot: Spot, c: u32) -> Option<Held>
    ensures { result ≡ ended_by spot c }
{
    if is_digit(c) {
        return None;
    }
    held_at(spot)
}

pub fn coords_held(h: Option<Held>) -> u32
    ensures { result ≡ length (coords_held h) }
{
    match h {
        Some(Held::Plus(_)) => 1,
        Some(Held::Less(_)) => 1,
        _ => 0,
    }
}

pub fn corners_held(h: Option<Held>) -> u32
    ensures { result ≡ length (corners_held h) }
{
    match h {
        Some(Held::Corner(_)) => 1,
        _ => 0,
    }
}

fn plus(n: u32) -> i32
    requires { n ≤ reach }
    ensures { result ≡ pos n }
{
    n as i32
}

fn less(n: u32) -> i32
    requires { n ≤ reach }
    ensures { result ≡ minus_of n }
{
    -(n as i32)
}

// A number that the list has no place for is let go: the first passage over a text stores nothing, and is lent lists of no length. What ends no number is told apart first, since most
// bytes end none.
pub fn store_coord(coords: &mut [i32], i: u32, h: Option<Held>)
    requires { fits h ≡ true }
    ensures { coords.new ≡ sets coords.old i (coords_held h) }
{
    match h {
        None => {}
        Some(Held::Plus(n)) => {
            if (i as usize) < coords.len() {
                coords[i as usize] = plus(n);
            }
        }
        Some(Held::Less(n)) => {
            if (i as usize) < coords.len() {
                coords[i as usize] = less(n);
            }
        }
        Some(Held::Corner(_)) => {}
    }
}

pub fn store_corner(corners: &mut [u32], j: u32, h: Option<Held>)
    requires { fits h ≡ true }
    ensures { corners.new ≡ sets corners.old j (corners_held h) }
{
    match h {
        None => {}
        Some(Held::Plus(_)) => {}
        Some(Held::Less(_)) => {}
        Some(Held::Corner(n)) => {
            if (j as usize) < corners.len() {
                corners[j as usize] = n - 1;
            }
        }
    }
}
