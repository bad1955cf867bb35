// A passage over the text.
ghost use Rattle.std.specs.Prelude.{◌≡◌, true, ◌/◌, ◌≤◌, ◌<◌, length, Ok, Err};
ghost use Rattle.std.proofs.lemmas.List.Edits.{sets};
ghost use Rattle.lists.specs.Lists.{pick};
ghost use Rattle.rules.specs.Calls.{given};
ghost use Rattle.obj.specs.Reading.{read_obj};
ghost use Rattle.spots.specs.Spots.{is_line as is_line_at};
ghost use Rattle.obj.specs.Inside.{Run, Onward, seen_of, is_whole};
ghost use Rattle.obj.specs.Calls.{coords_of, corners_of};

use super::numbers::{coords_held, corners_held, ended, store_coord, store_corner};
use super::{Counted, Reached, Stand};
use rules::Refusal;
use spots::{Spot, grown, is_line, is_stuck, turn};

fn wide(c: u8) -> u32
    ensures { (result ≡ c) × (result < 256) }
{
    c as u32
}

// The digits that carry a number on. Most bytes of a text are such digits, and in this loop they cost little more than in any.
fn digits(text: &[u8], from: usize, first: u32, most: u32) -> Reached
    requires { from ≤ length text.now }
    ensures { Run (given text) most first from result.n result.at }
{
    let mut n = first;
    for at in from..text.len() {
        match grown(n, wide(text[at]), most) {
            Some(m) => n = m,
            None => return Reached { n: n, at: at },
        }
    }
    Reached {
        n: n,
        at: text.len(),
    }
}

// Past the digits of a number that has begun; v is the number of vertices.
fn onward(text: &[u8], at: usize, spot: Spot, v: u32) -> Stand
    requires { at ≤ length text.now }
    ensures { Onward (given text) v at spot result.spot result.at }
{
    match spot {
        Spot::Above(n) => {
            let d = digits(text, at, n, 1000000000);
            Stand {
                spot: Spot::Above(d.n),
                at: d.at,
            }
        }
        Spot::Under(n) => {
            let d = digits(text, at, n, 1000000000);
            Stand {
                spot: Spot::Under(d.n),
                at: d.at,
            }
        }
        Spot::Number(n) => {
            let d = digits(text, at, n, v);
            Stand {
                spot: Spot::Number(d.n),
                at: d.at,
            }
        }
        _ => Stand { spot: spot, at: at },
    }
}

// 23: not of the form, from this byte on.
fn wrong_at(at: u32) -> Refusal
    ensures { result ≡ record { number = 23; place = at } }
{
    Refusal {
        number: 23,
        place: at,
    }
}

fn seen_at(spot: Spot, at: u32, i: u32, j: u32) -> Result<Counted, Refusal>
    ensures { result ≡ pick (is_line_at spot) (Ok (record { coords = i; corners = j })) (Err (record { number = 23; place = at })) }
{
    if !is_line(spot) {
        return Err(wrong_at(at));
    }
    Ok(Counted {
        coords: i,
        corners: j,
    })
}

// One passage over the text. It answers how many numbers there are, or 23; a text that is of the form is left in the lists, as far as they go.
pub fn pass(text: &[u8], coords: &mut [i32], corners: &mut [u32]) -> Result<Counted, Refusal>
    ensures seen { result ≡ seen_of (read_obj (given text)) }
    ensures coords { is_whole (read_obj (given text)) ≡ true → coords.new ≡ sets coords.old 0 (coords_of (read_obj (given text))) }
    ensures corners { is_whole (read_obj (given text)) ≡ true → corners.new ≡ sets corners.old 0 (corners_of (read_obj (given text))) }
{
    let mut spot = Spot::Line;
    let mut i = 0u32;
    let mut j = 0u32;
    let mut at = 0;
    // Stays: a run of digits is passed at one go, so the next byte is not always the one after.
    while at < text.len() {
        let c = wide(text[at]);
        let to = turn(i, j, spot, c);
        if is_stuck(to) {
            return Err(wrong_at(at as u32));
        }
        let h = ended(spot, c);
        store_coord(coords, i, h);
        store_corner(corners, j, h);
        i = i + coords_held(h);
        j = j + corners_held(h);
        let s = onward(text, at + 1, to, i / 3);
        spot = s.spot;
        at = s.at;
    }
    seen_at(spot, at as u32, i, j)
}
