// `objsheet LEVELS`: a cage as OBJ text from standard input; its sheet to standard output, or the refusal to standard error and nothing to standard output.
#![tactic(auto)]

ghost use Rattle.std.specs.Prelude.{◌≡◌, ◌<◌, length};
ghost use Rattle.rules.specs.Calls.{given, lent};
ghost use Rattle.objsheet.specs.Making.{levels_of, refused_by, ObjSheetCall};

use rules::Refusal;
use std::env::Env;

fn wide(c: u8) -> u32
    ensures { (result ≡ c) × (result < 256) }
{
    c as u32
}

// One digit.
fn levels_of(word: &[u8]) -> Option<u32>
    ensures { result ≡ levels_of (given word) }
{
    if word.len() != 1 {
        return None;
    }
    let c = wide(word[0]);
    if c < 48 {
        return None;
    }
    if 57 < c {
        return None;
    }
    Some(c - 48)
}

// Rooms as they are lent. Of each no more is told than its length, so that no proof walks through so long a list.
fn input_room() -> [u8; 1900545]
    ensures { 1900545 ≡ length result }
{
    [0; 1900545]
}

fn sheet_room() -> [u8; 98324]
    ensures { 98324 ≡ length result }
{
    [0; 98324]
}

fn coords_room() -> [i32; 98304]
    ensures { 98304 ≡ length result }
{
    [0; 98304]
}

fn corners_room() -> [u32; 98304]
    ensures { 98304 ≡ length result }
{
    [0; 98304]
}

// 16, 23, then the writer on the lists. Lists of 98,304 numbers have room for every text.
fn made(levels: u32, text: &[u8], out: &mut [u8]) -> Result<u32, Refusal>
    ensures { ObjSheetCall levels (given text) (lent out) result }
{
    if text.len() > 1900544 {
        return Err(Refusal {
            number: 16,
            place: 0,
        });
    }
    let mut coords = coords_room();
    let mut corners = corners_room();
    let read = obj::read_obj(text, &mut coords, &mut corners)?;
    let nc = 3 * (read.vertices as usize);
    let ni = 3 * (read.faces as usize);
    writer::write_sheet(levels, &corners[..ni], &coords[..nc], out)
}

fn make(levels: u32) {
    let mut input = input_room();
    let n = listing::input(&mut input);
    let mut out = sheet_room();
    match made(levels, &input[..n], &mut out) {
        Ok(k) => listing::output(
            &out[..k as usize],
            b"objsheet: the sheet could not be written whole. Do not cut from it.\n",
        ),
        Err(r) => listing::complain_of(r),
    }
}

// A word that is missing, or longer than 8 bytes, is taken for an empty one.
fn main(rt: HostRuntime) {
    let mut word = [0u8; 8];
    let k = rt.arg(1, &mut word).unwrap_or(0);
    match levels_of(&word[..k]) {
        Some(levels) => make(levels),
        None => listing::complain(
            b"objsheet: one digit is needed, the number of levels: objsheet LEVELS < OBJ > SHEET. Nothing was written.\n",
        ),
    }
}
