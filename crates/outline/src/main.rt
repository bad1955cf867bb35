// `outline`: a sheet from standard input; the rim of its plate as loops of points, or the refusal, to standard output.
#![tactic(auto)]

ghost use Rattle.std.specs.Prelude.{◌≡◌, ◌≢◌, ◌+◌, ◌*◌, ◌≤◌, length, Some};
ghost use Rattle.rules.specs.Calls.{given};
ghost use Rattle.rules.specs.Sheets.{sheet_levels, sheet_indices, sheet_coords};
ghost use Rattle.reader.specs.Reading.{sheet_of};
ghost use Rattle.listing.specs.Text.{Put};
ghost use Rattle.outline.specs.Output.{outlines_line, loop_line, entry_text, left_after, entry_texts, Vertices, cage_text, outline_text};

use outlines::Outline;
use reader::Sheet;

fn outlines_line(text: &mut [u8], o: Outline) -> usize
    requires { 51 ≤ length text.old }
    ensures put { Put text.old 0 (outlines_line o) text.new result }
    ensures upper_bound { result ≤ 51 }
{
    let first = listing::word(text, 0, b"outlines");
    let second = listing::spaced_number(text, first, o.loops);
    let end = listing::spaced_number(text, second, o.listed);
    listing::byte(text, end, b'\n')
}

fn loop_line(text: &mut [u8], at: usize, n: u32) -> usize
    requires { at + 26 ≤ length text.old }
    ensures put { Put text.old at (loop_line n) text.new result }
    ensures upper_bound { result ≤ at + 26 }
{
    let next = listing::word(text, at, b"loop");
    let end = listing::spaced_number(text, next, n);
    listing::byte(text, end, b'\n')
}

fn entry(text: &mut [u8], at: usize, positions: &[i32], left: u32, e: u32) -> usize
    requires room { at + 68 ≤ length text.old }
    requires vertex { left ≢ 0 → 3 * e + 3 ≤ length positions.now }
    ensures put { Put text.old at (entry_text (given positions) left e) text.new result }
    ensures upper_bound { result ≤ at + 68 }
{
    if left == 0 {
        return loop_line(text, at, e);
    }
    listing::vertex_line(text, at, positions, e as usize)
}

fn left_after(left: u32, e: u32) -> u32
    ensures { result ≡ left_after left e }
{
    if left == 0 { e } else { left - 1 }
}

// The entries of a list, each a line.
fn entries(text: &mut [u8], from: usize, positions: &[i32], list: &[u32]) -> usize
    requires room { from + 68 * length list.now ≤ length text.old }
    requires vertices { Vertices 512 0 list.now × (1536 ≤ length positions.now) }
    ensures put { Put text.old from (entry_texts (given positions) 0 (given list)) text.new result }
    ensures upper_bound { result ≤ from + 68 * length list.now }
{
    let mut at = from;
    let mut left = 0u32;
    for e in list {
        at = entry(text, at, positions, left, *e);
        left = left_after(left, *e);
    }
    at
}

// Room for 512 faces and 512 vertices is lent, and a list for 512 vertices in 170 loops, since a loop has three at least. Its text is at most 51 + 68 * 682 bytes.
fn cage(levels: u32, indices: &[u32], coords: &[i32], text: &mut [u8]) -> usize
    requires { 46427 ≤ length text.old }
    ensures put { Put text.old 0 (cage_text levels (given indices) (given coords)) text.new result }
    ensures upper_bound { result ≤ length text.old }
{
    let mut positions = [0i32; 1536];
    let mut out = [0u32; 1536];
    let mut words = [0u32; 12288];
    let mut work = [0i32; 3072];
    let mut list = [0u32; 682];
    let t = outlines::rim_loops(
        levels,
        indices,
        coords,
        &mut positions,
        &mut out,
        &mut words,
        &mut work,
        &mut list,
    );
    match t {
        Err(r) => listing::refused_text(text, r),
        Ok(o) => {
            let first = outlines_line(text, o);
            let n = (o.loops + o.listed) as usize;
            entries(text, first, &positions, &list[..n])
        }
    }
}

// The lists of a sheet that is not over 32,768 bytes.
fn lists(bytes: &[u8], s: Sheet, text: &mut [u8]) -> usize
    requires { (length bytes.now ≤ 32768) × (sheet_of bytes.now ≡ Some s) × (46427 ≤ length text.old) }
    ensures put { Put text.old 0 (cage_text (sheet_levels (given bytes)) (sheet_indices (given bytes)) (sheet_coords (given bytes))) text.new result }
    ensures upper_bound { result ≤ length text.old }
{
    let nc = 3 * s.vertices as usize;
    let mut coords = [0i32; 8192];
    reader::numbers_from(reader::vertex_block(bytes), nc, &mut coords);
    let nw = 3 * s.faces as usize;
    let mut corners = [0u32; 8192];
    reader::numbers_from(reader::face_block(bytes), nw, &mut corners);
    cage(s.levels, &corners[..nw], &coords[..nc], text)
}

fn trace(bytes: &[u8], text: &mut [u8]) -> usize
    requires { 46427 ≤ length text.old }
    ensures put { Put text.old 0 (outline_text (given bytes)) text.new result }
    ensures upper_bound { result ≤ length text.old }
{
    if bytes.len() > 32768 {
        return listing::refused_by(text, 16);
    }
    match reader::read_sheet(bytes) {
        Some(s) => lists(bytes, s, text),
        None => listing::refused_by(text, 15),
    }
}

fn main() {
    let mut input = [0u8; 32769];
    let n = listing::input(&mut input);
    let mut text = [0u8; 46427];
    let k = trace(&input[..n], &mut text);
    listing::output(
        &text[..k],
        b"outline: the loops could not be written whole. Do not mill by them.\n",
    );
}
