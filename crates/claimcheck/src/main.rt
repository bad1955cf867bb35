// `claimcheck`: a tolerance, the length of a sheet, the sheet and a listing from standard input; the verdict on that listing to standard output.
#![tactic(auto)]

ghost use Rattle.std.specs.Prelude.{◌≡◌, true, false, ◌*◌, ◌<◌, ◌≤◌, length, Some};
ghost use Rattle.rules.specs.Calls.{given};
ghost use Rattle.rules.specs.Sheets.{sheet_levels, sheet_indices, sheet_coords, sheet_outcome, cut_rooms};
ghost use Rattle.listing.specs.Text.{Put, mesh_text};
ghost use Rattle.reader.specs.Reading.{sheet_of as trailer_of};
ghost use Rattle.station.specs.Acceptance.{verdict};
ghost use Rattle.claimcheck.specs.Output.{verdict_text, unreadable_text, rims_of, with_rims, Heard, Judged, Spoken};

use reader::Sheet;
use rules::{Counts, Outcome};
use station::{Fault, Verdict};

// A number of the text, and the place after it.
#[derive(Clone, Copy)]
struct Figure {
    size: u32,
    next: usize,
}

// ---- the reader. It takes the numbers of the text as they come; that they are those of a listing is seen by writing it again.

// The next byte that can begin a number.
fn seek(text: &[u8], from: usize) -> usize {
    for at in from..text.len() {
        let b = text[at];
        if b == b'-' || (b >= b'0' && b <= b'9') {
            return at;
        }
    }
    text.len()
}

// Its digits, as long as it fits.
fn digits(text: &[u8], from: usize) -> Figure {
    let mut n: u32 = 0;
    for at in from..text.len() {
        let b = text[at];
        if b < b'0' || b > b'9' || n > 400000000 {
            return Figure { size: n, next: at };
        }
        n = 10 * n + (b - b'0') as u32;
    }
    Figure {
        size: n,
        next: text.len(),
    }
}

fn number(text: &[u8], from: usize) -> Figure {
    digits(text, seek(text, from))
}

fn upward(n: u32) -> i32 {
    if n > 2147483647 { 0 } else { n as i32 }
}

fn downward(n: u32) -> i32 {
    if n > 2147483647 { 0 } else { -(n as i32) }
}

// A coordinate of the text, and the place after it.
fn coord(text: &[u8], from: usize) -> (i32, usize) {
    let at = seek(text, from);
    if at < text.len() && text[at] == b'-' {
        let n = digits(text, at + 1);
        return (downward(n.size), n.next);
    }
    let n = digits(text, at);
    (upward(n.size), n.next)
}

fn coords(text: &[u8], from: usize, ps: &mut [i32]) -> usize {
    let mut at = from;
    for p in ps.iter_mut() {
        let (x, next) = coord(text, at);
        *p = x;
        at = next;
    }
    at
}

fn corners(text: &[u8], from: usize, fs: &mut [u32]) {
    let mut at = from;
    for c in fs.iter_mut() {
        let n = number(text, at);
        *c = n.size;
        at = n.next;
    }
}

// The listing of these numbers, written again, is the text.
fn again(text: &[u8], c: Counts, ps: &[i32], fs: &[u32]) -> bool
    requires { (c.vertices ≤ 512) × (c.faces ≤ 512) × (3 * c.vertices ≤ length ps.now) × (3 * c.faces ≤ length fs.now) }
    ensures { result ≡ true → text.now ≡ mesh_text c ps.now fs.now }
{
    let mut room = [0u8; 68164];
    let k = listing::mesh_text(&mut room, c, ps, fs);
    text == &room[..k]
}

// A listing of at most 512 vertices and 512 faces, and none where it is not one to the byte: its positions and its corners into the front of what is lent.
fn read(text: &[u8], ps: &mut [i32], fs: &mut [u32]) -> Option<Counts>
    requires { (1536 ≤ length ps.old) × (1536 ≤ length fs.old) }
    ensures { Heard (given text) result ps.new fs.new }
{
    let v = number(text, 0);
    let f = number(text, v.next);
    let r = number(text, f.next);
    if v.size > 512 || f.size > 512 {
        return None;
    }
    let nc = 3 * v.size as usize;
    let nw = 3 * f.size as usize;
    let at = coords(text, r.next, &mut ps[..nc]);
    corners(text, at, &mut fs[..nw]);
    let c = Counts {
        vertices: v.size,
        faces: f.size,
        rims: r.size,
    };
    let whole = again(text, c, &ps[..nc], &fs[..nw]);
    whole.then_some(c)
}

// ---- what is said

fn no_text(f: Fault, text: &mut [u8]) -> usize
    requires { 64 ≤ length text.old }
    ensures put { Put text.old 0 (verdict_text (Verdict.No f)) text.new result }
    ensures upper_bound { result ≤ length text.old }
{
    match f {
        Fault::Counts => listing::word(text, 0, b"no counts\n"),
        Fault::Face(n) => {
            let first = listing::word(text, 0, b"no face");
            let end = listing::spaced_number(text, first, n);
            listing::byte(text, end, b'\n')
        }
        Fault::Far(i, k) => {
            let first = listing::word(text, 0, b"no coordinate");
            let second = listing::spaced_number(text, first, i);
            let third = listing::word(text, second, b" needs");
            let end = listing::spaced_number(text, third, k);
            listing::byte(text, end, b'\n')
        }
    }
}

fn verdict_text(v: Verdict, text: &mut [u8]) -> usize
    requires { 64 ≤ length text.old }
    ensures put { Put text.old 0 (verdict_text v) text.new result }
    ensures upper_bound { result ≤ length text.old }
{
    match v {
        Verdict::Yes => listing::word(text, 0, b"yes\n"),
        Verdict::No(f) => no_text(f, text),
        Verdict::Refused(r) => listing::refused_text(text, r),
    }
}

fn unreadable(v: Verdict, text: &mut [u8]) -> usize
    requires { 64 ≤ length text.old }
    ensures put { Put text.old 0 (unreadable_text v) text.new result }
    ensures upper_bound { result ≤ length text.old }
{
    match v {
        Verdict::Yes | Verdict::No(_) => listing::word(text, 0, b"unreadable\n"),
        Verdict::Refused(r) => listing::refused_text(text, r),
    }
}

// ---- the verdict

fn rims_of(o: Outcome) -> u32
    ensures { result ≡ rims_of o }
{
    match o {
        Ok(c) => c.rims,
        Err(_) => 0,
    }
}

// Of a plate with room for 512 faces and 512 vertices, as `platecut` cuts it.
fn our_rims(bytes: &[u8]) -> u32
    ensures { result ≡ rims_of (sheet_outcome cut_rooms (given bytes)) }
{
    let mut positions = [0i32; 1536];
    let mut out = [0u32; 1536];
    let mut words = [0u32; 12288];
    let mut work = [0i32; 3072];
    rims_of(sheet::subdivide_sheet(bytes, &mut positions, &mut out, &mut words, &mut work))
}

fn with_rims(theirs: u32, ours: u32, v: Verdict) -> Verdict
    ensures { result ≡ with_rims theirs ours v }
{
    match v {
        Verdict::Yes => {
            if theirs == ours {
                Verdict::Yes
            } else {
                Verdict::No(Fault::Counts)
            }
        }
        Verdict::No(f) => Verdict::No(f),
        Verdict::Refused(r) => Verdict::Refused(r),
    }
}

// The lists of a sheet that is not over 32,768 bytes are within local arrays. In the frame of who calls it they share the room of the listing's (docs/DECISIONS.md, "Four attributes").
#[inline(always)]
fn held(t: u32, bytes: &[u8], s: Sheet, theirs: &[u32], claimed: &[i32]) -> Verdict
    requires { (3 * s.vertices ≤ 8192) × (3 * s.faces ≤ 8192) × (trailer_of bytes.now ≡ Some s) }
    ensures { result ≡ verdict cut_rooms t (sheet_levels (given bytes)) (sheet_indices (given bytes)) (sheet_coords (given bytes)) (given theirs) (given claimed) }
{
    let nc = 3 * s.vertices as usize;
    let mut coords = [0i32; 8192];
    reader::numbers_from(reader::vertex_block(bytes), nc, &mut coords);
    let nw = 3 * s.faces as usize;
    let mut indices = [0u32; 8192];
    reader::numbers_from(reader::face_block(bytes), nw, &mut indices);
    let mut positions = [0i32; 1536];
    let mut out = [0u32; 1536];
    let mut words = [0u32; 12288];
    let mut work = [0i32; 3072];
    station::accept(
        s.levels,
        t,
        &indices[..nw],
        &coords[..nc],
        theirs,
        claimed,
        &mut positions,
        &mut out,
        &mut words,
        &mut work,
    )
}

// The claim that the listing is. What is no listing claims nothing, and is told as such unless the cage is refused.
fn judge(t: u32, bytes: &[u8], s: Sheet, text: &[u8], said: &mut [u8]) -> usize
    requires sheet { (3 * s.vertices ≤ 8192) × (3 * s.faces ≤ 8192) × (trailer_of bytes.now ≡ Some s) }
    requires room { 64 ≤ length said.old }
    ensures judged { Judged t (given bytes) (given text) said.old said.new result }
    ensures upper_bound { result ≤ length said.old }
{
    let mut ps = [0i32; 1536];
    let mut fs = [0u32; 1536];
    match read(text, &mut ps, &mut fs) {
        Some(c) => {
            let nc = 3 * c.vertices as usize;
            let nw = 3 * c.faces as usize;
            let v = held(t, bytes, s, &fs[..nw], &ps[..nc]);
            verdict_text(with_rims(c.rims, our_rims(bytes), v), said)
        }
        None => unreadable(held(t, bytes, s, &[], &[]), said),
    }
}

// 15 and 16, then the claim.
fn checked(input: &[u8], said: &mut [u8]) -> usize
    requires { 64 ≤ length said.old }
    ensures spoken { Spoken (given input) said.old said.new result }
    ensures upper_bound { result ≤ length said.old }
{
    let n = input.len();
    if n < 8 {
        return listing::refused_by(said, 15);
    }
    let long = reader::word_at(input, 4) as usize;
    if long > 32768 {
        return listing::refused_by(said, 16);
    }
    let end = 8 + long;
    if n < end {
        return listing::refused_by(said, 15);
    }
    let t = reader::word_at(input, 0);
    match reader::read_sheet(&input[8..end]) {
        Some(s) => judge(t, &input[8..end], s, &input[end..], said),
        None => listing::refused_by(said, 15),
    }
}

// As much as a sheet and a listing of 512 vertices and 512 faces can take, and one byte more.
fn main() {
    let mut input = [0u8; 100941];
    let n = listing::input(&mut input);
    let mut said = [0u8; 64];
    let k = checked(&input[..n], &mut said);
    listing::output(
        &said[..k],
        b"station: the verdict could not be written whole.\n",
    );
}
