// The text of a plate or of a refusal: 01, "Sheets on both sides of a line". Each function puts its piece at a place of a lent buffer and answers the
// place after it.
#![tactic(auto)]

ghost use Rattle.std.specs.Prelude.{◌≡◌, ℕ, ◌+◌, ◌*◌, ◌≤◌, ◌<◌, [], ◌∷◌, length, get_or, ℤ, pos};
ghost use Rattle.lists.specs.Lists.{rows};
ghost use Rattle.listing.specs.Text.{Put, bias, numeral, signed_numeral, spaced, three, mesh_line, vertex_line, face_line, mesh_text, refused_text, refused_by};

use rules::{Counts, Refusal};

mod programs;

pub use programs::{
    STDERR_FILENO, STDIN_FILENO, STDOUT_FILENO, complain, complain_of, input, output,
};

pub fn byte(text: &mut [u8], at: usize, b: u8) -> usize
    requires { at + 1 ≤ length text.old }
    ensures { Put text.old at (b ∷ []) text.new result }
{
    text[at] = b;
    at + 1
}

pub fn word(text: &mut [u8], at: usize, w: &[u8]) -> usize
    requires { at + length w.now ≤ length text.old }
    ensures { Put text.old at w.now text.new result }
{
    let end = at + w.len();
    text[at..end].copy_from_slice(w);
    end
}

fn number(text: &mut [u8], at: usize, n: u64) -> usize
    requires { at + 20 ≤ length text.old }
    ensures put { Put text.old at (numeral n) text.new result }
    ensures upper_bound { result ≤ at + 20 }
{
    // Stays: `io::decimal`, since `write!` says nothing of the bytes that it puts into a slice, and a `Vec` or `String` needs a heap.
    let mut digits = [0u8; 20];
    let k = io::decimal(n, &mut digits);
    word(text, at, &digits[..k])
}

fn biased(x: i32) -> u64
    ensures { (result ≡ bias x) × (result < 4294967296) }
{
    (x as i64 + 2147483648) as u64
}

fn signed(text: &mut [u8], at: usize, x: i32) -> usize
    requires { at + 21 ≤ length text.old }
    ensures put { Put text.old at (signed_numeral x) text.new result }
    ensures upper_bound { result ≤ at + 21 }
{
    let b = biased(x);
    if b < 2147483648 {
        let next = byte(text, at, b'-');
        return number(text, next, 2147483648 - b);
    }
    number(text, at, b - 2147483648)
}

pub fn spaced_number(text: &mut [u8], at: usize, n: u32) -> usize
    requires { at + 21 ≤ length text.old }
    ensures put { Put text.old at (spaced (numeral n)) text.new result }
    ensures upper_bound { result ≤ at + 21 }
{
    let next = byte(text, at, b' ');
    number(text, next, n as u64)
}

// A signed number is read where it is put: passed on, it would have to be shown to fit again.
fn spaced_coord(text: &mut [u8], at: usize, p: &[i32], i: usize) -> usize
    requires { (at + 22 ≤ length text.old) × (i < length p.now) }
    ensures put { Put text.old at (spaced (signed_numeral (get_or p.now i (pos 0)))) text.new result }
    ensures upper_bound { result ≤ at + 22 }
{
    let next = byte(text, at, b' ');
    signed(text, next, p[i])
}

pub fn three_numbers(text: &mut [u8], at: usize, a: u32, b: u32, c: u32) -> usize
    requires { at + 64 ≤ length text.old }
    ensures put { Put text.old at (three (numeral a) (numeral b) (numeral c)) text.new result }
    ensures upper_bound { result ≤ at + 64 }
{
    let second = spaced_number(text, at, a);
    let third = spaced_number(text, second, b);
    let end = spaced_number(text, third, c);
    byte(text, end, b'\n')
}

fn mesh_line(text: &mut [u8], c: Counts) -> usize
    requires { 68 ≤ length text.old }
    ensures put { Put text.old 0 (mesh_line c) text.new result }
    ensures upper_bound { result ≤ 68 }
{
    let at = word(text, 0, b"mesh");
    three_numbers(text, at, c.vertices, c.faces, c.rims)
}

pub fn vertex_line(text: &mut [u8], at: usize, p: &[i32], v: usize) -> usize
    requires { (at + 68 ≤ length text.old) × (3 * v + 3 ≤ length p.now) }
    ensures put { Put text.old at (vertex_line p.now v) text.new result }
    ensures upper_bound { result ≤ at + 68 }
{
    let first = byte(text, at, b'v');
    let second = spaced_coord(text, first, p, 3 * v);
    let third = spaced_coord(text, second, p, 3 * v + 1);
    let end = spaced_coord(text, third, p, 3 * v + 2);
    byte(text, end, b'\n')
}

fn face_line(text: &mut [u8], at: usize, w: &[u32], f: usize) -> usize
    requires { (at + 65 ≤ length text.old) × (3 * f + 3 ≤ length w.now) }
    ensures put { Put text.old at (face_line w.now f) text.new result }
    ensures upper_bound { result ≤ at + 65 }
{
    let next = byte(text, at, b'f');
    three_numbers(text, next, w[3 * f], w[3 * f + 1], w[3 * f + 2])
}

fn vertex_lines(text: &mut [u8], from: usize, p: &[i32], n: usize) -> usize
    requires { (from + 68 * n ≤ length text.old) × (3 * n ≤ length p.now) }
    ensures put { Put text.old from (rows (vertex_line p.now) n) text.new result }
    ensures upper_bound { result ≤ from + 68 * n }
{
    let mut at = from;
    for v in 0..n {
        at = vertex_line(text, at, p, v);
    }
    at
}

fn face_lines(text: &mut [u8], from: usize, w: &[u32], n: usize) -> usize
    requires { (from + 65 * n ≤ length text.old) × (3 * n ≤ length w.now) }
    ensures put { Put text.old from (rows (face_line w.now) n) text.new result }
    ensures upper_bound { result ≤ from + 65 * n }
{
    let mut at = from;
    for f in 0..n {
        at = face_line(text, at, w, f);
    }
    at
}

// The listing of a mesh: its counts, its positions, its faces.
pub fn mesh_text(text: &mut [u8], c: Counts, positions: &[i32], indices: &[u32]) -> usize
    requires lists { (3 * c.vertices ≤ length positions.now) × (3 * c.faces ≤ length indices.now) }
    requires room { 68 + 68 * c.vertices + 65 * c.faces ≤ length text.old }
    ensures put { Put text.old 0 (mesh_text c positions.now indices.now) text.new result }
    ensures upper_bound { result ≤ length text.old }
{
    let first = mesh_line(text, c);
    let second = vertex_lines(text, first, positions, c.vertices as usize);
    face_lines(text, second, indices, c.faces as usize)
}

pub fn refused_text(text: &mut [u8], refusal: Refusal) -> usize
    requires { 53 ≤ length text.old }
    ensures put { Put text.old 0 (refused_text refusal) text.new result }
    ensures upper_bound { result ≤ length text.old }
{
    let first = word(text, 0, b"refused");
    let second = spaced_number(text, first, refusal.number);
    let third = word(text, second, b" at");
    let end = spaced_number(text, third, refusal.place);
    byte(text, end, b'\n')
}

// Of an input as a whole: place 0.
pub fn refused_by(text: &mut [u8], number: u32) -> usize
    requires { 53 ≤ length text.old }
    ensures put { Put text.old 0 (refused_by number) text.new result }
    ensures upper_bound { result ≤ length text.old }
{
    refused_text(
        text,
        Refusal {
            number: number,
            place: 0,
        },
    )
}
