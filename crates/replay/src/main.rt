// Replays the oracle's stored answers (oracle/answers, from standard input) through the f32 call: faces, position bits and normal bits, cage by cage.
#![tactic(auto)]

ghost use Rattle.std.specs.Prelude.{◌≡◌, ◌≤◌, length};

use rules::Outcome;

// Stays: crate `io`, not std's `Read` and `Write`, as crate listing says.
const STDIN_FILENO: i32 = 0;

const STDOUT_FILENO: i32 = 1;

// Word k of the bytes, little endian; past their end 0.
fn word(b: &[u8], k: usize) -> u32 {
    if k >= 16384 {
        return 0;
    }
    let i = 4 * k;
    if b.len() < i + 4 {
        return 0;
    }
    u32::from_le_bytes([b[i], b[i + 1], b[i + 2], b[i + 3]])
}

// The float of a stored word. No stored word is an infinity or a NaN.
fn float(w: u32) -> f32 {
    if w % 2147483648 / 8388608 == 255 {
        return 0.0;
    }
    f32::from_bits(w)
}

// The bits of a float, as they are stored.
fn bits(x: f32) -> u32 {
    vectors::narrow::pattern(std::num::f32_to_f64_with_nan(x))
}

// Numbers from n stored words, at the front of an array. No stored cage has over 1,024 faces or vertices, or 16,384 words.
fn numbers_of<T: Copy, F: Fn(u32) -> T>(
    b: &[u8],
    at: usize,
    n: usize,
    nothing: T,
    number: F,
) -> [T; 3072]
    requires room { (at ≤ 65536) × (n ≤ 3072) }
    requires callable { F.IsAlwaysCallable number }
    ensures { length result ≡ 3072 }
{
    let mut out = [nothing; 3072];
    for k in 0..n {
        out[k] = number(word(b, at + k));
    }
    out
}

// Whether the first n numbers are the stored words, by their bits.
fn same<T: Copy, F: Fn(T) -> u32>(b: &[u8], at: usize, n: usize, s: &[T], bits_of: F) -> bool
    requires room { (at ≤ 65536) × (n ≤ 3072) × (n ≤ length s.now) }
    requires callable { F.IsAlwaysCallable bits_of }
{
    for k in 0..n {
        if bits_of(s[k]) != word(b, at + k) {
            return false;
        }
    }
    true
}

// What was stored from word `at` on: corners, positions, and the normals by the sine table.
fn same_mesh(
    b: &[u8],
    at: usize,
    faces: u32,
    vertices: u32,
    out: &[u32],
    positions: &[f32],
    normals: &[f32],
) -> bool
    requires at_bound { at ≤ 32768 }
    requires out_len { (length out.now ≡ 3072) × ((length positions.now ≡ 3072) × (length normals.now ≡ 3072)) }
{
    if faces != word(b, 3) {
        return false;
    }
    if vertices != word(b, 4) {
        return false;
    }
    if faces > 1024 {
        return false;
    }
    if vertices > 1024 {
        return false;
    }
    let nf = 3 * faces as usize;
    let nv = 3 * vertices as usize;
    if !same(b, at, nf, out, |w| w) {
        return false;
    }
    if !same(b, at + nf, nv, positions, bits) {
        return false;
    }
    same(b, at + nf + nv, nv, normals, bits)
}

fn subdivided(b: &[u8], f: usize, v: usize) -> bool
    requires { (f ≤ 1024) × (v ≤ 1024) }
{
    let indices = numbers_of(b, 7, 3 * f, 0u32, |w| w);
    let coords = numbers_of(b, 7 + 3 * f, 3 * v, 0.0f32, float);
    let mut positions = [0.0f32; 3072];
    let mut normals = [0.0f32; 3072];
    let mut out = [0u32; 3072];
    let mut words = [0u32; 24576];
    let mut work = [0.0f32; 6144];
    let ni = 3 * f;
    let nc = 3 * v;
    let o = loopsubdiv::loop_subdivide(
        word(b, 0),
        &indices[..ni],
        &coords[..nc],
        &mut positions,
        &mut normals,
        &mut out,
        &mut words,
        &mut work,
    );
    match o {
        Err(_) => false,
        Ok(c) => {
            if c.rims != word(b, 5) {
                return false;
            }
            same_mesh(
                b,
                7 + 3 * f + 3 * v,
                c.faces,
                c.vertices,
                &out,
                &positions,
                &normals,
            )
        }
    }
}

fn replayed(b: &[u8]) -> bool {
    let f = word(b, 1);
    let v = word(b, 2);
    if f > 1024 || v > 1024 {
        return false;
    }
    subdivided(b, f as usize, v as usize)
}

fn body(bytes: &mut [u8], m: usize) -> bool
    requires { m ≤ length bytes.old }
{
    io::read_full(STDIN_FILENO, &mut bytes[..m]);
    replayed(&bytes[..m])
}

// The next stored cage: two words of heading, the second of which counts those that follow.
fn next() -> bool {
    let mut head = [0u8; 8];
    let h = io::read_full(STDIN_FILENO, &mut head);
    let n = word(&head[..h], 1) as usize;
    if n > 16384 {
        return false;
    }
    let mut bytes = [0u8; 65536];
    body(&mut bytes, 4 * n)
}

fn count() -> u32 {
    let mut head = [0u8; 4];
    let h = io::read_full(STDIN_FILENO, &mut head);
    word(&head[..h], 0)
}

fn replay(cages: u32) -> u32 {
    let mut same: u32 = 0;
    for _ in 0..cages {
        if next() {
            same += 1;
        }
    }
    same
}

fn main() {
    let cages = count();
    let same = replay(cages);
    io::print_decimal(STDOUT_FILENO, same as u64);
    io::write_all(STDOUT_FILENO, b" of ");
    io::print_decimal(STDOUT_FILENO, cages as u64);
    io::write_all(STDOUT_FILENO, b" stored answers are the same\n");
}
