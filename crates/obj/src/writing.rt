// The text of lists: 25, then the lines. Each is made in a local array and copied at its exact length, since 22 is told to the byte.
ghost use Rattle.std.specs.Prelude.{◌≡◌, not, map, suc, ◌+◌, ◌*◌, ◌≤◌, leb, length};
ghost use Rattle.lists.specs.Lists.{rows, find, found};
ghost use Rattle.whole.specs.Whole.{in_range};
ghost use Rattle.listing.specs.Text.{Put, vertex_line, face_line};
ghost use Rattle.obj.specs.Form.{has_text};
ghost use Rattle.obj.specs.Inside.{Small};

fn all_in_range(xs: &[i32]) -> bool
    ensures { result ≡ not (found (find (λ x. not (in_range x)) xs.now)) }
{
    xs.iter().all(|x| whole::in_range(*x))
}

fn all_below(fs: &[u32], v: u32) -> bool
    ensures { result ≡ not (found (find (λ c. leb v c) fs.now)) }
{
    fs.iter().all(|c| *c < v)
}

// 25: whether the lists have a text.
pub fn objable(coords: &[i32], corners: &[u32]) -> bool
    ensures { result ≡ has_text coords.now corners.now }
{
    if coords.len() % 3 != 0 {
        return false;
    }
    if corners.len() % 3 != 0 {
        return false;
    }
    if 32768 < coords.len() / 3 {
        return false;
    }
    if 32768 < corners.len() / 3 {
        return false;
    }
    if !all_in_range(coords) {
        return false;
    }
    all_below(corners, (coords.len() / 3) as u32)
}

fn vertex_length(p: &[i32], v: usize) -> usize
    requires { 3 * v + 3 ≤ length p.now }
    ensures { (result ≡ length (vertex_line p.now v)) × (result ≤ 68) }
{
    let mut line = [0u8; 68];
    listing::vertex_line(&mut line, 0, p, v)
}

fn put_vertex(text: &mut [u8], at: usize, p: &[i32], v: usize) -> usize
    requires { (3 * v + 3 ≤ length p.now) × (at + length (vertex_line p.now v) ≤ length text.old) }
    ensures { Put text.old at (vertex_line p.now v) text.new result }
{
    let mut line = [0u8; 68];
    let n = listing::vertex_line(&mut line, 0, p, v);
    listing::word(text, at, &line[..n])
}

// Corners are counted from 1.
fn face_line(line: &mut [u8], w: &[u32], f: usize) -> usize
    requires { (65 ≤ length line.old) × ((3 * f + 3 ≤ length w.now) × Small w.now) }
    ensures put { Put line.old 0 (face_line (map suc w.now) f) line.new result }
    ensures upper_bound { result ≤ 65 }
{
    let at = listing::word(line, 0, b"f");
    listing::three_numbers(line, at, w[3 * f] + 1, w[3 * f + 1] + 1, w[3 * f + 2] + 1)
}

fn face_length(w: &[u32], f: usize) -> usize
    requires { (3 * f + 3 ≤ length w.now) × Small w.now }
    ensures { (result ≡ length (face_line (map suc w.now) f)) × (result ≤ 65) }
{
    let mut line = [0u8; 65];
    face_line(&mut line, w, f)
}

fn put_face(text: &mut [u8], at: usize, w: &[u32], f: usize) -> usize
    requires { ((3 * f + 3 ≤ length w.now) × Small w.now) × (at + length (face_line (map suc w.now) f) ≤ length text.old) }
    ensures { Put text.old at (face_line (map suc w.now) f) text.new result }
{
    let mut line = [0u8; 65];
    let n = face_line(&mut line, w, f);
    listing::word(text, at, &line[..n])
}

// All lines, their lengths first.
pub fn vertex_lengths(p: &[i32], n: usize) -> usize
    requires { (n ≤ 32768) × (3 * n ≤ length p.now) }
    ensures { (result ≡ length (rows (vertex_line p.now) n)) × (result ≤ 68 * n) }
{
    let mut long = 0;
    for v in 0..n {
        long = long + vertex_length(p, v);
    }
    long
}

pub fn face_lengths(w: &[u32], n: usize) -> usize
    requires { ((n ≤ 32768) × (3 * n ≤ length w.now)) × Small w.now }
    ensures { (result ≡ length (rows (face_line (map suc w.now)) n)) × (result ≤ 65 * n) }
{
    let mut long = 0;
    for f in 0..n {
        long = long + face_length(w, f);
    }
    long
}

pub fn put_vertices(text: &mut [u8], p: &[i32], n: usize) -> usize
    requires { (3 * n ≤ length p.now) × (length (rows (vertex_line p.now) n) ≤ length text.old) }
    ensures { Put text.old 0 (rows (vertex_line p.now) n) text.new result }
{
    let mut at = 0;
    for v in 0..n {
        at = put_vertex(text, at, p, v);
    }
    at
}

pub fn put_faces(text: &mut [u8], from: usize, w: &[u32], n: usize) -> usize
    requires { ((3 * n ≤ length w.now) × Small w.now) × (from + length (rows (face_line (map suc w.now)) n) ≤ length text.old) }
    ensures { Put text.old from (rows (face_line (map suc w.now)) n) text.new result }
{
    let mut at = from;
    for f in 0..n {
        at = put_face(text, at, w, f);
    }
    at
}
