// Sheets: 01, "Sheets and limits". The reader hands back each block as that stretch of the lent bytes.
#![tactic(auto)]

ghost use Rattle.std.specs.Prelude.{◌≡◌, ℕ, [], ◌∷◌, ◌+◌, ◌*◌, ◌≤◌, ◌<◌, length};
ghost use Rattle.std.proofs.lemmas.List.Edits.{sets};
ghost use Rattle.lists.specs.Lists.{rows};
ghost use Rattle.rules.specs.Sheets.{word_at, signed, unsigned, vertex_block, face_block};
ghost use Rattle.reader.specs.Reading.{sheet_of};

// What the trailer says.
#[derive(Clone, Copy)]
pub struct Sheet {
    pub vertices: u32,
    pub faces: u32,
    pub levels: u32,
}

// Little endian.
pub fn word_at(b: &[u8], i: usize) -> u32
    requires { i + 4 ≤ length b.now }
    ensures { result ≡ word_at b.now i }
{
    u32::from_le_bytes([b[i], b[i + 1], b[i + 2], b[i + 3]])
}

// A number that stands in a sheet as a word: an unsigned one as itself, a signed one by its bits.
pub trait Number: Copy {
    ghost of_word: { ℕ → Self };

    ghost word: { Self → ℕ };

    fn of_word(w: u32) -> Self
        ensures { result ≡ of_word w };

    fn word(self) -> u32
        ensures { result ≡ word self };
}

impl Number for u32 {
    ghost of_word = { λ w. w };

    ghost word = { λ w. w };

    fn of_word(w: u32) -> u32 {
        w
    }

    fn word(self) -> u32 {
        self
    }
}

impl Number for i32 {
    ghost of_word = { signed };

    ghost word = { unsigned };

    fn of_word(w: u32) -> i32 {
        w.cast_signed()
    }

    fn word(self) -> u32 {
        self.cast_unsigned()
    }
}

// None is refusal 15, and that is exact: 12V and 12F are taken in 64 bits, where they cannot wrap.
pub fn read_sheet(b: &[u8]) -> Option<Sheet>
    ensures { result ≡ sheet_of b.now }
{
    let n = b.len();
    if n < 20 {
        return None;
    }
    let t = n - 20;
    if word_at(b, t) != 0 {
        return None;
    }
    let vertices = word_at(b, t + 4);
    if word_at(b, t + 8) as u64 != 12 * (vertices as u64) {
        return None;
    }
    let faces = word_at(b, t + 12);
    if n as u64 != 12 * (vertices as u64) + 12 * (faces as u64) + 20 {
        return None;
    }
    Some(Sheet {
        vertices,
        faces,
        levels: word_at(b, t + 16),
    })
}

pub fn vertex_block(b: &[u8]) -> &[u8]
    ensures { result.now ≡ vertex_block b.now }
{
    let Some(s) = read_sheet(b) else {
        return &b[..0];
    };
    &b[..12 * s.vertices as usize]
}

pub fn face_block(b: &[u8]) -> &[u8]
    ensures { result.now ≡ face_block b.now }
{
    let Some(s) = read_sheet(b) else {
        return &b[..0];
    };
    let start = 12 * s.vertices as usize;
    let end = start + 12 * s.faces as usize;
    &b[start..end]
}

// The numbers of a block, into the front of what is lent.
pub fn numbers_from<N: Number>(b: &[u8], n: usize, s: &mut [N])
    requires { (4 * n ≤ length b.now) × (n ≤ length s.old) }
    ensures { s.new ≡ sets s.old 0 (rows (λ k. N.of_word (word_at b.now (4 * k)) ∷ []) n) }
{
    for k in 0..n {
        s[k] = N::of_word(word_at(b, 4 * k));
    }
}
