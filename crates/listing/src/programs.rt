// What every program does around its own call: the whole of standard input into a lent buffer, its text to standard output.
// Stays: crate `io`, not std's `Read` and `Write`, which read the system's error number: one more function of C assumed under each program (docs/TRUST.md, Axioms).
ghost use Rattle.std.specs.Prelude.{◌≡◌};
ghost use Rattle.io.specs.Counts.{IsPrefixLen};

use rules::Refusal;

pub const STDIN_FILENO: i32 = 0;

pub const STDOUT_FILENO: i32 = 1;

pub const STDERR_FILENO: i32 = 2;

// Standard input, as much of it as there is room for. A program lends one byte more than its most, so that 16 can be told.
pub fn input(room: &mut [u8]) -> usize
    ensures { IsPrefixLen result room.new }
{
    io::read_full(STDIN_FILENO, room)
}

// Bytes to standard output, or the warning to standard error where they could not be written whole.
pub fn output(bytes: &[u8], not_whole: &[u8]) {
    if !io::write_all(STDOUT_FILENO, bytes) {
        complain(not_whole);
    }
}

// To standard error. Where that fails too, nobody is left to be told.
pub fn complain(text: &[u8]) {
    io::write_all(STDERR_FILENO, text);
}

// The line of a refusal to standard error.
pub fn complain_of(refusal: Refusal) {
    let mut text = [0u8; 53];
    let k = crate::refused_text(&mut text, refusal);
    complain(&text[..k]);
}
