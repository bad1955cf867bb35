// What the programs that cut a plate do, by either engine: the bytes of a sheet in, the text of its plate or of the refusal out.
#![tactic(auto)]

ghost use Rattle.std.specs.Prelude.{◌≤◌, length};
ghost use Rattle.listing.specs.Text.{Put};
ghost use Rattle.cutting.specs.Output.{plate_text, cut_text};

use sheet::Engine;

// Room for 512 faces and 512 vertices is lent; their text is at most 68 + 68 * 512 + 65 * 512 bytes.
fn plate<E: Engine>(bytes: &[u8], text: &mut [u8]) -> usize
    requires { 68164 ≤ length text.old }
    ensures put { Put text.old 0 (plate_text bytes.now) text.new result }
    ensures upper_bound { result ≤ length text.old }
{
    let mut positions = [0i32; 1536];
    let mut indices = [0u32; 1536];
    let mut words = [0u32; 12288];
    let mut work = [0i32; 3072];
    match sheet::subdivide_by::<E>(bytes, &mut positions, &mut indices, &mut words, &mut work) {
        Err(r) => listing::refused_text(text, r),
        Ok(c) => {
            let nc = 3 * (c.vertices as usize);
            let nw = 3 * (c.faces as usize);
            listing::mesh_text(text, c, &positions[..nc], &indices[..nw])
        }
    }
}

fn cut<E: Engine>(bytes: &[u8], text: &mut [u8]) -> usize
    requires { 68164 ≤ length text.old }
    ensures put { Put text.old 0 (cut_text bytes.now) text.new result }
    ensures upper_bound { result ≤ length text.old }
{
    if bytes.len() > 32768 {
        return listing::refused_by(text, 16);
    }
    plate::<E>(bytes, text)
}

// A whole program: a sheet from standard input; its text to standard output, or the warning to standard error where it could not be written whole.
pub fn run<E: Engine>(not_whole: &[u8]) {
    let mut input = [0u8; 32769];
    let n = listing::input(&mut input);
    let mut text = [0u8; 68164];
    let k = cut::<E>(&input[..n], &mut text);
    listing::output(&text[..k], not_whole);
}
