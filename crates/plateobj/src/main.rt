// `plateobj`: a sheet from standard input; its plate as OBJ text, or the refusal, to standard output.
#![tactic(auto)]

ghost use Rattle.std.specs.Prelude.{◌≤◌, ◌≡◌, true, length};
ghost use Rattle.listing.specs.Text.{Put};
ghost use Rattle.rules.specs.Calls.{given};
ghost use Rattle.obj.specs.Form.{obj_text, has_text};
ghost use Rattle.plateobj.specs.Output.{plate_text, obj_output};

// Rooms as they are lent. Of each no more is told than its length, so that no proof walks through so long a list.
fn input_room() -> [u8; 98325]
    ensures { 98325 ≡ length result }
{
    [0; 98325]
}

fn text_room() -> [u8; 1900544]
    ensures { 1900544 ≡ length result }
{
    [0; 1900544]
}

fn positions_room() -> [i32; 98304]
    ensures { 98304 ≡ length result }
{
    [0; 98304]
}

fn indices_room() -> [u32; 98304]
    ensures { 98304 ≡ length result }
{
    [0; 98304]
}

fn words_room() -> [u32; 786432]
    ensures { 786432 ≡ length result }
{
    [0; 786432]
}

fn work_room() -> [i32; 196608]
    ensures { 196608 ≡ length result }
{
    [0; 196608]
}

// Lists that have a text, and room for the longest: neither 25 nor 22 is answered.
fn written(text: &mut [u8], positions: &[i32], indices: &[u32]) -> usize
    requires { (1900544 ≤ length text.old) × (has_text positions.now indices.now ≡ true) }
    ensures put { Put text.old 0 (obj_text (given positions) (given indices)) text.new result }
    ensures upper_bound { result ≤ length text.old }
{
    match obj::write_obj(positions, indices, text) {
        Ok(n) => n as usize,
        Err(r) => listing::refused_text(text, r),
    }
}

// Room for 32,768 faces and 32,768 vertices is lent, which is room for every plate; their text is at most 38 * 32768 + 20 * 32768 bytes.
fn plate(bytes: &[u8], text: &mut [u8]) -> usize
    requires { 1900544 ≤ length text.old }
    ensures put { Put text.old 0 (plate_text (given bytes)) text.new result }
    ensures upper_bound { result ≤ length text.old }
{
    let mut positions = positions_room();
    let mut indices = indices_room();
    let mut words = words_room();
    let mut work = work_room();
    match sheet::subdivide_sheet(bytes, &mut positions, &mut indices, &mut words, &mut work) {
        Err(r) => listing::refused_text(text, r),
        Ok(c) => {
            let nc = 3 * (c.vertices as usize);
            let nw = 3 * (c.faces as usize);
            written(text, &positions[..nc], &indices[..nw])
        }
    }
}

fn cut(bytes: &[u8], text: &mut [u8]) -> usize
    requires { 1900544 ≤ length text.old }
    ensures put { Put text.old 0 (obj_output (given bytes)) text.new result }
    ensures upper_bound { result ≤ length text.old }
{
    if bytes.len() > 98324 {
        return listing::refused_by(text, 16);
    }
    plate(bytes, text)
}

fn main() {
    let mut input = input_room();
    let n = listing::input(&mut input);
    let mut text = text_room();
    let k = cut(&input[..n], &mut text);
    listing::output(
        &text[..k],
        b"plateobj: the text could not be written whole. Do not cast from it.\n",
    );
}
