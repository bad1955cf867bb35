// Request [13]: a whole mesh as Wavefront OBJ text, and that text read back. Judge, then act: no lent buffer is touched before the answer is known.
#![tactic(auto)]

ghost use Rattle.rules.specs.Calls.{given, lent};
ghost use Rattle.obj.specs.Calls.{TextCall, ListsCall};

use reading::pass;
use rules::Refusal;
use spots::Spot;
use writing::{face_lengths, objable, put_faces, put_vertices, vertex_lengths};

mod numbers;
mod reading;
mod writing;

// How many vertices and faces were read.
#[derive(Clone, Copy)]
pub struct Lists {
    pub vertices: u32,
    pub faces: u32,
}

// How many numbers a text has.
#[derive(Clone, Copy)]
struct Counted {
    coords: u32,
    corners: u32,
}

// A number that a byte ends.
#[derive(Clone, Copy)]
enum Held {
    Plus(u32),
    Less(u32),
    Corner(u32),
}

// A number that digits have made, and the place after them.
#[derive(Clone, Copy)]
struct Reached {
    n: u32,
    at: usize,
}

// A spot, and the place of the byte that it awaits.
#[derive(Clone, Copy)]
struct Stand {
    spot: Spot,
    at: usize,
}

// 25, then 22, then the text at the front of the buffer, and how many bytes it has.
pub fn write_obj(coords: &[i32], corners: &[u32], text: &mut [u8]) -> Result<u32, Refusal>
    ensures { TextCall (given coords) (given corners) (lent text) result }
{
    if !objable(coords, corners) {
        return Err(Refusal {
            number: 25,
            place: 0,
        });
    }
    let nv = coords.len() / 3;
    let nf = corners.len() / 3;
    let n = vertex_lengths(coords, nv) + face_lengths(corners, nf);
    if text.len() < n {
        return Err(Refusal {
            number: 22,
            place: 0,
        });
    }
    let at = put_vertices(text, coords, nv);
    put_faces(text, at, corners, nf);
    Ok(n as u32)
}

// 23, then 24, then the lists at the front of theirs: the text is read twice, since a refusal may write nothing. One function makes both passages: what it
// calls is then called from one place and inlined, and the spot stays in registers.
pub fn read_obj(text: &[u8], coords: &mut [i32], corners: &mut [u32]) -> Result<Lists, Refusal>
    ensures { ListsCall (given text) (lent coords) (lent corners) result }
{
    let mut no_coords = [0i32; 0];
    let mut no_corners = [0u32; 0];
    let seen = pass(text, &mut no_coords, &mut no_corners)?;
    if coords.len() < seen.coords as usize {
        return Err(Refusal {
            number: 24,
            place: 0,
        });
    }
    if corners.len() < seen.corners as usize {
        return Err(Refusal {
            number: 24,
            place: 0,
        });
    }
    pass(text, coords, corners)?;
    Ok(Lists {
        vertices: seen.coords / 3,
        faces: seen.corners / 3,
    })
}
