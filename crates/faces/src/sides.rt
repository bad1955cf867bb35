// Kinds of numbers, sides s = 3 f + k as in crate `rules`, and what lies across one.
ghost use Rattle.std.specs.Prelude.{◌≡◌, ◌<◌};
ghost use Rattle.rules.specs.Mesh as mesh;
ghost use Rattle.faces.specs.Faces.{face_link};
ghost use Rattle.faces.specs.Words.{link_of};

// A vertex number and a face number are distinct kinds.
#[derive(Clone, Copy, PartialEq, Eq)]
pub struct VertNo(pub u32);

#[derive(Clone, Copy, PartialEq, Eq)]
pub struct FaceNo(pub u32);

// What lies across a side: a face, or none at the rim.
pub type Link = Option<FaceNo>;

pub fn decode(x: u32) -> Link
    ensures { result ≡ face_link (link_of x) }
{
    if x == 0 {
        None
    } else {
        Some(FaceNo((x - 1) / 3))
    }
}

// The side after s in its face.
pub fn onward(s: usize) -> usize
    requires { mesh.onward s < 18446744073709551616 }
    ensures { result ≡ mesh.onward s }
{
    let t = s + 1;
    if t % 3 == 0 { t - 3 } else { t }
}

// The side before it.
pub fn backward(s: usize) -> usize
    requires { mesh.backward s < 18446744073709551616 }
    ensures { result ≡ mesh.backward s }
{
    if s % 3 == 0 { s + 2 } else { s - 1 }
}
