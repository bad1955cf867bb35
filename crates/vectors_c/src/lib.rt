// Crate `vectors` for C (tests/leaves.c), which compares it with its own arithmetic: one conversion and one cross product.
#![tactic(auto)]

ghost use Rattle.std.specs.Prelude.{◌≡◌, to_bits};
ghost use Rattle.std.specs.Float.{binary32};
ghost use Rattle.vectors.specs.Narrow.{narrowed};
ghost use Rattle.vectors.specs.Vectors.{cross};

use vectors::Vec3;

#[unsafe(no_mangle)]
pub extern "C" fn vectors_narrow(x: f64) -> u32
    ensures { result ≡ to_bits binary32 (narrowed x) }
{
    vectors::narrow::pattern(x)
}

#[unsafe(no_mangle)]
pub extern "C" fn vectors_cross(a: Vec3, b: Vec3) -> Vec3
    ensures { result ≡ cross a b }
{
    a.cross(b)
}
