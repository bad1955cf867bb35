// Points of three floats, by value, and their operators as the Rust has them.
#![tactic(auto)]

ghost use Rattle.std.specs.Prelude.{◌≡◌};
ghost use Rattle.vectors.specs.Vectors.{plus, minus, negated, scaled, minor, cross};

pub mod narrow;

use std::ops::{Add, Mul, Neg, Sub};

#[repr(C)]
#[derive(Clone, Copy, Default)]
pub struct Vec3 {
    pub x: f32,
    pub y: f32,
    pub z: f32,
}

impl Add for Vec3 {
    type Output = Vec3;

    ghost add_gives = { λ a b r. r ≡ plus a b };

    fn add(self, b: Vec3) -> Vec3 {
        Vec3 {
            x: self.x + b.x,
            y: self.y + b.y,
            z: self.z + b.z,
        }
    }
}

impl Sub for Vec3 {
    type Output = Vec3;

    ghost sub_gives = { λ a b r. r ≡ minus a b };

    fn sub(self, b: Vec3) -> Vec3 {
        Vec3 {
            x: self.x - b.x,
            y: self.y - b.y,
            z: self.z - b.z,
        }
    }
}

impl Neg for Vec3 {
    type Output = Vec3;

    ghost neg_gives = { λ a r. r ≡ negated a };

    fn neg(self) -> Vec3 {
        Vec3 {
            x: -self.x,
            y: -self.y,
            z: -self.z,
        }
    }
}

// A point times a number, in this order.
impl Mul<f32> for Vec3 {
    type Output = Vec3;

    ghost mul_gives = { λ a k r. r ≡ scaled a k };

    fn mul(self, k: f32) -> Vec3 {
        Vec3 {
            x: self.x * k,
            y: self.y * k,
            z: self.z * k,
        }
    }
}

impl Vec3 {
    pub fn cross(self, b: Vec3) -> Vec3
        ensures { result ≡ cross self b }
    {
        Vec3 {
            x: minor(self.y, b.z, self.z, b.y),
            y: minor(self.z, b.x, self.x, b.z),
            z: minor(self.x, b.y, self.y, b.x),
        }
    }
}

// An `f32` as an `f64`, a NaN too.
fn wide(x: f32) -> f64
    ensures { result ≡ x }
{
    std::num::f32_to_f64_with_nan(x)
}

fn minor(a: f32, b: f32, c: f32, d: f32) -> f32
    ensures { result ≡ minor a b c d }
{
    narrow::narrow(wide(a) * wide(b) - wide(c) * wide(d))
}
