// An `f64` narrowed to an `f32`, by its bit pattern.
ghost use Rattle.std.specs.Prelude.{◌≡◌, ◌+◌, ◌^◌, ◌<◌, ◌≤◌, not, T, from_bits, nat_le, to_bits};
ghost use Rattle.std.specs.Float.{binary32, binary64};
ghost use Rattle.std.specs.Float.Ieee.{nan_bits};
ghost use Rattle.std.specs.Float.Ieee.Nearest.{closest};
ghost use Rattle.vectors.specs.Narrow.{narrowed, sign};

// q / 2^d to the nearest whole number, and at a tie to the even one.
fn dropped(q: u64, d: u64) -> u64
    requires { (0 < d) × (d < 54) × (q < 2 ^ 63) }
    ensures { result ≡ closest q (2 ^ d) }
{
    let half: u64 = 1 << (d - 1);
    let odd: u64 = (q >> d) % 2;
    (q + (half - 1) + odd) >> d
}

// The pattern of the `f32` nearest to the finite `f64` or the infinity with the pattern b, its sign's bit cleared.
// The f64 is digits * 2^(field - 1075), so in units of 2^-149, the least f32, digits * 2^(field - 926). From field 897 on the field itself is carried along:
// 896 is what the two formats' fields differ by.
fn magnitude(b: u64) -> u64
    requires { T (not (nan_bits binary64 b)) }
    ensures result_value { sign (nat_le (2 ^ 63) b) + result ≡ to_bits binary32 (narrowed (from_bits binary64 b)) }
    ensures upper_bound { result ≤ 0x7f80_0000 }
{
    let m: u64 = b % 0x8000_0000_0000_0000;
    if m < 0x3690_0000_0000_0000 {
        return 0;
    }
    if m < 0x3810_0000_0000_0000 {
        let digits: u64 = 0x10_0000_0000_0000 + m % 0x10_0000_0000_0000;
        return dropped(digits, 926 - m / 0x10_0000_0000_0000);
    }
    let n = dropped(m, 29) - 0x1_c000_0000;
    if n < 0x7f80_0000 { n } else { 0x7f80_0000 }
}

// The pattern of the `f32` nearest to x. A NaN's is 7FC00000.
pub fn pattern(x: f64) -> u32
    ensures { result ≡ to_bits binary32 (narrowed x) }
{
    if x != x {
        return 0x7fc0_0000;
    }
    let b: u64 = f64::to_bits(x);
    let n: u64 = b / 0x8000_0000_0000_0000 * 0x8000_0000 + magnitude(b);
    n as u32
}

// The `f32` nearest to x.
pub fn narrow(x: f64) -> f32
    ensures { result ≡ narrowed x }
{
    if x != x {
        return 0.0 / 0.0;
    }
    f32::from_bits(pattern(x))
}
