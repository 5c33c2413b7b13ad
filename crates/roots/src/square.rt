// Square roots: by a candidate that is checked, and digit by digit.
ghost use Rattle.std.specs.Prelude.{◌≡◌, ◌+◌, ◌*◌, ◌/◌, ◌^◌, ◌<◌, ◌≤◌, IfSome};
ghost use Rattle.roots.specs.Parts.{Squared, Settled, root_bits, mag_bits};

use crate::format::{Root, leading, pack, unpack};

// One more digit of a square root: the number gets two binary digits more, g. The root is 2 r + 1 where (2 r + 1)² = 4 r² + 4 r + 1 is still in it, else 2 r.
fn step2(s: Root, g: u64) -> Root
    requires { (s.r < 2 ^ 40) × (s.e ≤ 2 * s.r) × (g < 4) }
    ensures { Squared ((s.r * s.r + s.e) * 4 + g) result.r result.e × (result.r ≤ 2 * s.r + 1) }
{
    let n = s.e * 4 + g;
    let t = s.r * 4 + 1;
    if t <= n {
        Root {
            r: s.r * 2 + 1,
            e: n - t,
        }
    } else {
        Root { r: s.r * 2, e: n }
    }
}

// n more digits of a square root, from `digits` taken two at a time from the top of 62.
pub(crate) fn feed2(s: Root, digits: u64, n: u32) -> Root
    requires { (s.e ≤ 2 * s.r) × ((s.r + 1) * 2 ^ n ≤ 2 ^ 40) × (digits < 2 ^ 62) }
    ensures { Squared (((s.r * s.r + s.e) * 2 ^ 62 + digits) * 4 ^ n / 2 ^ 62) result.r result.e }
{
    let mut s = s;
    let mut w = digits;
    for _ in 0..n {
        s = step2(s, w / 0x1000_0000_0000_0000);
        w = w % 0x1000_0000_0000_0000 * 4;
    }
    s
}

// The square root, digit by digit. Four times the number is m * 2 ^ (t + 2), which is m * 2 ^ u * 4 ^ c with u = 25 or 26: the root of m * 2 ^ u has 25 digits.
pub(crate) fn sqrt_digits(b: u32) -> u32
    requires { (0 < b) × (b < 0x7f80_0000) }
    ensures { root_bits 2 (mag_bits b * 2 ^ 149) result }
{
    let p = unpack(b);
    let t = p.t as u64;
    let w = p.m as u64 * (0x40_0000_0000 - t % 2 * 0x20_0000_0000);
    let s = feed2(Root { r: 0, e: 0 }, w, 25);
    pack(s, (t - 23) / 2)
}

// 24 digits that may be those of the square root of the f64 with the pattern i: its caller checks them. b is within 2 ^ -10 of the reciprocal root, so w is near 1;
// the root is t / √w, and 1 / √w to the second order about 1 is within 2 ^ -30.
pub(crate) fn guess2(i: u64) -> u64
    requires { i < 0x7ff0_0000_0000_0000 }
    ensures { (2 ^ 23 ≤ result) × (result < 2 ^ 24) }
{
    let v = f64::from_bits(i);
    let a = f64::from_bits(0x5fe4_0000_0000_0000 - i / 2);
    let b = a * (1.6819141 - v * 0.703952253 * a * a);
    let t = v * b;
    let w = t * b;
    leading(t * (1.875 - w * (1.25 - 0.375 * w)))
}

// The pattern of the f32 nearest to the square root of an f64, where a candidate q settles it. The f64's pattern is j past that of 2 ^ -252, the least whose
// root is no subnormal. The f64 is s * 4 ^ d with s of 47 or 48 digits and a fraction dropped, and q is the nearest where (q - 1/2)² < s and s + 1 < (q + 1/2)²,
// that is q² - q < s < q² + q. One comparison tells it of all such s but the largest: a difference below zero wraps to a large one.
pub(crate) fn near(j: u64) -> Option<u32>
    requires { j < 508 * 2 ^ 52 }
    ensures { IfSome result (Settled j) }
{
    let q = guess2(j + 0x3030_0000_0000_0000);
    let m = j % 0x10_0000_0000_0000 + 0x10_0000_0000_0000;
    let s = (m << j / 0x10_0000_0000_0000 % 2) / 64;
    let h = q - 1;
    if std::num::wrapping_sub_u64(s + h, q * q) / 2 < h {
        Some((j / 0x20_0000_0000_0000 * 0x80_0000 + q) as u32)
    } else {
        None
    }
}

// The square root of a number that is not subnormal: by a candidate, else digit by digit.
pub(crate) fn sqrt_bits(b: u32) -> u32
    requires { (2 ^ 23 ≤ b) × (b < 0x7f80_0000) }
    ensures { root_bits 2 (mag_bits b * 2 ^ 149) result }
{
    match near(b as u64 * 0x2000_0000 + 0x7d0_0000_0000_0000) {
        Some(r) => r,
        None => sqrt_digits(b),
    }
}
