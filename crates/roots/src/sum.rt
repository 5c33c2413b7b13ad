// Roots of the sum of two squares: by a candidate that is checked, and digit by digit.
ghost use Rattle.std.specs.Prelude.{◌≡◌, ◌+◌, ◌*◌, ◌/◌, ◌^◌, ◌<◌, ◌≤◌, IfSome, from_bits};
ghost use Rattle.std.specs.Float.{binary32};
ghost use Rattle.roots.specs.Root.{hypot_of};
ghost use Rattle.roots.specs.Parts.{root_bits, mag_bits};

use crate::format::{Root, fields, pack};
use crate::square::{feed2, near};

// 4 ^ d.
fn fours(d: u32) -> u64
    requires { d ≤ 12 }
    ensures { result ≡ 4 ^ d }
{
    1 << d * 2
}

// The root of the sum of two squares, of patterns with the larger first, digit by digit: first the digits of m² + n² / 4 ^ d, then d + 1 more, those that
// the division dropped. Where the exponents are more than 12 apart it is the larger.
fn hypot_digits(a: u32, b: u32) -> u32
    requires { (b ≤ a) × (a < 0x7f80_0000) }
    ensures { root_bits 2 (mag_bits a * mag_bits a + mag_bits b * mag_bits b) result }
{
    let p = fields(a);
    let q = fields(b);
    let m = p.m as u64;
    let n = q.m as u64;
    let d = p.t - q.t;
    if d > 12 {
        return a;
    }
    let k = fours(d);
    let y = n * n;
    let s = feed2(Root { r: 0, e: 0 }, (m * m + y / k) * 4096, 25);
    let w = y % k * (0x4000_0000_0000_0000 / k);
    pack(feed2(s, w, d + 1), q.t as u64)
}

// The same. Two zeros come up often, in the scale of an even transform, so they are told at once.
pub(crate) fn hypot_bits(a: u32, b: u32) -> u32
    requires { (b ≤ a) × (a < 0x7f80_0000) }
    ensures { root_bits 2 (mag_bits a * mag_bits a + mag_bits b * mag_bits b) result }
{
    if a == 0 {
        return 0;
    }
    hypot_digits(a, b)
}

// The pattern of the root of x² + y², where a candidate settles it. In f64 the squares are exact, so their sum is rounded once.
// A zero x, and a y that is nothing beside x, its exponent 14 or more below, come up often and are told at once.
pub(crate) fn hypot_near(x: f32, y: f32) -> Option<u32>
    ensures { IfSome result (λ r. (r ≤ 0x7f80_0000) × (from_bits binary32 r ≡ hypot_of x y)) }
{
    if x.is_nan() || y.is_nan() {
        return None;
    }
    let a = f32::to_bits(x) % 0x8000_0000;
    let b = f32::to_bits(y) % 0x8000_0000;
    if a == 0 {
        return Some(b);
    }
    if b + 0x700_0000 < a {
        return Some(a);
    }
    let e = x as f64;
    let f = y as f64;
    let v = e * e + f * f;
    let j = std::num::wrapping_sub_u64(f64::to_bits(v), 0x3030_0000_0000_0000);
    if j < 0x1fc0_0000_0000_0000 {
        near(j)
    } else {
        None
    }
}
