// Roots of f32, correctly rounded: the f32 nearest the exact root, ties to even.
//
// The four functions here sort out NaN, infinities, zeros and signs. The pattern of a finite number above zero, its sign left off, goes to a module:
// `square` and `cube` for the roots of one number, `sum` for the root of a sum of squares, of which the candidate takes the numbers themselves.
// Each makes a candidate by float arithmetic and checks it exactly, by whole squares or cubes; where it is not surely the nearest, the root is
// taken digit by digit. `format` takes patterns apart and puts them together; its rounding is public.
// `cube` and all that it calls keep to products of 32 binary digits and to f32: `guess` makes its candidates, `narrow` checks them by parts.
// An f32 pattern has its exponent from 2 ^ 23 on, 0x80_0000, and from 0x7f80_0000 on it is no finite number's.
#![tactic(auto)]

mod cube;
pub mod format;
mod guess;
mod narrow;
mod square;
mod sum;

ghost use Rattle.std.specs.Prelude.{◌≡◌};
ghost use Rattle.roots.specs.Root.{sqrt_of, cbrt_of, two_thirds_of, hypot_of};

use crate::cube::{cbrt_bits, two_thirds_bits};
use crate::format::pattern;
use crate::square::{sqrt_bits, sqrt_digits};
use crate::sum::{hypot_bits, hypot_near};

// The square root. NaN below zero; a zero keeps its sign. A number above zero that is finite and not subnormal is told by one test.
pub fn sqrt(x: f32) -> f32
    ensures { result ≡ sqrt_of x }
{
    if x.is_nan() {
        return x;
    }
    let b = f32::to_bits(x);
    if std::num::wrapping_sub_u32(b, 0x80_0000) < 0x7f00_0000 {
        return f32::from_bits(sqrt_bits(b));
    }
    sqrt_rest(x)
}

// The square root of anything.
fn sqrt_rest(x: f32) -> f32
    ensures { result ≡ sqrt_of x }
{
    if x.is_nan() {
        return x;
    }
    let b = f32::to_bits(x);
    let a = b % 0x8000_0000;
    if a == 0 {
        return x;
    }
    if b >= 0x8000_0000 {
        return f32::NAN;
    }
    if a < 0x7f80_0000 {
        return f32::from_bits(sqrt_digits(a));
    }
    x
}

// The cube root, with x's sign.
pub fn cbrt(x: f32) -> f32
    ensures { result ≡ cbrt_of x }
{
    if x.is_nan() {
        return x;
    }
    let b = f32::to_bits(x);
    let a = b % 0x8000_0000;
    if a == 0 {
        return x;
    }
    if a < 0x7f80_0000 {
        return f32::from_bits(b / 0x8000_0000 * 0x8000_0000 + cbrt_bits(a));
    }
    x
}

// x ^ (2/3), the cube root of x's square. NaN below zero; +0 of either zero.
pub fn two_thirds(x: f32) -> f32
    ensures { result ≡ two_thirds_of x }
{
    if x.is_nan() {
        return x;
    }
    let b = f32::to_bits(x);
    let a = b % 0x8000_0000;
    if a == 0 {
        return 0.0;
    }
    if 0x8000_0000 <= b {
        return f32::NAN;
    }
    if a < 0x7f80_0000 {
        return f32::from_bits(two_thirds_bits(a));
    }
    x
}

// The root of x² + y². An infinity beside a NaN is an infinity.
pub fn hypot(x: f32, y: f32) -> f32
    ensures { result ≡ hypot_of x y }
{
    match hypot_near(x, y) {
        Some(r) => f32::from_bits(r),
        None => hypot_rest(x, y),
    }
}

// The same with no candidate.
fn hypot_rest(x: f32, y: f32) -> f32
    ensures { result ≡ hypot_of x y }
{
    let a = pattern(x);
    let b = pattern(y);
    let h = a.max(b);
    let l = a.min(b);
    if h < 0x7f80_0000 {
        return f32::from_bits(hypot_bits(h, l));
    }
    if a == 0x7f80_0000 || b == 0x7f80_0000 {
        return f32::INFINITY;
    }
    if a > 0x7f80_0000 { x } else { y }
}
