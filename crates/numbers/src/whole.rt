// Whole numbers: the conversions between f32 and the 32-bit integers, the floor and the ceiling.
#![tactic(auto, unfolding(crate::specs::Whole::floor_of, crate::specs::Whole::ceil_of, crate::specs::Whole::part_of))]

ghost use Rattle.std.specs.Prelude.{◌≡◌, ◌+◌, ◌≤◌, false, not, T, pos, neg_ℤ, if◌then◌else◌};
ghost use Rattle.std.specs.Float.{fin, binary32};
ghost use Rattle.std.specs.Float.Ieee.{lt, to_signed, to_unsigned, of_int};
ghost use Rattle.numbers.specs.Words.{sign_of, signed};
ghost use Rattle.numbers.specs.Whole.{whole_of, floor_of, ceil_of, part_of, span_of};

use crate::words;

// a, of clear sign and below 2^23, as a whole number: rounded up or down. The floats from 2^23 to 2^24 are the whole numbers
// there, so the sum leaves no fraction, and n is less than 1 away from a.
fn near(up: bool, a: f32) -> f32
    requires unsigned { T (not (sign_of a)) }
    requires small { T (lt a (fin false 1 (pos 23))) }
    ensures { result ≡ whole_of up a }
{
    let n = a + 8388608.0 - 8388608.0;
    if up {
        if n < a { n + 1.0 } else { n }
    } else if a < n {
        n - 1.0
    } else {
        n
    }
}

// Rust's `k as f32`.
pub fn from_u32(k: u32) -> f32
    ensures { result ≡ of_int binary32 (pos k) }
{
    if k < 16777216 {
        k as f32
    } else {
        std::num::nearest_u32_to_f32(k)
    }
}

// A whole number of the u32, and the float nearest to it.
#[derive(Clone, Copy)]
pub struct Part {
    pub count: u32,
    pub value: f32,
}

// Rust's `x as u32`, and that as f32: at once, since the float comes first.
pub fn whole_part(x: f32) -> Part
    ensures { result ≡ part_of x }
{
    if x > 0.0 && x < 8388608.0 {
        let f = near(false, x);
        return Part {
            count: f as u32,
            value: f,
        };
    }
    let k = std::num::saturating_f32_to_u32(x);
    Part {
        count: k,
        value: from_u32(k),
    }
}

// Rust's `x as u32`.
pub fn to_u32(x: f32) -> u32
    ensures { result ≡ to_unsigned 32 x }
{
    whole_part(x).count
}

// a, or -a where s is true.
fn with_sign(s: bool, a: u32) -> i32
    requires { a ≤ 2147483647 }
    ensures { result ≡ (if s then neg_ℤ (pos a) else pos a) }
{
    if s { -(a as i32) } else { a as i32 }
}

// Rust's `x as i32`.
pub fn to_i32(x: f32) -> i32
    ensures { result ≡ to_signed 31 x }
{
    std::num::saturating_f32_to_i32(x)
}

// x as a whole number: away from zero, or towards it. From 2^23 on every float is whole.
fn to_whole(away: bool, x: f32) -> f32
    ensures { result ≡ whole_of away x }
{
    let a = words::abs(x);
    if a < 8388608.0 {
        words::turned(words::is_negative(x), near(away, a))
    } else {
        x
    }
}

pub fn floor(x: f32) -> f32
    ensures { result ≡ floor_of x }
{
    to_whole(words::is_negative(x), x)
}

pub fn ceil(x: f32) -> f32
    ensures { result ≡ ceil_of x }
{
    to_whole(!words::is_negative(x), x)
}

// The whole number k, or the next one: where that is wanted and there is more than k.
fn next(away: bool, more: bool, k: u32) -> u32
    requires { k ≤ 8388608 }
    ensures { result ≡ (if away then (if more then k + 1 else k) else k) }
{
    if away && more { k + 1 } else { k }
}

// x as a whole number, and that as i32: at once. The whole number below the size tells the one above, so that the
// floor and the ceiling of one x have nearly all their work in common.
fn to_whole_i32(away: bool, x: f32) -> i32
    ensures { result ≡ to_signed 31 (whole_of away x) }
{
    let a = words::abs(x);
    if a < 8388608.0 {
        let f = near(false, a);
        let k = next(away, f < a, f as u32);
        return with_sign(words::is_negative(x), k);
    }
    to_i32(x)
}

// Rust's `x.floor() as i32`.
pub fn floor_i32(x: f32) -> i32
    ensures { result ≡ to_signed 31 (floor_of x) }
{
    to_whole_i32(words::is_negative(x), x)
}

// Rust's `x.ceil() as i32`.
pub fn ceil_i32(x: f32) -> i32
    ensures { result ≡ to_signed 31 (ceil_of x) }
{
    to_whole_i32(!words::is_negative(x), x)
}

// The floor and the ceiling of a, or of -a where s is true, as i32: the whole numbers next to a, with the sign.
fn between(s: bool, a: f32) -> [i32; 2]
    requires unsigned { T (not (sign_of a)) }
    requires small { T (lt a (fin false 1 (pos 23))) }
    ensures { result ≡ span_of (signed s a) }
{
    let f = near(false, a);
    let k = f as u32;
    let m = next(true, f < a, k);
    if s {
        [with_sign(true, m), with_sign(true, k)]
    } else {
        [with_sign(false, k), with_sign(false, m)]
    }
}

// Rust's `x.floor() as i32` and `x.ceil() as i32`, at once. The sign is told by a test, since those of most points are alike.
pub fn span(x: f32) -> [i32; 2]
    ensures { result ≡ span_of x }
{
    if 0.0 < x && x < 8388608.0 {
        between(false, x)
    } else if x < 0.0 && -8388608.0 < x {
        between(true, -x)
    } else {
        [floor_i32(x), ceil_i32(x)]
    }
}
