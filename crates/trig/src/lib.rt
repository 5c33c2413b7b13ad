// sin, cos, atan2, asin and acos of f32: fixed sequences of operations, each rounded once, as specs/Trig.antt gives them.
#![tactic(auto, unfolding(crate::specs::Trig::bounded_of, crate::specs::Trig::slope_of, crate::specs::Trig::angle_of, crate::specs::Trig::atan2_of, crate::specs::Trig::acos_near, crate::specs::Trig::arc_sine_of, crate::specs::Trig::arc_cosine_of, crate::specs::Trig::asin_of, crate::specs::Trig::acos_of, crate::specs::Trig::cos_of))]

ghost use Rattle.std.specs.Prelude.{◌≡◌, cond, ◌+◌, ◌-◌, ◌*◌, ◌/◌, ◌%◌, ◌^◌, ◌≤◌};
ghost use Rattle.std.specs.Float.{nan};
ghost use Rattle.std.specs.Float.Ieee.{lt};
ghost use Rattle.trig.specs.Trig.{infinity, bounded_of, quarters_of, two_over_pi, units_of, parted_of, large_of, reduced_of, sin_near, cos_near, wave_of, sin_of, cos_of, atan_near, slope_of, angle_of, atan2_of, asin_near, acos_near, arc_sine_of, arc_cosine_of, asin_of, acos_of};

use numbers::whole::{from_u32, whole_part};
use numbers::words::{abs, is_nan, is_negative, turned, word_of};
use roots::sqrt;

const HALF_PI: f32 = 1.57079637;

const PI: f32 = 3.14159274;

// 0.78125 squared: an angle with a smaller square is below 0.78125, whatever its sign.
const NEAR: f32 = 0.6103515625;

// v brought between lo and hi. A NaN becomes lo.
fn bounded(lo: f32, hi: f32, v: f32) -> f32
    ensures { result ≡ bounded_of lo hi v }
{
    if lo < v {
        if v < hi { v } else { hi }
    } else {
        lo
    }
}

// An angle: so many quarter turns, and a rest.
#[derive(Clone, Copy)]
struct Turn {
    quarters: u32,
    rest: f32,
}

// The whole number of quarter turns nearest to a, and what is left. A quarter turn has three parts: up to 652 of them, the
// products with the first two are exact.
fn quarters(a: f32) -> Turn
    ensures { result ≡ quarters_of a }
{
    let k = whole_part(a * 0.636619747 + 0.5);
    let f = k.value;
    let r = a - f * 1.57080078125 - f * -4.45451587e-6 - f * 6.07710063e-11;
    Turn {
        quarters: k.count,
        rest: r,
    }
}

// A word of 2/π: 160 binary digits before the point, which are 0, and 192 behind it, 32 to a word.
fn word(i: u64) -> u64
    ensures { result ≡ two_over_pi / 2 ^ (32 * (10 - i)) % 2 ^ 32 }
{
    match i {
        0 | 1 | 2 | 3 | 4 => 0,
        5 => 0xa2f9_836e,
        6 => 0x4e44_1529,
        7 => 0xfc27_57d1,
        8 => 0xf534_ddc0,
        9 => 0xdb62_9599,
        _ => 0x3c43_9041,
    }
}

// 32 digits of 2/π, behind so many others: they stand in two words.
fn digits(place: u64) -> u64
    requires { place ≤ 319 }
    ensures { result ≡ two_over_pi / 2 ^ (320 - place) % 2 ^ 32 }
{
    let i = place / 32;
    let pair = word(i) * 0x1_0000_0000 + word(i + 1);
    (pair >> (32 - place % 32)) % 0x1_0000_0000
}

// The quarter turns of a large angle and half a one more, in units of 2^-38; whole turns may be missing. Digits of 2/π before
// these 64 give whole turns, and those behind less than one unit.
fn units(b: u32) -> u64
    ensures { result % 2 ^ 40 ≡ units_of b % 2 ^ 40 }
{
    let m = (0x80_0000 + b % 0x80_0000) as u64;
    let e = (b / 0x80_0000 % 256) as u64;
    m * digits(e + 8) * 256 + m * digits(e + 40) / 0x100_0000 + 0x20_0000_0000
}

// So many units as whole quarter turns and a rest, the half taken off again. Both parts of the rest are exact as f32.
fn parted(u: u64) -> Turn
    ensures { result ≡ parted_of u }
{
    let f = u % 0x40_0000_0000;
    let high = from_u32((f / 0x8_0000) as u32);
    let low = from_u32((f % 0x8_0000) as u32);
    Turn {
        quarters: (u / 0x40_0000_0000 % 4) as u32,
        rest: (high - 262144.0) * 2.99605631e-6 + low * 5.71452391e-12,
    }
}

// The same as `quarters`, for an angle above 1024.
fn large(a: f32) -> Turn
    ensures { result ≡ large_of a }
{
    parted(units(word_of(a)))
}

// The sine and the cosine of an angle near 0.
fn sin_near(r: f32) -> f32
    ensures { result ≡ sin_near r }
{
    let z = r * r;
    ((-0.000194948792 * z + 0.00833205506) * z + -0.166666552) * (z * r) + r
}

fn cos_near(r: f32) -> f32
    ensures { result ≡ cos_near r }
{
    let z = r * r;
    ((-0.00135977037 * z + 0.0416564010) * z + -0.499999017) * z + 1.0
}

// sin of k quarter turns and r, from -1 to 1. All four are worked out and one is taken by its place, since no branch could be
// foreseen.
fn wave(k: u32, r: f32) -> f32
    ensures { result ≡ wave_of k r }
{
    let s = sin_near(r);
    let c = cos_near(r);
    let four = [s, c, -s, -c];
    bounded(-1.0, 1.0, four[(k % 4) as usize])
}

// sin of the angle t and one quarter turn more where on is 1. The sum cannot wrap.
fn turns(on: u32, t: Turn) -> f32
    requires { on ≤ 1 }
    ensures { result ≡ wave_of (t.quarters + on) t.rest }
{
    wave(t.quarters % 4 + on, t.rest)
}

// sin of an angle below 0.78125 and one quarter turn more where on is 1. Here the branch is worth its guess: only one of the sums is
// worked out.
fn near(on: u32, r: f32) -> f32
    requires { on ≤ 1 }
    ensures { result ≡ wave_of on r }
{
    if on == 0 {
        bounded(-1.0, 1.0, sin_near(r))
    } else {
        bounded(-1.0, 1.0, cos_near(r))
    }
}

// sin of an angle that is not negative and one quarter turn more where on is 1: a small angle is its own rest.
fn curve(on: u32, a: f32) -> f32
    requires { on ≤ 1 }
    ensures { result ≡ cond (lt a infinity) (wave_of ((reduced_of a).quarters + on) (reduced_of a).rest) nan }
{
    if a < 0.78125 {
        near(on, a)
    } else if a <= 1024.0 {
        turns(on, quarters(a))
    } else if a < f32::INFINITY {
        turns(on, large(a))
    } else {
        f32::NAN
    }
}

// Most angles are small, and the sum of such a one lies between the bounds and has its sign, unless it is a zero.
pub fn sin(x: f32) -> f32
    ensures { result ≡ sin_of x }
{
    if x * x < NEAR {
        let s = sin_near(x);
        if s != 0.0 {
            return s;
        }
    }
    turned(is_negative(x), curve(0, abs(x)))
}

// The sum of a small angle is above 0, and the same of either sign. Not one function with the sine: a near sum is no answer there where it
// is 0, here where it is too large, and the sine alone has a sign.
pub fn cos(x: f32) -> f32
    ensures { result ≡ cos_of x }
{
    if x * x < NEAR {
        let c = cos_near(x);
        if c < 1.0 {
            return c;
        }
    }
    curve(1, abs(x))
}

// The arc tangent of -1 to 1.
fn atan_near(t: f32) -> f32
    ensures { result ≡ atan_near t }
{
    let z = t * t;
    let w = z * z;
    let a = 0.199903980 * z + -0.333329856;
    let b = 0.105739325 * z + -0.141859725;
    let c = 0.0411220305 * z + -0.0736672208;
    let d = 0.00262226630 * z + -0.0151326312;
    (a + b * w + (c + d * w) * (w * w)) * (z * t) + t
}

// The same. Of a small number above 0 it is that number, and is told without powers of it, which may be subnormal: these take long on some processors.
fn atan_flat(t: f32) -> f32
    ensures { result ≡ atan_near t }
{
    if 0.0 < t && t < 0.00006103515625 {
        t
    } else {
        atan_near(t)
    }
}

// y / a, and 1 where they are equal, two infinities too.
fn slope(y: f32, a: f32) -> f32
    ensures { result ≡ slope_of y a }
{
    if y == a { 1.0 } else { y / a }
}

// The angle of the point (x, y), for a y that is not negative.
fn angle(y: f32, x: f32) -> f32
    ensures { result ≡ angle_of y x }
{
    let a = abs(x);
    let left = is_negative(x);
    if y == 0.0 {
        return if left { PI } else { 0.0 };
    }
    if a < y {
        return HALF_PI - atan_near(x / y);
    }
    let p = atan_flat(slope(y, a));
    if left { PI - p } else { p }
}

// Where |y| is below x, the sum of the slope itself is the angle, if it has the slope's sign. A smaller slope than 2^-14 is left to `angle`: powers of it
// may be subnormal, which take long on some processors.
pub fn atan2(y: f32, x: f32) -> f32
    ensures { result ≡ atan2_of y x }
{
    let a = abs(y);
    if a < x {
        let t = y / x;
        if 3.7252903e-9 <= t * t {
            let r = atan_near(t);
            if 0.0 < r * t {
                return r;
            }
        }
    }
    if is_nan(y) || is_nan(x) {
        return f32::NAN;
    }
    turned(is_negative(y), bounded(0.0, PI, angle(a, x)))
}

// The arc sine of s, up to a half, with z its square.
fn asin_near(z: f32, s: f32) -> f32
    ensures { result ≡ asin_near z s }
{
    let w = z * z;
    let a = 0.0749312490 * z + 0.166668117;
    let b = 0.0231411029 * z + 0.0457114875;
    (a + (b + 0.0437192582 * w) * w) * (z * s) + s
}

// The arc cosine of a, from a half to 1: twice the arc sine of √((1 - a) / 2).
fn acos_near(a: f32) -> f32
    ensures { result ≡ acos_near a }
{
    let z = (1.0 - a) * 0.5;
    let p = asin_near(z, sqrt(z));
    p + p
}

fn arc_sine(a: f32) -> f32
    ensures { result ≡ arc_sine_of a }
{
    if a <= 0.5 {
        asin_near(a * a, a)
    } else {
        HALF_PI - acos_near(a)
    }
}

fn arc_cosine(x: f32, a: f32) -> f32
    ensures { result ≡ arc_cosine_of x a }
{
    if a <= 0.5 {
        HALF_PI - asin_near(x * x, x)
    } else if 0.0 < x {
        acos_near(a)
    } else {
        PI - acos_near(a)
    }
}

pub fn asin(x: f32) -> f32
    ensures { result ≡ asin_of x }
{
    let a = abs(x);
    if a <= 1.0 {
        turned(is_negative(x), bounded(0.0, HALF_PI, arc_sine(a)))
    } else {
        f32::NAN
    }
}

// Not one function with the arc sine, whose bounds and sign are others: they share the test of a.
pub fn acos(x: f32) -> f32
    ensures { result ≡ acos_of x }
{
    let a = abs(x);
    if a <= 1.0 {
        bounded(0.0, PI, arc_cosine(x, a))
    } else {
        f32::NAN
    }
}
