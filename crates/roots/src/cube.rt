// Cube roots, of a number and of a square, with no product above 32 binary digits, no f64 and no wide division: for processors that have none of these.
//
// A candidate is made by f32 arithmetic (`guess`) and checked by whole numbers (`narrow`). Where it is not surely the nearest its neighbours are tried, and behind these
// the root is taken digit by digit. `tools/narrow-test` holds the compiled functions to the rule.
ghost use Rattle.std.specs.Prelude.{◌≡◌, ◌*◌, ◌/◌, ◌^◌, ◌<◌, ◌≤◌};
ghost use Rattle.roots.specs.Parts.{CubeNear, root_bits, mag_bits, long_square};

use crate::format::unpack;
use crate::guess::{cbrt_guess, two_thirds_guess};
use crate::narrow::{by_digits, is_near, square_times};

// The 24 digits nearest to the cube root of t * 2 ^ 22: a candidate or one of its neighbours where these are surely it, else digit by digit.
fn settled(q: u32, t: u64) -> u32
    requires { (2 ^ 23 ≤ q) × (q < 2 ^ 24) × (0 < t) × (t < 2 ^ 50) }
    ensures { CubeNear t result }
{
    if is_near(q, t) {
        q
    } else if is_near(q - 1, t) {
        q - 1
    } else if q < 0xff_ffff && is_near(q + 1, t) {
        q + 1
    } else {
        by_digits(t)
    }
}

// n / 3, without a division: 683 / 2048 is so little above a third that nothing is lost below 2048.
fn third(n: u32) -> u32
    requires { n < 2048 }
    ensures { result ≡ n / 3 }
{
    n * 683 / 2048
}

// 2 ^ n, of n below 4.
fn power(n: u32) -> u32
    requires { n < 4 }
    ensures { result ≡ 2 ^ n }
{
    1 << n
}

// The cube root. Eight times the number is m * 2 ^ (x + 49), x being from 229 to 505; that is t * 2 ^ 25 * 8 ^ d, with 48 to 50 digits in t.
pub(crate) fn cbrt_bits(b: u32) -> u32
    requires { (0 < b) × (b < 0x7f80_0000) }
    ensures { root_bits 3 (mag_bits b * 2 ^ 298) result }
{
    let p = unpack(b);
    let m = p.m;
    let x = p.t + 103;
    let d = third(x);
    let r = x - d * 3;
    let t = ((m * power(r)) as u64) << 24;
    d * 0x80_0000 + settled(cbrt_guess(m, r), t)
}

// 1 where the square of m has 48 digits, 0 where it has 47: √2 * 2 ^ 23 lies between 11863283 and 11863284.
fn long_square(m: u32) -> u32
    ensures { (result ≡ long_square m) × (result ≤ 1) }
{
    if m < 11863284 { 0 } else { 1 }
}

// x ^ (2/3), the cube root of x's square. Eight times the square is m² * 2 ^ (x + 26 - g), that is t * 2 ^ 25 * 8 ^ d, with 48 to 50 digits in t.
pub(crate) fn two_thirds_bits(b: u32) -> u32
    requires { (0 < b) × (b < 0x7f80_0000) }
    ensures { root_bits 3 (mag_bits b * mag_bits b * 2 ^ 149) result }
{
    let p = unpack(b);
    let m = p.m;
    let g = long_square(m);
    let x = p.t * 2 - 172 + g;
    let d = third(x);
    let r = x - d * 3;
    let t = square_times(m, power(r + 1 - g));
    d * 0x80_0000 + settled(two_thirds_guess(m, g, r), t)
}
