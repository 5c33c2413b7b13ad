// Candidates for cube roots, by f32 arithmetic. Nothing is claimed of them: whoever uses them checks them.
ghost use Rattle.std.specs.Prelude.{◌^◌, ◌<◌, ◌≤◌};

// About 2 ^ (r / 3). A choice among three would branch.
fn lift(r: u32) -> f32
    requires { r < 3 }
{
    f32::from_bits(0x3f80_0000 + r * (r * 138 + 927) * 2048)
}

// v to ten binary digits after the point, of v from 0 to 4096: the sum has no more.
fn cut(v: f32) -> f32 {
    v + 12288.0 - 12288.0
}

// The cube root of v * 2 ^ r to ten digits after the point, of v from 1 to 2: the polynomial is within 2 ^ -10.6 of that of v.
fn start(v: f32, r: u32) -> f32
    requires { r < 3 }
{
    cut((0.6215136 + v * (0.43944185 - v * 0.0603194)) * lift(r))
}

// A step from h, which has few digits, to the cube root of a - b, by Halley's rule. What is left, a - b - h³, is worked out by parts of h² that lose nothing.
fn improved(h: f32, a: f32, b: f32) -> f32 {
    let s = h * h;
    let t = cut(s);
    let c = s * h;
    let left = a - t * h - (s - t) * h - b;
    h + h * (left / (c + c + (a - b)))
}

// The 24 digits of v, from 1 to 2.
fn digits(v: f32) -> u32
    ensures { (2 ^ 23 ≤ result) × (result < 2 ^ 24) }
{
    std::num::f32_to_bits_with_nan(v) % 0x80_0000 + 0x80_0000
}

// 24 digits that may be those of the cube root of m * 2 ^ r.
pub(crate) fn cbrt_guess(m: u32, r: u32) -> u32
    requires { (m < 2 ^ 24) × (r < 3) }
    ensures { (2 ^ 23 ≤ result) × (result < 2 ^ 24) }
{
    let v = f32::from_bits(m + 0x3f00_0000);
    let a = f32::from_bits(m + 0x3f00_0000 + r * 0x80_0000);
    digits(improved(start(v, r), a, 0.0))
}

// 24 digits that may be those of the cube root of m² * 2 ^ (r - g). The square is taken from a part of m with 12 digits, the rest of it apart.
pub(crate) fn two_thirds_guess(m: u32, g: u32, r: u32) -> u32
    requires { (m < 2 ^ 24) × (g ≤ 1) × (r < 3) }
    ensures { (2 ^ 23 ≤ result) × (result < 2 ^ 24) }
{
    let v = f32::from_bits(m + 0x3f00_0000);
    let h = f32::from_bits(m / 0x1000 * 0x1000 + 0x3f00_0000);
    let half = f32::from_bits(0x3f80_0000 - g * 0x80_0000);
    let w = f32::from_bits(0x3f80_0000 - g * 0x80_0000 + r * 0x80_0000);
    digits(improved(start(v * v * half, r), h * h * w, (h - v) * (h + v) * w))
}
