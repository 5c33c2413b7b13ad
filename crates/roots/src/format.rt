// The patterns of f32: their digits and exponents, and from the whole part of a root to the pattern of the nearest f32.
ghost use Rattle.std.specs.Prelude.{◌≡◌, ◌+◌, ◌-◌, ◌*◌, ◌%◌, ◌^◌, ◌<◌, ◌≤◌, min, to_bits};
ghost use Prim.Native.Nat.{compare};
ghost use Rattle.std.specs.Float.Ieee.{nearest, size};
ghost use Rattle.std.specs.Float.{binary32};
ghost use Rattle.roots.specs.Parts.{Parted, Fielded, Scaled, packed};

// A number m * 2 ^ t.
#[derive(Clone, Copy)]
pub(crate) struct Parts {
    pub(crate) m: u32,
    pub(crate) t: u32,
}

// The pattern of x without its sign; a NaN's is above the infinity's.
pub(crate) fn pattern(x: f32) -> u32
    ensures { result ≡ to_bits binary32 x % 2 ^ 31 }
{
    std::num::f32_to_bits_with_nan(x) % 0x8000_0000
}

// n * 2 ^ 149 with all 24 digits in m: a subnormal's digits moved up, counted place by place, since
// `leading_zeros` is a routine on some of the processors that `cube` is for (tools/narrow-test).
fn scale(n: u32) -> Parts
    requires { (0 < n) × (n < 2 ^ 23) }
    ensures { Scaled (n * 2 ^ 149) result.m result.t }
{
    let mut m = n;
    let mut t = 149u32;
    while m < 0x80_0000 {
        m = m * 2;
        t = t - 1;
    }
    Parts { m, t }
}

// The finite f32 above zero with the pattern b, in units of 2 ^ -298: all 24 digits are in m.
pub(crate) fn unpack(b: u32) -> Parts
    requires { (0 < b) × (b < 0x7f80_0000) }
    ensures { Parted b result.m result.t }
{
    let x = b / 0x80_0000;
    let f = b % 0x80_0000;
    if x == 0 {
        scale(f)
    } else {
        Parts {
            m: f + 0x80_0000,
            t: x + 148,
        }
    }
}

// The finite f32 with the pattern b, in units of 2 ^ -149: a subnormal keeps its few digits, which `unpack` moves up.
pub(crate) fn fields(b: u32) -> Parts
    requires { b < 0x7f80_0000 }
    ensures { Fielded b result.m result.t }
{
    let x = b / 0x80_0000;
    let f = b % 0x80_0000;
    if x == 0 {
        Parts { m: f, t: 0 }
    } else {
        Parts {
            m: f + 0x80_0000,
            t: x - 1,
        }
    }
}

// A root's whole part r and its remainder e: the number is r ^ k + e.
#[derive(Clone, Copy)]
pub(crate) struct Root {
    pub(crate) r: u64,
    pub(crate) e: u64,
}

// How many binary digits of r are past its first 25: of 64 digits 39 are.
fn spare(r: u64) -> u32
    requires { r < 2 ^ 40 }
    ensures { (result ≡ size r - 25) × (result ≤ 15) }
{
    u32::saturating_sub(39, u64::leading_zeros(r))
}

// q or the next number, as r is to the middle m, and at the middle the even one. A remainder e counts as more than r. Behind the
// last number comes 0.
pub fn to_nearest(q: u64, r: u64, m: u64, e: u64) -> u64
    ensures { (result ≡ nearest q (compare (2 * r + min e 1) (2 * m)) % 2 ^ 64) × (result ≤ q + 1) }
{
    if r < m {
        q
    } else if m < r || e > 0 {
        q.wrapping_add(1)
    } else {
        q.wrapping_add(q % 2)
    }
}

// The pattern of the f32 nearest to a root of which s has a digit more than the 24 that an f32 keeps, in units of 2 ^ (c - 150). Past the largest f32 it is
// the infinity's.
pub(crate) fn pack(s: Root, c: u64) -> u32
    requires { (s.r < 2 ^ 40) × (c ≤ 1000) }
    ensures { result ≡ packed s.r s.e c }
{
    let i = spare(s.r);
    let q = s.r >> i >> 1;
    let n = to_nearest(q, s.r, (q * 2 + 1) << i, s.e);
    let b = (c + i as u64) * 0x80_0000 + n;
    b.min(0x7f80_0000) as u32
}

// The first 24 binary digits of s, rounded: a candidate. The sum is a wrapping one only so that nothing need be known of s.
pub(crate) fn leading(s: f64) -> u64
    ensures { (2 ^ 23 ≤ result) × (result < 2 ^ 24) }
{
    let b = std::num::f64_to_bits_with_nan(s);
    b.wrapping_add(0x1000_0000) / 0x2000_0000 % 0x80_0000 + 0x80_0000
}
