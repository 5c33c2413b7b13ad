// Whole squares and cubes by products of parts, none above 32 binary digits. Shifts and sums put the parts together.
ghost use Rattle.std.specs.Prelude.{◌≡◌, ◌+◌, ◌*◌, ◌^◌, ◌<◌, ◌≤◌, true};
ghost use Rattle.roots.specs.Parts.{CubeNear, Cubed};

// A square: its last 16 digits, and what stands before them.
#[derive(Clone, Copy)]
struct Halves {
    high: u32,
    low: u32,
}

// q². With q = h * 2 ^ 16 + l it is h * (q + l) * 2 ^ 16 + l².
fn square(q: u32) -> Halves
    requires { q < 2 ^ 24 }
    ensures { (result.high * 2 ^ 16 + result.low ≡ q * q) × (result.low < 2 ^ 16) }
{
    let h = q / 0x1_0000;
    let l = q % 0x1_0000;
    let w = l * l;
    Halves {
        high: h * (q + l) + w / 0x1_0000,
        low: w % 0x1_0000,
    }
}

// n * q, by parts of 16 digits.
fn product(n: u32, q: u32) -> u64
    requires { q < 2 ^ 24 }
    ensures { result ≡ n * q }
{
    let a = n / 0x1_0000;
    let b = n % 0x1_0000;
    let h = q / 0x1_0000;
    let l = q % 0x1_0000;
    let high = ((a * h) as u64) << 32;
    let mid = ((a * l) as u64 + (b * h) as u64) << 16;
    high + mid + (b * l) as u64
}

// Whether q is surely the nearest to the cube root of t * 2 ^ 22, that is (2 q - 1)³ < t * 2 ^ 25 < (2 q + 1)³, or |t * 2 ^ 24 - 4 q³ - 3 q| <= 6 q². It is tested in units
// of 2 ^ 18: c has lost less than 2 ^ 16 of them, 3 q is less than 2 ^ 8 of them. So a few good candidates are ruled out, and no bad one is let in.
pub(crate) fn is_near(q: u32, t: u64) -> bool
    requires { (q < 2 ^ 24) × (t < 2 ^ 50) }
    ensures { result ≡ true → CubeNear t q }
{
    let s = square(q);
    let n = s.high;
    let c = product(n, q) + (s.low * (q / 0x1_0000)) as u64;
    let u = n as u64 + (n / 2) as u64;
    let d = t << 6;
    d <= c + u && c + 0x1_0100 <= d + u
}

// m² * w, by parts of 12 digits.
pub(crate) fn square_times(m: u32, w: u32) -> u64
    requires { (m < 2 ^ 24) × (w ≤ 8) }
    ensures { result ≡ m * m * w }
{
    let h = m / 0x1000;
    let l = m % 0x1000;
    let high = ((h * h * w) as u64) << 24;
    let mid = ((h * l * w) as u64) << 13;
    high + mid + (l * l * w) as u64
}

// A cube root's whole part r, 3 r, 3 r² + 3 r, and the remainder e: the number is r³ + e. With these no step takes twelve or six times anything, of which a compiler
// makes a wide product even where it is written in shifts and sums.
#[derive(Clone, Copy)]
struct Digits {
    r: u64,
    triple: u64,
    most: u64,
    e: u64,
}

// One more digit of a cube root: the number gets three binary digits more, g. The root is 2 r + 1 where (2 r + 1)³ = 8 r³ + 12 r² + 6 r + 1 is still in it, else 2 r.
fn step3(x: Digits, g: u64) -> Digits
    requires { (x.r < 2 ^ 25) × (x.triple ≡ 3 * x.r) × (x.most ≡ 3 * (x.r * x.r) + 3 * x.r) × (x.e ≤ 3 * (x.r * x.r) + 3 * x.r) × (g < 8) }
    ensures { Cubed ((x.r * x.r * x.r + x.e) * 8 + g) result.r result.e × (result.triple ≡ 3 * result.r) × (result.most ≡ 3 * (result.r * result.r) + 3 * result.r) × (result.r ≤ 2 * x.r + 1) }
{
    let r = x.r + x.r;
    let triple = x.triple + x.triple;
    let most = x.most << 2;
    let n = (x.e << 3) + g;
    let less = most - triple;
    if less < n {
        Digits {
            r: r + 1,
            triple: triple + 3,
            most: most + triple + 6,
            e: n - less - 1,
        }
    } else {
        Digits {
            r,
            triple,
            most: less,
            e: n,
        }
    }
}

// 25 digits of the cube root of t * 2 ^ 25, taken three at a time from the top of 63.
fn root25(t: u64) -> Digits
    requires { t < 2 ^ 50 }
    ensures { Cubed (t * 2 ^ 25) result.r result.e × (result.r < 2 ^ 25) }
{
    let mut x = Digits {
        r: 0,
        triple: 0,
        most: 0,
        e: 0,
    };
    let mut w = t << 13;
    for _ in 0..25u32 {
        let g = w >> 60;
        x = step3(x, g);
        w = (w - (g << 60)) << 3;
    }
    x
}

// The 24 digits nearest to the cube root of t * 2 ^ 22, half of that of t * 2 ^ 25. That is even, so it is no cube of an odd number, and never in the middle.
pub(crate) fn by_digits(t: u64) -> u32
    requires { (0 < t) × (t < 2 ^ 50) }
    ensures { CubeNear t result }
{
    let x = root25(t);
    (x.r + 1 >> 1) as u32
}
