// Whether two coordinates differ by at most a whole number of units, exactly. See specs/Near.antt.
ghost use Rattle.std.specs.Prelude.{◌≡◌, ◌+◌, ◌-◌, ◌≤◌, leb, ltb};
ghost use Rattle.mender.specs.Near.{steps, is_near};
ghost use Rattle.mender.specs.Scaled.{value_of, half_of, low_of, carry_of};

// The whole number digits * 2^shift, which may be far wider than a word. As roots' `Parts` and svg's `Shifted` it is two words, but
// each crate says another thing of them, and none of the three uses another.
#[derive(Clone, Copy)]
pub struct Scaled {
    pub digits: u32,
    pub shift: u32,
}

// A coordinate's magnitude in steps of 2^-149.
fn steps_of(w: u32) -> Scaled
    ensures { value_of result ≡ steps w }
{
    let exponent = w % 2147483648 / 8388608;
    let digits = w % 8388608;
    if exponent == 0 {
        Scaled { digits, shift: 0 }
    } else {
        Scaled {
            digits: 8388608 + digits,
            shift: exponent - 1,
        }
    }
}

// Half of it, rounded down.
fn half(n: Scaled) -> Scaled
    ensures { result ≡ half_of n }
{
    let digits = n.digits;
    let shift = n.shift;
    if shift == 0 {
        Scaled {
            digits: digits / 2,
            shift: 0,
        }
    } else {
        Scaled {
            digits,
            shift: shift - 1,
        }
    }
}

// What halving leaves over.
fn low(n: Scaled) -> u32
    ensures { result ≡ low_of n }
{
    let digits = n.digits;
    let shift = n.shift;
    if shift == 0 { digits % 2 } else { 0 }
}

// What is carried on when all three are halved.
fn carried(u: Scaled, v: Scaled, w: Scaled, carry: u32) -> u32
    requires { carry ≤ 2 }
    ensures { result ≡ carry_of u v w carry }
{
    (carry + 1 + low(v) + low(w) - low(u)) / 2
}

// 0 exactly where all three are 0.
fn digits_of(u: Scaled, v: Scaled, w: Scaled) -> u64
    ensures { result ≡ u.digits + v.digits + w.digits }
{
    u.digits as u64 + v.digits as u64 + w.digits as u64
}

// Whether a is below b + c + more: halving keeps it, and what halving leaves over is carried.
fn below(a: Scaled, b: Scaled, c: Scaled, more: u32) -> bool
    requires { more ≤ 2 }
    ensures { result ≡ ltb (value_of a) (value_of b + value_of c + more) }
{
    let mut u = a;
    let mut v = b;
    let mut w = c;
    let mut carry = more;
    // No range: how often they are halved lies in their digits.
    while 0 < digits_of(u, v, w) {
        carry = carried(u, v, w, carry);
        u = half(u);
        v = half(v);
        w = half(w);
    }
    0 < carry
}

// Of two magnitudes of one sign: neither is above the other by more than t.
fn near_alike(m: Scaled, n: Scaled, t: Scaled) -> bool
    ensures { result ≡ leb ((value_of m - value_of n) + (value_of n - value_of m)) (value_of t) }
{
    let up = below(m, n, t, 1);
    let down = below(n, m, t, 1);
    up & down
}

// Of two magnitudes of different signs: t is not below their sum.
fn near_across(m: Scaled, n: Scaled, t: Scaled) -> bool
    ensures { result ≡ leb (value_of m + value_of n) (value_of t) }
{
    !below(t, m, n, 0)
}

pub fn near(tolerance: u32, a: u32, b: u32) -> bool
    ensures { result ≡ is_near tolerance a b }
{
    let m = steps_of(a);
    let n = steps_of(b);
    let t = Scaled {
        digits: tolerance,
        shift: 149,
    };
    if 2147483648 <= a {
        if 2147483648 <= b {
            near_alike(m, n, t)
        } else {
            near_across(m, n, t)
        }
    } else {
        if 2147483648 <= b {
            near_across(m, n, t)
        } else {
            near_alike(m, n, t)
        }
    }
}
