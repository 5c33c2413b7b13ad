// The smaller and the larger of two floats, and a float brought into a range.
#![tactic(auto, unfolding(crate::specs::Select::before, crate::specs::Select::min_of, crate::specs::Select::max_of, crate::specs::Select::clamp_of))]

ghost use Rattle.std.specs.Prelude.{◌≡◌};
ghost use Rattle.numbers.specs.Select.{before, min_of, max_of, clamp_of};

use crate::words;

// x stands before y. -0 stands before +0.
fn first(x: f32, y: f32) -> bool
    ensures { result ≡ before x y }
{
    x < y || x == y && words::is_negative(x)
}

// The smaller and the larger. A NaN gives way to the other.
fn sorted(x: f32, y: f32) -> (f32, f32)
    ensures lower { result.0 ≡ min_of x y }
    ensures upper { result.1 ≡ max_of x y }
{
    if x.is_nan() {
        (y, y)
    } else if y.is_nan() {
        (x, x)
    } else if first(x, y) {
        (x, y)
    } else {
        (y, x)
    }
}

pub fn min(x: f32, y: f32) -> f32
    ensures { result ≡ min_of x y }
{
    sorted(x, y).0
}

pub fn max(x: f32, y: f32) -> f32
    ensures { result ≡ max_of x y }
{
    sorted(x, y).1
}

// A NaN is kept, and so is a zero's sign.
pub fn clamp(x: f32, lo: f32, hi: f32) -> f32
    ensures { result ≡ clamp_of x lo hi }
{
    if x < lo {
        lo
    } else if hi < x {
        hi
    } else {
        x
    }
}
