// The C interface: each function is one of `maths`, `scene`, `flatten`, `pattern`, `svg`, `sheets`, `profile`, `checker`, `mender`, `hpgl` or `cut`
// under a name that C and Rust can link. See include/hinthevoun.h.
#![tactic(auto)]

ghost use Rattle.std.specs.Prelude.{◌≡◌};
ghost use Rattle.maths.specs.Numbers.{half_of};
ghost use Rattle.maths.specs.Roots.{sqrt_of, hypot_of, cbrt_of, two_thirds_of};
ghost use Rattle.maths.specs.Trig.{sin_of, cos_of, atan2_of, asin_of, acos_of};

pub mod call;
pub mod check;
pub mod convert;
pub mod cutting;
pub mod import;
pub mod mending;
mod out;
pub mod pen;
pub mod profiling;
pub mod scan;
pub mod whole;

#[unsafe(no_mangle)]
pub extern "C" fn hinth_sqrt(x: f32) -> f32
    ensures { result ≡ sqrt_of x }
{
    maths::sqrt(x)
}

#[unsafe(no_mangle)]
pub extern "C" fn hinth_hypot(x: f32, y: f32) -> f32
    ensures { result ≡ hypot_of x y }
{
    maths::hypot(x, y)
}

#[unsafe(no_mangle)]
pub extern "C" fn hinth_cbrt(x: f32) -> f32
    ensures { result ≡ cbrt_of x }
{
    maths::cbrt(x)
}

#[unsafe(no_mangle)]
pub extern "C" fn hinth_two_thirds(x: f32) -> f32
    ensures { result ≡ two_thirds_of x }
{
    maths::two_thirds(x)
}

#[unsafe(no_mangle)]
pub extern "C" fn hinth_half(word: u32) -> f32
    ensures { result ≡ half_of word }
{
    maths::half(word)
}

#[unsafe(no_mangle)]
pub extern "C" fn hinth_sin(x: f32) -> f32
    ensures { result ≡ sin_of x }
{
    maths::sin(x)
}

#[unsafe(no_mangle)]
pub extern "C" fn hinth_cos(x: f32) -> f32
    ensures { result ≡ cos_of x }
{
    maths::cos(x)
}

#[unsafe(no_mangle)]
pub extern "C" fn hinth_atan2(y: f32, x: f32) -> f32
    ensures { result ≡ atan2_of y x }
{
    maths::atan2(y, x)
}

#[unsafe(no_mangle)]
pub extern "C" fn hinth_asin(x: f32) -> f32
    ensures { result ≡ asin_of x }
{
    maths::asin(x)
}

#[unsafe(no_mangle)]
pub extern "C" fn hinth_acos(x: f32) -> f32
    ensures { result ≡ acos_of x }
{
    maths::acos(x)
}
