// A float's word, sign and size. There is one NaN, with no sign, so a NaN's sign counts as clear.
#![tactic(auto, unfolding(crate::specs::Words::signed, crate::specs::Words::copysign_of))]

ghost use Rattle.std.specs.Prelude.{◌≡◌, ◌*◌, ◌<◌, from_bits, is_nan, to_bits};
ghost use Rattle.std.specs.Float.{binary32};
ghost use Rattle.numbers.specs.Words.{sign_of, signed, abs_of, copysign_of, half_of};

// The float of a word.
pub fn float_of(w: u32) -> f32
    ensures { result ≡ from_bits binary32 w }
{
    std::num::f32_from_bits_with_nan(w)
}

// The word of a float, and of a NaN the one with only its highest digit set.
pub fn word_of(x: f32) -> u32
    ensures { result ≡ to_bits binary32 x }
{
    std::num::f32_to_bits_with_nan(x)
}

pub fn is_nan(x: f32) -> bool
    ensures { result ≡ is_nan x }
{
    x.is_nan()
}

// The sign bit: -0 is negative.
#[tactic(auto, using(crate::proofs::Bits::sign_is, crate::proofs::Bits::nan_clear))]
pub fn is_negative(x: f32) -> bool
    ensures { result ≡ sign_of x }
{
    !x.is_nan() && x.is_sign_negative()
}

// x, its sign turned round where s is true.
pub fn turned(s: bool, x: f32) -> f32
    ensures { result ≡ signed s x }
{
    if s { -x } else { x }
}

// 0 - x is x with its sign turned round, and +0 for both zeros.
pub fn abs(x: f32) -> f32
    ensures { result ≡ abs_of x }
{
    if x > 0.0 { x } else { 0.0 - x }
}

// The size of x with the sign of s.
pub fn copysign(x: f32, s: f32) -> f32
    ensures { result ≡ copysign_of x s }
{
    turned(is_negative(s), abs(x))
}

// The binary16 in the low 16 bits of w. With its fields put where binary32 has its own, finite ones
// are too small by 2^112, subnormals too, since binary32's exponents begin so much lower; the product
// is exact. All ones, the exponent of an infinity or a NaN, are filled up to all ones.
pub fn half(w: u32) -> f32
    ensures { result ≡ half_of w }
{
    let size = w % 32768;
    let word = w / 32768 % 2 * 0x8000_0000 + size * 8192;
    if size < 31744 {
        float_of(word) * 5192296858534827628530496329220096.0
    } else {
        float_of(word + 0x7000_0000)
    }
}
