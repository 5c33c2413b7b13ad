// Points, and the six numbers of a transform.
#![tactic(auto, unfolding(crate::specs::Util::add_of, crate::specs::Util::sub_of, crate::specs::Util::mul_of, crate::specs::Util::div_of, crate::specs::Util::neg_of, crate::specs::Util::eq_of, crate::specs::Util::has_nan, crate::specs::Util::normalize_of, crate::specs::Util::mix_of))]

ghost use Rattle.std.specs.Prelude.{◌≡◌};
ghost use Rattle.spiral.specs.Util.{add_of, sub_of, mul_of, div_of, neg_of, new_of, dot_of, length_of, length_squared_of, mix_of, normalize_of, angle_of, has_nan, eq_of, identity_of, apply_of};
ghost use Rattle.spiral.specs.Same.{same_points};

use std::ops::{Add, Div, Mul, Neg, Sub};

// An epsilon of the source for numerical robustness.
pub const ROBUST_EPSILON: f32 = 2e-7;

#[derive(Clone, Copy)]
pub struct Vec2 {
    pub x: f32,
    pub y: f32,
}

impl Vec2 {
    pub fn new(x: f32, y: f32) -> Vec2
        ensures { result ≡ new_of x y }
    {
        Vec2 { x, y }
    }

    pub fn dot(self, other: Vec2) -> f32
        ensures { result ≡ dot_of self other }
    {
        self.x * other.x + self.y * other.y
    }

    pub fn length(self) -> f32
        ensures { result ≡ length_of self }
    {
        maths::hypot(self.x, self.y)
    }

    pub fn length_squared(self) -> f32
        ensures { result ≡ length_squared_of self }
    {
        self.dot(self)
    }

    pub fn mix(self, other: Vec2, t: f32) -> Vec2
        ensures { result ≡ mix_of self other t }
    {
        Vec2 {
            x: self.x + (other.x - self.x) * t,
            y: self.y + (other.y - self.y) * t,
        }
    }

    pub fn normalize(self) -> Vec2
        ensures { result ≡ normalize_of self }
    {
        self / self.length()
    }

    pub fn atan2(self) -> f32
        ensures { result ≡ angle_of self }
    {
        maths::atan2(self.y, self.x)
    }

    pub fn is_nan(self) -> bool
        ensures { result ≡ has_nan self }
    {
        maths::is_nan(self.x) || maths::is_nan(self.y)
    }
}

impl Add for Vec2 {
    type Output = Vec2;

    ghost add_gives = { λ a b r. r ≡ add_of a b };

    fn add(self, rhs: Vec2) -> Vec2
        ensures { result ≡ add_of self rhs }
    {
        Vec2 {
            x: self.x + rhs.x,
            y: self.y + rhs.y,
        }
    }
}

impl Sub for Vec2 {
    type Output = Vec2;

    ghost sub_gives = { λ a b r. r ≡ sub_of a b };

    fn sub(self, rhs: Vec2) -> Vec2
        ensures { result ≡ sub_of self rhs }
    {
        Vec2 {
            x: self.x - rhs.x,
            y: self.y - rhs.y,
        }
    }
}

impl Mul<f32> for Vec2 {
    type Output = Vec2;

    ghost mul_gives = { λ a s r. r ≡ mul_of a s };

    fn mul(self, rhs: f32) -> Vec2
        ensures { result ≡ mul_of self rhs }
    {
        Vec2 {
            x: self.x * rhs,
            y: self.y * rhs,
        }
    }
}

impl Div<f32> for Vec2 {
    type Output = Vec2;

    ghost div_gives = { λ a s r. r ≡ div_of a s };

    fn div(self, rhs: f32) -> Vec2
        ensures { result ≡ div_of self rhs }
    {
        Vec2 {
            x: self.x / rhs,
            y: self.y / rhs,
        }
    }
}

impl Neg for Vec2 {
    type Output = Vec2;

    ghost neg_gives = { λ a r. r ≡ neg_of a };

    fn neg(self) -> Vec2
        ensures { result ≡ neg_of self }
    {
        Vec2 {
            x: -self.x,
            y: -self.y,
        }
    }
}

// Equal as numbers: +0 equals -0, and a NaN equals nothing. Not derived: the edit that takes the x of the other for its y (must-fail/) needs a body.
impl PartialEq for Vec2 {
    ghost eq = { eq_of };

    ghost laws = { same_points };

    fn eq(&self, other: &Vec2) -> bool
        ensures { result ≡ eq_of self.now other.now }
    {
        self.x == other.x && self.y == other.y
    }
}

pub fn identity() -> [f32; 6]
    ensures { result ≡ identity_of }
{
    [1.0, 0.0, 0.0, 1.0, 0.0, 0.0]
}

pub fn apply(z: [f32; 6], p: Vec2) -> Vec2
    ensures { result ≡ apply_of z p }
{
    let x = z[0] * p.x + z[2] * p.y + z[4];
    let y = z[1] * p.x + z[3] * p.y + z[5];
    Vec2 { x, y }
}
