// Points, derivatives and tangents of a cubic.
#![tactic(auto, unfolding(crate::specs::Cubic::cubic_point, crate::specs::Cubic::cubic_deriv, crate::specs::Cubic::cubic_at, crate::specs::Cubic::first_long, crate::specs::Cubic::start_tangent, crate::specs::Cubic::end_tangent, crate::proofs::Floats::of_bits, crate::proofs::Floats::round))]

ghost use Rattle.std.specs.Prelude.{◌≡◌};
ghost use Rattle.drawing.specs.Cubic.{cubic_point, cubic_deriv, cubic_at, first_long, start_tangent, end_tangent};

use spiral::util::{ROBUST_EPSILON, Vec2};

// A point, and the derivative there.
#[derive(Clone, Copy)]
pub struct CubicAt {
    pub p: Vec2,
    pub q: Vec2,
}

fn cubic_point(p: [Vec2; 4], t: f32) -> Vec2
    ensures { result ≡ cubic_point p t }
{
    let p0 = p[0];
    let p1 = p[1];
    let p2 = p[2];
    let p3 = p[3];
    let m = 1.0 - t;
    let mm = m * m;
    let mt = m * t;
    let tt = t * t;
    let inner = p1 * (3.0 * mm) + p2 * (3.0 * mt) + p3 * tt;
    p0 * (mm * m) + inner * t
}

fn cubic_deriv(p: [Vec2; 4], t: f32) -> Vec2
    ensures { result ≡ cubic_deriv p t }
{
    let p0 = p[0];
    let p1 = p[1];
    let p2 = p[2];
    let p3 = p[3];
    let m = 1.0 - t;
    let mm = m * m;
    let mt = m * t;
    let tt = t * t;
    let first = (p1 - p0) * mm;
    let second = (p2 - p1) * (2.0 * mt);
    first + second + (p3 - p2) * tt
}

pub fn eval_cubic_and_deriv(points: [Vec2; 4], t: f32) -> CubicAt
    ensures { result ≡ cubic_at points t }
{
    let p = cubic_point(points, t);
    let q = cubic_deriv(points, t);
    CubicAt { p, q }
}

// The first of three that is not near zero, or the last.
fn first_long(a: Vec2, b: Vec2, c: Vec2) -> Vec2
    ensures { result ≡ first_long a b c }
{
    if a.length_squared() > ROBUST_EPSILON {
        return a;
    }
    if b.length_squared() > ROBUST_EPSILON {
        return b;
    }
    c
}

// The two tangents take the points in other orders, and what they share is `first_long`.
pub fn cubic_start_tangent(p: [Vec2; 4]) -> Vec2
    ensures { result ≡ start_tangent p }
{
    let p0 = p[0];
    let p1 = p[1];
    let p2 = p[2];
    let p3 = p[3];
    first_long(p1 - p0, p2 - p0, p3 - p0)
}

pub fn cubic_end_tangent(p: [Vec2; 4]) -> Vec2
    ensures { result ≡ end_tangent p }
{
    let p0 = p[0];
    let p1 = p[1];
    let p2 = p[2];
    let p3 = p[3];
    first_long(p3 - p2, p3 - p1, p3 - p0)
}
