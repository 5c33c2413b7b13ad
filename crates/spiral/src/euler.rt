// Fitting an Euler spiral to a cubic, and points along the spiral and its offset curves.
ghost use Rattle.std.specs.Prelude.{◌≡◌, T};
ghost use Rattle.spiral.specs.Euler.{short_chord, fitted_error, error_ratio, long_chord, from_points_derivs, from_angles, eval_th, eval_of, eval_with_offset, from_params, point_of, integ_euler10, near_curve, espc_curve, espc_int_approx, near_inverse, quad_inverse, espc_inverse, espc_int_inv_approx};
ghost use Rattle.std.specs.Float.{binary32};
ghost use Rattle.std.specs.Float.Ieee.{fits};
ghost use Rattle.laws.specs.NotFinite.{unsigned};
ghost use Rattle.laws.specs.Limits.{Small};
ghost use Rattle.maths.specs.Roots.{hypot_of};
ghost use Rattle.spiral.specs.Judged.{error_sum, is_close, Stands, Judged};
ghost use Rattle.spiral.specs.NoOffset.{unmoved};

use crate::util::Vec2;

// How far a spiral may be off, and a line from its spiral.
pub const TOL: f32 = 0.25;

// Tangents below this length count as zero.
pub const TANGENT_THRESH: f32 = 1e-6;

const FRAC_PI_4: f32 = 0.785398163397448309615660845819875721;

// What is read off a cubic to fit a spiral: the tangents' angles against the chord, the chord's
// length, and the estimated distance of the two curves.
#[derive(Clone, Copy)]
pub struct CubicParams {
    pub th0: f32,
    pub th1: f32,
    pub chord_len: f32,
    pub err: f32,
}

// The fitted spiral, over a chord from (0, 0) to (1, 0).
#[derive(Clone, Copy)]
pub struct EulerParams {
    pub th0: f32,
    pub k0: f32,
    pub k1: f32,
    pub ch: f32,
}

// The spiral, and the ends of its chord.
#[derive(Clone, Copy)]
pub struct EulerSeg {
    pub p0: Vec2,
    pub p1: Vec2,
    pub params: EulerParams,
}

// The integral of a spiral: along its middle tangent, and across.
#[derive(Clone, Copy)]
struct Integral {
    u: f32,
    v: f32,
}

// A chord near zero: a straight line.
fn short_chord(q0: Vec2, q1: Vec2, dt: f32) -> CubicParams
    ensures { result ≡ short_chord q0 q1 dt }
{
    let chord_err = maths::sqrt((9.0 / 32.0) * (q0.length_squared() + q1.length_squared())) * dt;
    CubicParams {
        th0: 0.0,
        th1: 0.0,
        chord_len: TANGENT_THRESH,
        err: chord_err,
    }
}

// The end of the error over the chord's length: what does not depend on dist, by how far the tangents' lengths are off the spiral's, and what does.
fn error_sum(base: f32, symm: f32, asymm: f32, dist: f32) -> f32
    ensures { result ≡ error_sum base symm asymm dist }
{
    let halo_symm = 5e-3 * symm * dist;
    let halo_asymm = 7e-2 * asymm * dist;
    base + halo_symm + halo_asymm
}

// Whether (x, y) is surely within 1/4 of 0.
fn is_close(x: f32, y: f32) -> bool
    ensures { result ≡ is_close x y }
{
    if maths::abs(x) <= 0.125 {
        return maths::abs(y) <= 0.125;
    }
    false
}

// The same, for the distance of (x, y) from 0, or what stands for it: where it is too large without the distance, or small enough with 1/4 for it, no root
// is taken.
fn told_error(base: f32, symm: f32, asymm: f32, x: f32, y: f32, length: f32, scale: f32) -> f32
    requires { Small base base × T (fits binary32 base) × T (unsigned symm) × T (unsigned asymm) }
    ensures { Stands length scale (error_sum base symm asymm (hypot_of x y)) result }
{
    if 0.0 < length {
        if 0.0 < scale {
            if TOL < base * length * scale {
                return base;
            }
            if is_close(x, y) {
                let most = error_sum(base, symm, asymm, 0.25);
                if most * length * scale <= TOL {
                    return most;
                }
            }
        }
    }
    error_sum(base, symm, asymm, maths::hypot(x, y))
}

// The error over the chord's length, or what stands for it, where the tangents do not turn back.
fn fitted_error(
    th0: f32,
    th1: f32,
    d0: f32,
    d1: f32,
    cth0: f32,
    cth1: f32,
    length: f32,
    scale: f32,
) -> f32
    ensures { Stands length scale (fitted_error th0 th1 d0 d1 cth0 cth1) result }
{
    let e0 = (2.0 / 3.0) / maths::max(1.0 + cth0, 1e-9);
    let e1 = (2.0 / 3.0) / maths::max(1.0 + cth1, 1e-9);
    let s0 = maths::sin(th0);
    let s1 = maths::sin(th1);
    let s01 = cth0 * s1 + cth1 * s0;
    let amin = 0.15 * (2.0 * e0 * s0 + 2.0 * e1 * s1 - e0 * e1 * s01);
    let a = 0.15 * (2.0 * d0 * s0 + 2.0 * d1 * s1 - d0 * d1 * s01);
    let aerr = maths::abs(a - amin);
    let symm = maths::abs(th0 + th1);
    let asymm = maths::abs(th0 - th1);
    let symm2 = symm * symm;
    let ctr = 4.625e-6 * (symm * (symm2 * symm2)) + 7.5e-3 * asymm * symm2;
    told_error(
        ctr + 1.55 * aerr,
        symm,
        asymm,
        d0 - e0,
        d1 - e1,
        length,
        scale,
    )
}

fn error_ratio(th0: f32, th1: f32, d0: f32, d1: f32, length: f32, scale: f32) -> f32
    ensures { Stands length scale (error_ratio th0 th1 d0 d1) result }
{
    let cth0 = maths::cos(th0);
    let cth1 = maths::cos(th1);
    if cth0 * cth1 < 0.0 {
        return 2.0;
    }
    fitted_error(th0, th1, d0, d1, cth0, cth1, length, scale)
}

fn long_chord(
    chord: Vec2,
    squared: f32,
    length: f32,
    q0: Vec2,
    q1: Vec2,
    dt: f32,
    scale: f32,
) -> CubicParams
    ensures { Judged scale (long_chord chord squared length q0 q1 dt) result }
{
    let over = dt / squared;
    let h0 = Vec2 {
        x: q0.x * chord.x + q0.y * chord.y,
        y: q0.y * chord.x - q0.x * chord.y,
    };
    let th0 = h0.atan2();
    let d0 = h0.length() * over;
    let h1 = Vec2 {
        x: q1.x * chord.x + q1.y * chord.y,
        y: q1.x * chord.y - q1.y * chord.x,
    };
    let th1 = h1.atan2();
    let d1 = h1.length() * over;
    let err = error_ratio(th0, th1, d0, d1, length, scale) * length;
    CubicParams {
        th0,
        th1,
        chord_len: length,
        err,
    }
}

impl CubicParams {
    // From the ends, the derivatives there, and the length of the parameter's range.
    pub fn from_points_derivs(p0: Vec2, p1: Vec2, q0: Vec2, q1: Vec2, dt: f32) -> CubicParams
        ensures { result ≡ from_points_derivs p0 p1 q0 q1 dt }
    {
        CubicParams::judged(p0, p1, q0, q1, dt, 0.0)
    }

    // The same, for whoever only asks whether the error is within the tolerance at a scale: it may be another that is so exactly where that is. At a scale of 0 it
    // is that.
    pub fn judged(p0: Vec2, p1: Vec2, q0: Vec2, q1: Vec2, dt: f32, scale: f32) -> CubicParams
        ensures { Judged scale (from_points_derivs p0 p1 q0 q1 dt) result }
    {
        let chord = p1 - p0;
        let chord_squared = chord.length_squared();
        let chord_len = maths::sqrt(chord_squared);
        if chord_squared < TANGENT_THRESH * TANGENT_THRESH {
            return short_chord(q0, q1, dt);
        }
        long_chord(chord, chord_squared, chord_len, q0, q1, dt, scale)
    }
}

impl EulerParams {
    pub fn from_angles(th0: f32, th1: f32) -> EulerParams
        ensures { result ≡ from_angles th0 th1 }
    {
        let k0 = th0 + th1;
        let dth = th1 - th0;
        let d2 = dth * dth;
        let k2 = k0 * k0;
        let mut a = 6.0;
        a -= d2 * (1.0 / 70.0);
        a -= (d2 * d2) * (1.0 / 10780.0);
        a += (d2 * d2 * d2) * 2.769178184818219e-07;
        let b = -0.1 + d2 * (1.0 / 4200.0) + d2 * d2 * 1.6959677820260655e-05;
        let c = -1.0 / 1400.0 + d2 * 6.84915970574303e-05 - k2 * 7.936475029053326e-06;
        a += (b + c * k2) * k2;
        let k1 = dth * a;

        let mut ch = 1.0;
        ch -= d2 * (1.0 / 40.0);
        ch += (d2 * d2) * 0.00034226190482569864;
        ch -= (d2 * d2 * d2) * 1.9349474568904524e-06;
        let b = -1.0 / 24.0 + d2 * 0.0024702380951963226 - d2 * d2 * 3.7297408997537985e-05;
        let c = 1.0 / 1920.0 - d2 * 4.87350869747975e-05 - k2 * 3.1001936068463107e-06;
        ch += (b + c * k2) * k2;
        EulerParams { th0, k0, k1, ch }
    }

    // The tangent's angle at t.
    pub fn eval_th(self, t: f32) -> f32
        ensures { result ≡ eval_th self t }
    {
        (self.k0 + 0.5 * self.k1 * (t - 1.0)) * t - self.th0
    }

    // The point at t, from (0, 0) at 0 to (1, 0) at 1.
    fn eval(self, t: f32) -> Vec2
        ensures { result ≡ eval_of self t }
    {
        let thm = self.eval_th(t * 0.5);
        let k0 = self.k0;
        let k1 = self.k1;
        let uv = integ_euler_10((k0 + k1 * (0.5 * t - 0.5)) * t, k1 * t * t);
        let u = uv.u;
        let v = uv.v;
        let s = t / self.ch * maths::sin(thm);
        let c = t / self.ch * maths::cos(thm);
        let x = u * c - v * s;
        let y = -v * c - u * s;
        Vec2 { x, y }
    }

    // The same on the curve at an offset, in units of the chord.
    fn eval_with_offset(self, t: f32, offset: f32) -> Vec2
        ensures { result ≡ eval_with_offset self t offset }
    {
        let th = self.eval_th(t);
        let p = self.eval(t);
        if stays(p, th, offset) {
            return p;
        }
        let v = Vec2 {
            x: offset * maths::sin(th),
            y: offset * maths::cos(th),
        };
        p + v
    }
}

impl EulerSeg {
    pub fn from_params(p0: Vec2, p1: Vec2, params: EulerParams) -> EulerSeg
        ensures { result ≡ from_params p0 p1 params }
    {
        EulerSeg { p0, p1, params }
    }

    // The offset is in units of the chord, the point in the space of its ends.
    pub fn eval_with_offset(self, t: f32, normalized_offset: f32) -> Vec2
        ensures { result ≡ point_of self t normalized_offset }
    {
        let p0 = self.p0;
        let p1 = self.p1;
        let params = self.params;
        let chord = p1 - p0;
        let p = params.eval_with_offset(t, normalized_offset);
        Vec2 {
            x: p0.x + chord.x * p.x - chord.y * p.y,
            y: p0.y + chord.x * p.y + chord.y * p.x,
        }
    }
}

// Whether the offset leaves p where it is, at the angle th. At no offset zeros are added, which
// changes nothing but a zero's sign; an angle that is infinite or no number adds a NaN.
fn stays(p: Vec2, th: f32, offset: f32) -> bool
    ensures { result ≡ unmoved p th offset }
{
    if offset == 0.0 {
        if th - th == 0.0 {
            if p.x != 0.0 {
                return p.y != 0.0;
            }
        }
    }
    false
}

// A polynomial of 10th order for the integral of a spiral.
fn integ_euler_10(k0: f32, k1: f32) -> Integral
    ensures { result ≡ integ_euler10 k0 k1 }
{
    let t1_1 = k0;
    let t1_2 = 0.5 * k1;
    let t2_2 = t1_1 * t1_1;
    let t2_3 = 2.0 * (t1_1 * t1_2);
    let t2_4 = t1_2 * t1_2;
    let t3_4 = t2_2 * t1_2 + t2_3 * t1_1;
    let t3_6 = t2_4 * t1_2;
    let t4_4 = t2_2 * t2_2;
    let t4_5 = 2.0 * (t2_2 * t2_3);
    let t4_6 = 2.0 * (t2_2 * t2_4) + t2_3 * t2_3;
    let t4_7 = 2.0 * (t2_3 * t2_4);
    let t4_8 = t2_4 * t2_4;
    let t5_6 = t4_4 * t1_2 + t4_5 * t1_1;
    let t5_8 = t4_6 * t1_2 + t4_7 * t1_1;
    let t6_6 = t4_4 * t2_2;
    let t6_7 = t4_4 * t2_3 + t4_5 * t2_2;
    let t6_8 = t4_4 * t2_4 + t4_5 * t2_3 + t4_6 * t2_2;
    let t7_8 = t6_6 * t1_2 + t6_7 * t1_1;
    let t8_8 = t6_6 * t2_2;
    let mut u = 1.0;
    u -= (1.0 / 24.0) * t2_2 + (1.0 / 160.0) * t2_4;
    u += (1.0 / 1920.0) * t4_4 + (1.0 / 10752.0) * t4_6 + (1.0 / 55296.0) * t4_8;
    u -= (1.0 / 322560.0) * t6_6 + (1.0 / 1658880.0) * t6_8;
    u += (1.0 / 92897280.0) * t8_8;
    let mut v = (1.0 / 12.0) * t1_2;
    v -= (1.0 / 480.0) * t3_4 + (1.0 / 2688.0) * t3_6;
    v += (1.0 / 53760.0) * t5_6 + (1.0 / 276480.0) * t5_8;
    v -= (1.0 / 11612160.0) * t7_8;
    Integral { u, v }
}

const BREAK1: f32 = 0.8;

const BREAK2: f32 = 1.25;

const BREAK3: f32 = 2.1;

const SIN_SCALE: f32 = 1.0976991822760038;

const QUAD_A1: f32 = 0.6406;

const QUAD_B1: f32 = -0.81;

const QUAD_C1: f32 = 0.9148117935952064;

const QUAD_A2: f32 = 0.5;

const QUAD_B2: f32 = -0.156;

const QUAD_C2: f32 = 0.16145779359520596;

// Between the first two breaks, near 1.
fn near_curve(y: f32) -> f32
    ensures { result ≡ near_curve y }
{
    (maths::sqrt(8.0) / 3.0) * (y - 1.0) * maths::sqrt(maths::abs(y - 1.0)) + FRAC_PI_4
}

fn espc_curve(y: f32) -> f32
    ensures { result ≡ espc_curve y }
{
    if y < BREAK1 {
        return maths::sin(SIN_SCALE * y) * (1.0 / SIN_SCALE);
    }
    if y < BREAK2 {
        return near_curve(y);
    }
    if y < BREAK3 {
        return QUAD_A1 * y * y + QUAD_B1 * y + QUAD_C1;
    }
    QUAD_A2 * y * y + QUAD_B2 * y + QUAD_C2
}

pub fn espc_int_approx(x: f32) -> f32
    ensures { result ≡ espc_int_approx x }
{
    maths::copysign(espc_curve(maths::abs(x)), x)
}

// Between the first two limits, near 1.
fn near_inverse(y: f32) -> f32
    ensures { result ≡ near_inverse y }
{
    let b = y - FRAC_PI_4;
    let u = maths::copysign(maths::two_thirds(maths::abs(b)), b);
    u * maths::cbrt(9.0 / 8.0) + 1.0
}

// Where a * t * t + b * t + c is y.
fn quad_inverse(a: f32, b: f32, c: f32, y: f32) -> f32
    ensures { result ≡ quad_inverse a b c y }
{
    let w = 0.5 * b / a;
    let u = w * w - c / a;
    let v = 1.0 / a;
    maths::sqrt(u + v * y) - w
}

fn espc_inverse(x: f32, y: f32) -> f32
    ensures { result ≡ espc_inverse x y }
{
    if y < 0.7010707591262915 {
        return maths::asin(x * SIN_SCALE) * (1.0 / SIN_SCALE);
    }
    if y < 0.903249293595206 {
        return near_inverse(y);
    }
    if y < 2.038857793595206 {
        return quad_inverse(QUAD_A1, QUAD_B1, QUAD_C1, y);
    }
    quad_inverse(QUAD_A2, QUAD_B2, QUAD_C2, y)
}

pub fn espc_int_inv_approx(x: f32) -> f32
    ensures { result ≡ espc_int_inv_approx x }
{
    maths::copysign(espc_inverse(x, maths::abs(x)), x)
}
