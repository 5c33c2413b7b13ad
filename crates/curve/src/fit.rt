// One range of a cubic: where it ends, how far off a fitted spiral is, and the points along that spiral.
#![tactic(auto, unfolding(crate::specs::Fit::is_short, crate::specs::Fit::first_tip, crate::specs::Fit::tip_at, crate::specs::Fit::params_of, crate::specs::Fit::multiplier_of, crate::specs::Fit::integrand_of, crate::specs::Fit::times_root, crate::specs::Fit::low_dist_of, crate::specs::Fit::normal_of, crate::specs::Fit::robust_of, crate::specs::Fit::n_frac_of, crate::specs::Fit::fit_of, crate::specs::Fit::spread_of, crate::specs::Fit::place_of, crate::specs::Straight::is_straight, drawing::proofs::Floats::of_bits, drawing::proofs::Floats::round))]

ghost use Rattle.std.specs.Prelude.{◌≡◌};
ghost use Rattle.curve.specs.Fit.{is_short, first_tip, tip_at, params_of, multiplier_of, integrand_of, times_root, low_dist_of, normal_of, robust_of, n_frac_of, fit_of, spread_of, place_of};
ghost use Rattle.curve.specs.Straight.{is_straight};
ghost use Rattle.laws.specs.Binary32.{◌⊗◌, whole};
ghost use Rattle.maths.specs.Numbers.{ceil_of, clamp_of};
ghost use Rattle.spiral.specs.Judged.{Judged};

use drawing::cubic::eval_cubic_and_deriv;
use spiral::euler::{
    CubicParams, EulerParams, EulerSeg, TOL, espc_int_approx, espc_int_inv_approx,
};
use spiral::util::Vec2;

// A derivative this short counts as zero.
const DERIV_THRESH: f32 = 1e-6;
// How far away it is taken then.
const DERIV_EPS: f32 = 1e-6;

const K1_THRESH: f32 = 1e-3;

const DIST_THRESH: f32 = 1e-3;

const FRAC_1_SQRT_2: f32 = 0.707106781186547524400844362104849039;

// A point of the cubic, the derivative there, and the parameter.
#[derive(Clone, Copy)]
pub struct Tip {
    pub p: Vec2,
    pub q: Vec2,
    pub t: f32,
}

// The scale and the shift of a parameter, and the integral from there on and up to there.
#[derive(Clone, Copy)]
pub struct Espc {
    pub a: f32,
    pub b: f32,
    pub integral: f32,
    pub int0: f32,
}

// How the points of a range are spread along the offset curve.
#[derive(Clone, Copy)]
pub enum EspcRobust {
    // k1 is low: as along a circular arc.
    LowK1,
    // The distance is low: as along the spiral itself.
    LowDist(Espc),
    // Both are large enough to divide by.
    Normal(Espc),
}

// A range's spiral, the offset over its chord, how its points are spread, and the number of its lines.
#[derive(Clone, Copy)]
pub struct Fit {
    pub seg: EulerSeg,
    pub offset: f32,
    pub robust: EspcRobust,
    pub n: f32,
}

fn is_short(q: Vec2) -> bool
    ensures { result ≡ is_short q }
{
    q.length_squared() < DERIV_THRESH * DERIV_THRESH
}

// Where the first range starts.
pub fn first_tip(points: [Vec2; 4]) -> Tip
    ensures { result ≡ first_tip points }
{
    let p = points[0];
    let q = points[1] - p;
    if is_short(q) {
        let q = eval_cubic_and_deriv(points, DERIV_EPS).q;
        return Tip { p, q, t: 0.0 };
    }
    Tip { p, q, t: 0.0 }
}

// Where a range ends: at t, or near it where the derivative is short. The end of the curve stays.
pub fn tip_at(points: [Vec2; 4], t: f32) -> Tip
    ensures { result ≡ tip_at points t }
{
    let here = eval_cubic_and_deriv(points, t);
    let p = here.p;
    let q = here.q;
    if is_short(q) {
        let near = eval_cubic_and_deriv(points, t - DERIV_EPS);
        let q = near.q;
        if t < 1.0 {
            let p = near.p;
            return Tip {
                p,
                q,
                t: t - DERIV_EPS,
            };
        }
        return Tip { p, q, t };
    }
    Tip { p, q, t }
}

// Of the error no more is asked than whether it is within the tolerance at this scale.
pub fn params_of(from: Tip, to: Tip, scale: f32) -> CubicParams
    ensures { Judged scale (params_of from to) result }
{
    CubicParams::judged(from.p, to.p, from.q, to.q, to.t - from.t, scale)
}

// The number of lines for curvature 1.
fn scale_multiplier(scale: f32, chord: f32, ch: f32) -> f32
    ensures { result ≡ multiplier_of scale chord ch }
{
    0.5 * FRAC_1_SQRT_2 * maths::sqrt(scale * chord / (ch * TOL))
}

fn integrand(k: f32, dist: f32) -> f32
    ensures { result ≡ integrand_of k dist }
{
    maths::sqrt(maths::abs(k * (k * dist + 1.0)))
}

fn times_root(x: f32) -> f32
    ensures { result ≡ times_root x }
{
    x * maths::sqrt(maths::abs(x))
}

// Whether an arc is one line, told without a root: see specs/Straight.antt.
fn is_straight(bend: f32, length: f32) -> bool
    ensures { result ≡ is_straight bend length }
{
    maths::abs(bend) <= 0.000244140625 && 0.0 <= length && length <= 16384.0
}

// How a range bends: its curvature at the start and what is added to it along the range, both over the chord, and the offset.
#[derive(Clone, Copy)]
struct Bend {
    k0: f32,
    k1: f32,
    dist: f32,
}

impl Bend {
    // Beside `normal` and not one with it: the integral and what it is taken of are others, which would be all of its parameters.
    fn low_dist(self) -> EspcRobust
        ensures { result ≡ low_dist_of self.k0 self.k1 }
    {
        let int0 = times_root(self.k0);
        let int1 = times_root(self.k1 + self.k0);
        EspcRobust::LowDist(Espc {
            a: self.k1,
            b: self.k0,
            integral: int1 - int0,
            int0,
        })
    }

    fn normal(self) -> EspcRobust
        ensures { result ≡ normal_of self.k0 self.k1 self.dist }
    {
        let a = -2.0 * self.dist * self.k1;
        let b = -1.0 - 2.0 * self.dist * self.k0;
        let int0 = espc_int_approx(b);
        let int1 = espc_int_approx(a + b);
        EspcRobust::Normal(Espc {
            a,
            b,
            integral: int1 - int0,
            int0,
        })
    }

    fn robust(self) -> EspcRobust
        ensures { result ≡ robust_of self.k0 self.k1 self.dist }
    {
        if maths::abs(self.k1) < K1_THRESH {
            EspcRobust::LowK1
        } else if maths::abs(self.dist) < DIST_THRESH {
            self.low_dist()
        } else {
            self.normal()
        }
    }

    // The number of lines over the multiplier.
    fn n_frac(self, robust: EspcRobust) -> f32
        ensures { result ≡ n_frac_of robust self.k0 self.k1 self.dist }
    {
        match robust {
            EspcRobust::LowK1 => integrand(self.k0 + 0.5 * self.k1, self.dist),
            EspcRobust::LowDist(e) => (2.0 / 3.0) * e.integral / e.a,
            EspcRobust::Normal(e) => {
                e.integral * integrand(self.k0 - self.k1 * e.b / e.a, self.dist) / e.a
            }
        }
    }

    // The number of lines, which may be a NaN. Most straight segments are one line, and no root is taken to find that.
    fn line_count(self, robust: EspcRobust, scale: f32, chord: f32, ch: f32) -> f32
        ensures { result ≡ clamp_of (ceil_of (n_frac_of robust self.k0 self.k1 self.dist ⊗ multiplier_of scale chord ch)) (whole 1) (whole 100) }
    {
        if let EspcRobust::LowK1 = robust {
            let k = self.k0 + 0.5 * self.k1;
            if is_straight(k * (k * self.dist + 1.0), scale * chord / (ch * TOL)) {
                return 1.0;
            }
        }
        let scaled = self.n_frac(robust) * scale_multiplier(scale, chord, ch);
        maths::clamp(maths::ceil(scaled), 1.0, 100.0)
    }
}

// The spiral of the range from p0 to p1.
pub fn fit_range(offset: f32, scale: f32, p0: Vec2, p1: Vec2, params: CubicParams) -> Fit
    ensures { result ≡ fit_of offset scale p0 p1 params }
{
    let euler = EulerParams::from_angles(params.th0, params.th1);
    let normalized = offset / params.chord_len;
    let bend = Bend {
        k0: euler.k0 - 0.5 * euler.k1,
        k1: euler.k1,
        dist: normalized * euler.ch,
    };
    let robust = bend.robust();
    let n = bend.line_count(robust, scale, params.chord_len, euler.ch);
    let seg = EulerSeg::from_params(p0, p1, euler);
    Fit {
        seg,
        offset: normalized,
        robust,
        n,
    }
}

// The parameter of the spiral at a part t of the lines.
fn spread(robust: EspcRobust, t: f32) -> f32
    ensures { result ≡ spread_of robust t }
{
    match robust {
        EspcRobust::LowK1 => t,
        EspcRobust::LowDist(e) => {
            let c = maths::cbrt(e.integral * t + e.int0);
            (c * maths::abs(c) - e.b) / e.a
        }
        EspcRobust::Normal(e) => (espc_int_inv_approx(e.integral * t + e.int0) - e.b) / e.a,
    }
}

// Where line i ends, the first being line 1.
pub fn place(fit: Fit, i: u32) -> Vec2
    ensures { result ≡ place_of fit i }
{
    let robust = fit.robust;
    let s = spread(robust, maths::from_u32(i) / fit.n);
    let seg = fit.seg;
    seg.eval_with_offset(s, fit.offset)
}
