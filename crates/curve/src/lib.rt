// A cubic, or the curve at an offset from it, as lines: it is cut into ranges that are each near a spiral, and a range
// is 1 to 100 lines.
#![tactic(auto, using(drawing::specs::PageLaws::stopped), unfolding(crate::specs::Curve::line_of, crate::specs::Curve::range_of, crate::specs::Curve::range_end, crate::specs::Curve::part, crate::specs::Curve::is_point, crate::specs::Curve::side_events, crate::specs::Curve::device_side, crate::specs::Curve::local_side, crate::specs::Curve::euler_events, drawing::proofs::Floats::of_bits, drawing::proofs::Floats::round, drawing::proofs::Floats::div))]

mod fit;
mod straight;

ghost use Rattle.std.specs.Prelude.{◌≡◌, ◌||◌, ◌-◌, Ok};
ghost use mathlib.Core.List.{[], ◌∷◌, flatten};
ghost use Rattle.std.specs.Float.Ieee.{le};
ghost use Rattle.laws.specs.Binary32.{◌⊗◌, dec};
ghost use Rattle.drawing.specs.Page.{Drew};
ghost use Rattle.curve.specs.Curve.{line_of, lines_of, range_of, range_end, part, front_of, walk, is_point, side_events, device_side, local_side, euler_events};

use drawing::line::{Ink, Nib, no_count, output_line_with_transform};
use fit::{Fit, Tip, first_tip, fit_range, params_of, place, tip_at};
use spiral::euler::TOL;
use spiral::util::{Vec2, apply, identity};
use straight::{is_line, looks_straight};

const SUBDIV_LIMIT: f32 = 1.0 / 65536.0;

// One side of a curve: its control points, how much the transform scales, the transform of each line, and the given ends.
#[derive(Clone, Copy)]
struct Side {
    pub points: [Vec2; 4],
    pub scale: f32,
    pub transform: [f32; 6],
    pub offset: f32,
    pub start: Vec2,
    pub end: Vec2,
}

// A line of a side, which runs back unless the offset is 0 or more.
fn side_line(lines: &mut [u32], ink: Ink, side: Side, p: Vec2, q: Vec2) -> Ink
    ensures { Drew lines.old ink (line_of side p q ∷ []) lines.new result }
{
    let transform = side.transform;
    if side.offset >= 0.0 {
        return output_line_with_transform(lines, ink, p, q, transform);
    }
    output_line_with_transform(lines, ink, q, p, transform)
}

// The n lines of a range: all but the last end along the spiral.
fn range_lines(
    lines: &mut [u32],
    nib: Nib,
    side: Side,
    fit: Fit,
    n: u32,
    at: Vec2,
    end: Vec2,
) -> Ink
    ensures { Drew lines.old (Ok nib) (lines_of side fit (n - 1) 1 at end) lines.new result }
{
    let mut nib = nib;
    let mut lp0 = at;
    for i in 1..n {
        let lp1 = place(fit, i);
        nib = side_line(lines, Ok(nib), side, lp0, lp1)?;
        lp0 = lp1;
    }
    side_line(lines, Ok(nib), side, lp0, end)
}

fn draw_range(lines: &mut [u32], nib: Nib, side: Side, fit: Fit, at: Vec2, end: Vec2) -> Ink
    ensures { Drew lines.old (Ok nib) (range_of side fit at end) lines.new result }
{
    let n = fit.n;
    if maths::is_nan(n) {
        return no_count(Ok(nib));
    }
    range_lines(lines, nib, side, fit, maths::to_u32(n), at, end)
}

// The last range ends at the given end, which is not evaluated.
fn range_end(side: Side, fit: Fit, to: Tip) -> Vec2
    ensures { result ≡ range_end side fit to }
{
    if to.t == 1.0 {
        return side.end;
    }
    place(fit, maths::to_u32(fit.n))
}

// A range is accepted where its spiral is near, or where it is the shortest.
fn accepts(err: f32, scale: f32, dt: f32) -> bool
    ensures { result ≡ le (err ⊗ scale) (dec 25 2) || le dt (part 1) }
{
    err * scale <= TOL || dt <= SUBDIV_LIMIT
}

// The ranges of a side, from the tip where the first one starts. A range starts at t0_u * dt and is dt long, and dt does
// not fall below 1/65536.
fn walk_side(lines: &mut [u32], nib: Nib, side: Side, first: Tip) -> Ink
    ensures { Drew lines.old (Ok nib) (flatten (walk side 16 0 (front_of first side.start)).ranges) lines.new result }
{
    let points = side.points;
    let mut nib = nib;
    let mut last = first;
    let mut lp0 = side.start;
    let mut t0_u: u32 = 0;
    let mut dt: f32 = 1.0;
    // No range and no iterator: the step halves and grows again as it goes.
    loop {
        let t0 = maths::from_u32(t0_u) * dt;
        if t0 == 1.0 {
            return Ok(nib);
        }
        let to = tip_at(points, t0 + dt);
        let params = params_of(last, to, side.scale);
        if accepts(params.err, side.scale, dt) {
            let fit = fit_range(side.offset, side.scale, last.p, to.p, params);
            let end = range_end(side, fit, to);
            nib = draw_range(lines, nib, side, fit, lp0, end)?;
            last = to;
            lp0 = end;
            // The trailing zeros are the halves that end here: the next range is as much longer.
            t0_u += 1;
            let shift = u32::trailing_zeros(t0_u);
            t0_u >>= shift;
            dt *= maths::from_u32(1u32 << shift);
        } else {
            t0_u *= 2;
            dt *= 0.5;
        }
    }
}

fn is_point(points: [Vec2; 4]) -> bool
    ensures { result ≡ is_point points }
{
    let p0 = points[0];
    p0 == points[1] && p0 == points[2] && p0 == points[3]
}

fn draw_side(lines: &mut [u32], nib: Nib, side: Side) -> Ink
    ensures { Drew lines.old (Ok nib) (side_events side) lines.new result }
{
    let points = side.points;
    if is_point(points) {
        return Ok(nib);
    }
    let first = first_tip(points);
    if looks_straight(points) && is_line(first, tip_at(points, 1.0), side.offset, side.scale) {
        return side_line(lines, Ok(nib), side, side.start, side.end);
    }
    walk_side(lines, nib, side, first)
}

// In device space, with no use of the given ends. The identity is applied to each line all the same.
fn device_side(cubic: [Vec2; 4], transform: [f32; 6], offset: f32) -> Side
    ensures { result ≡ device_side cubic transform offset }
{
    let p0 = apply(transform, cubic[0]);
    let p1 = apply(transform, cubic[1]);
    let p2 = apply(transform, cubic[2]);
    let p3 = apply(transform, cubic[3]);
    let points = [p0, p1, p2, p3];
    let transform = identity();
    Side {
        points,
        scale: 1.0,
        transform,
        offset,
        start: p0,
        end: p3,
    }
}

// In the space of the cubic.
fn local_side(cubic: [Vec2; 4], transform: [f32; 6], offset: f32, start: Vec2, end: Vec2) -> Side
    ensures { result ≡ local_side cubic transform offset start end }
{
    let t = transform;
    let sum = Vec2::new(t[0] + t[3], t[1] - t[2]);
    let difference = Vec2::new(t[0] - t[3], t[1] + t[2]);
    let scale = 0.5 * (sum.length() + difference.length());
    Side {
        points: cubic,
        scale,
        transform,
        offset,
        start,
        end,
    }
}

// Offset 0 or -0 is drawn in device space.
pub fn flatten_euler(
    lines: &mut [u32],
    ink: Ink,
    cubic: [Vec2; 4],
    transform: [f32; 6],
    offset: f32,
    start: Vec2,
    end: Vec2,
) -> Ink
    ensures { Drew lines.old ink (euler_events cubic transform offset start end) lines.new result }
{
    let nib = ink?;
    if offset == 0.0 {
        let side = device_side(cubic, transform, offset);
        return draw_side(lines, nib, side);
    }
    let side = local_side(cubic, transform, offset, start, end);
    draw_side(lines, nib, side)
}
