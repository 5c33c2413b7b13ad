// The joins between the segments of a stroke.
#![tactic(auto, unfolding(crate::specs::Join::cross, crate::specs::Join::corners_of, crate::specs::Join::bevel_events, crate::specs::Join::in_limit, crate::specs::Join::miter_point, crate::specs::Join::miter_events, crate::specs::Join::round_events, crate::specs::Join::round_by, crate::specs::Join::join_events, crate::specs::Join::join_by, crate::proofs::Floats::of_bits, crate::proofs::Floats::round))]

ghost use Rattle.std.specs.Prelude.{◌≡◌};
ghost use Rattle.drawing.specs.Page.{Drew};
ghost use Rattle.drawing.specs.Join.{cross, corners_of, both_sides, bevel_events, in_limit, miter_point, miter_events, round_events, join_events};

use crate::arc::flatten_arc;
use crate::line::{Ink, no_join, output_line_with_transform, output_two_lines_with_transform};
use spiral::euler::TANGENT_THRESH;
use spiral::util::Vec2;

// Bits of the style's word and no enum: it is told once, in `draw_join`, which refuses what is none of the three.
const JOIN_MASK: u32 = 0x3000_0000;

const JOIN_BEVEL: u32 = 0;

const JOIN_MITER: u32 = 0x1000_0000;

const JOIN_ROUND: u32 = 0x2000_0000;

// Where the two sides of the stroke end and start again.
#[derive(Clone, Copy)]
pub struct Corners {
    pub front0: Vec2,
    pub front1: Vec2,
    pub back0: Vec2,
    pub back1: Vec2,
}

// How the stroke bends: the tangents before and after, their cross and dot products.
#[derive(Clone, Copy)]
pub struct Bend {
    pub tan_prev: Vec2,
    pub tan_next: Vec2,
    pub cr: f32,
    pub d: f32,
}

fn cross_of(a: Vec2, b: Vec2) -> f32
    ensures { result ≡ cross a b }
{
    a.x * b.y - a.y * b.x
}

fn corners_of(p0: Vec2, n_prev: Vec2, n_next: Vec2) -> Corners
    ensures { result ≡ corners_of p0 n_prev n_next }
{
    Corners {
        front0: p0 + n_prev,
        front1: p0 + n_next,
        back0: p0 - n_next,
        back1: p0 - n_prev,
    }
}

// The front, then the back. Of the four parameters here and in the joins, `line.rt` says why the first two are two; the corners are
// made by one join for all three, and the transform is the segment's.
fn draw_sides(lines: &mut [u32], ink: Ink, k: Corners, transform: [f32; 6]) -> Ink
    ensures { Drew lines.old ink (both_sides transform k) lines.new result }
{
    output_two_lines_with_transform(lines, ink, k.front0, k.front1, k.back0, k.back1, transform)
}

fn bevel_join(lines: &mut [u32], ink: Ink, k: Corners, transform: [f32; 6]) -> Ink
    ensures { Drew lines.old ink (bevel_events transform k) lines.new result }
{
    if k.front0 == k.front1 || k.back0 == k.back1 {
        return ink;
    }
    draw_sides(lines, ink, k, transform)
}

fn in_limit(cr: f32, d: f32, limit: f32) -> bool
    ensures { result ≡ in_limit cr d limit }
{
    let hypot = maths::hypot(cr, d);
    2.0 * hypot < (hypot + d) * limit * limit && maths::abs(cr) > TANGENT_THRESH * TANGENT_THRESH
}

fn miter_point(b: Bend, last: Vec2, this: Vec2) -> Vec2
    ensures { result ≡ miter_point b last this }
{
    let h = cross_of(b.tan_prev, this - last) / b.cr;
    this - b.tan_next * h
}

// The back runs the other way, so its corners stand in another order than the front's, and the two sides are written out.
fn miter_join(
    lines: &mut [u32],
    ink: Ink,
    k: Corners,
    b: Bend,
    limit: f32,
    transform: [f32; 6],
) -> Ink
    ensures { Drew lines.old ink (miter_events transform k b limit) lines.new result }
{
    if in_limit(b.cr, b.d, limit) {
        if b.cr > 0.0 {
            let tip = miter_point(b, k.back1, k.back0);
            let first = output_line_with_transform(lines, ink, k.back0, tip, transform);
            return draw_sides(lines, first, Corners { back0: tip, ..k }, transform);
        }
        let tip = miter_point(b, k.front0, k.front1);
        let first = output_line_with_transform(lines, ink, k.front0, tip, transform);
        return draw_sides(lines, first, Corners { front0: tip, ..k }, transform);
    }
    draw_sides(lines, ink, k, transform)
}

fn round_join(
    lines: &mut [u32],
    ink: Ink,
    k: Corners,
    b: Bend,
    p0: Vec2,
    transform: [f32; 6],
) -> Ink
    ensures { Drew lines.old ink (round_events transform k b p0) lines.new result }
{
    let angle = maths::abs(maths::atan2(b.cr, b.d));
    if b.cr > 0.0 {
        let first = flatten_arc(lines, ink, k.back0, k.back1, p0, angle, transform);
        return output_line_with_transform(lines, first, k.front0, k.front1, transform);
    }
    let first = flatten_arc(lines, ink, k.front0, k.front1, p0, angle, transform);
    output_line_with_transform(lines, first, k.back0, k.back1, transform)
}

pub fn draw_join(
    lines: &mut [u32],
    ink: Ink,
    style_flags: u32,
    p0: Vec2,
    tan_prev: Vec2,
    tan_next: Vec2,
    n_prev: Vec2,
    n_next: Vec2,
    transform: [f32; 6],
) -> Ink
    ensures { Drew lines.old ink (join_events style_flags transform p0 tan_prev tan_next n_prev n_next) lines.new result }
{
    let k = corners_of(p0, n_prev, n_next);
    let cr = cross_of(tan_prev, tan_next);
    let d = tan_prev.dot(tan_next);
    let b = Bend {
        tan_prev,
        tan_next,
        cr,
        d,
    };
    match style_flags & JOIN_MASK {
        JOIN_BEVEL => bevel_join(lines, ink, k, transform),
        JOIN_MITER => miter_join(lines, ink, k, b, maths::half(style_flags), transform),
        JOIN_ROUND => round_join(lines, ink, k, b, p0, transform),
        _ => no_join(ink),
    }
}
