// The caps of an open stroke.
#![tactic(auto, unfolding(crate::specs::Cap::square_cap, crate::specs::Cap::cap_by, crate::specs::Cap::cap_events))]

ghost use Rattle.drawing.specs.Page.{Drew};
ghost use Rattle.drawing.specs.Cap.{square_cap, cap_events};

use crate::arc::flatten_arc;
use crate::line::{Ink, output_line_with_transform};
use spiral::util::Vec2;

// Bits of the style's word and no enum: it is told once, here, and what is neither is a butt cap.
const CAP_SQUARE: u32 = 0x0100_0000;

const CAP_ROUND: u32 = 0x0200_0000;

const PI: f32 = 3.1415927;

fn square_cap(
    lines: &mut [u32],
    ink: Ink,
    cap0: Vec2,
    cap1: Vec2,
    offset_tangent: Vec2,
    transform: [f32; 6],
) -> Ink
    ensures { Drew lines.old ink (square_cap transform cap0 cap1 offset_tangent) lines.new result }
{
    let p0 = cap0 + offset_tangent;
    let p1 = cap1 + offset_tangent;
    let first = output_line_with_transform(lines, ink, cap0, p0, transform);
    let second = output_line_with_transform(lines, first, p1, cap1, transform);
    output_line_with_transform(lines, second, p0, p1, transform)
}

// The style has its two bits where an end cap has them.
pub fn draw_cap(
    lines: &mut [u32],
    ink: Ink,
    cap_style: u32,
    point: Vec2,
    cap0: Vec2,
    cap1: Vec2,
    offset_tangent: Vec2,
    transform: [f32; 6],
) -> Ink
    ensures { Drew lines.old ink (cap_events cap_style transform point cap0 cap1 offset_tangent) lines.new result }
{
    match cap_style {
        CAP_ROUND => flatten_arc(lines, ink, cap0, cap1, point, PI, transform),
        CAP_SQUARE => square_cap(lines, ink, cap0, cap1, offset_tangent, transform),
        _ => output_line_with_transform(lines, ink, cap0, cap1, transform),
    }
}
