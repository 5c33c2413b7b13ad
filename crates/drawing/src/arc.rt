// Arcs, as chords of a fixed turn.
#![tactic(auto, using(crate::specs::PageLaws::stopped), unfolding(crate::specs::Arc::arc_radius, crate::specs::Arc::arc_step, crate::specs::Arc::arc_count, crate::specs::Arc::arc_turn, crate::specs::Arc::arc_of, crate::proofs::Floats::of_bits, crate::proofs::Floats::round))]

ghost use Rattle.std.specs.Prelude.{◌≡◌, Ok};
ghost use Rattle.drawing.specs.Page.{Drew};
ghost use Rattle.drawing.specs.Arc.{arc_radius, arc_step, arc_count, arc_turn, chords, arc_of};

use crate::line::{Ink, Nib, write_line};
use spiral::util::{Vec2, apply};

const TOLERANCE: f32 = 0.25;

const MIN_THETA: f32 = 0.0001;

fn arc_radius(begin: Vec2, center: Vec2, transform: [f32; 6]) -> f32
    ensures { result ≡ arc_radius transform begin center }
{
    let spoke = apply(transform, begin) - apply(transform, center);
    maths::max(TOLERANCE, spoke.length())
}

fn arc_step(radius: f32) -> f32
    ensures { result ≡ arc_step radius }
{
    maths::max(2.0 * maths::acos(1.0 - TOLERANCE / radius), MIN_THETA)
}

fn arc_count(angle: f32, theta: f32) -> u32
    ensures { result ≡ arc_count angle theta }
{
    maths::to_u32(maths::ceil(angle / theta)).max(1)
}

fn arc_turn(theta: f32) -> [f32; 6]
    ensures { result ≡ arc_turn theta }
{
    let s = maths::sin(theta);
    let c = maths::cos(theta);
    [c, -s, s, c, 0.0, 0.0]
}

// From the device point p0: chords to where the arm r turns about the center, and one to the given end.
fn draw_chords(
    lines: &mut [u32],
    nib: Nib,
    p0: Vec2,
    r: Vec2,
    center: Vec2,
    end: Vec2,
    rot: [f32; 6],
    transform: [f32; 6],
    turns: u32,
) -> Ink
    ensures { Drew lines.old (Ok nib) (chords turns rot transform center end p0 r) lines.new result }
{
    let mut nib = nib;
    let mut at = p0;
    let mut arm = r;
    for _ in 0..turns {
        arm = apply(rot, arm);
        let next = apply(transform, center + arm);
        nib = write_line(lines, Ok(nib), at, next)?;
        at = next;
    }
    write_line(lines, Ok(nib), at, apply(transform, end))
}

pub fn flatten_arc(
    lines: &mut [u32],
    ink: Ink,
    begin: Vec2,
    end: Vec2,
    center: Vec2,
    angle: f32,
    transform: [f32; 6],
) -> Ink
    ensures { Drew lines.old ink (arc_of transform begin end center angle) lines.new result }
{
    let nib = ink?;
    let theta = arc_step(arc_radius(begin, center, transform));
    let n_lines = arc_count(angle, theta);
    let p0 = apply(transform, begin);
    let r = begin - center;
    let rot = arc_turn(theta);
    draw_chords(lines, nib, p0, r, center, end, rot, transform, n_lines - 1)
}
