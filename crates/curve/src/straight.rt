// Whether a whole side is one line, told by the slopes of its tangents, without an angle or a root: see specs/OneLine.antt.
#![tactic(auto, unfolding(crate::specs::OneLine::share_of, crate::specs::OneLine::room_of, crate::specs::OneLine::steep_of, crate::specs::OneLine::is_along, crate::specs::OneLine::are_along, crate::specs::OneLine::is_line, drawing::proofs::Floats::of_bits, drawing::proofs::Floats::round, drawing::proofs::Floats::div))]

ghost use Rattle.std.specs.Prelude.{◌≡◌};
ghost use Rattle.curve.specs.OneLine.{share_of, room_of, steep_of, is_along, are_along, is_line};

use crate::fit::Tip;
use spiral::util::Vec2;

// What a scale leaves of the limits to the chord's square. None is a NaN here and below, and no Option: every later comparison with
// it is false, so that nothing has to ask for it (specs/OneLine.antt).
fn share(scale: f32) -> f32
    ensures { result ≡ share_of scale }
{
    if scale <= 1.0 {
        return 1.0;
    }
    if scale <= 8.0 {
        return 0.015625;
    }
    if scale <= 64.0 {
        return 0.000244140625;
    }
    f32::NAN
}

// The same, and none where the scale is near zero.
fn room(scale: f32) -> f32
    ensures { result ≡ room_of scale }
{
    if 9.5367431640625e-7 <= scale {
        return share(scale);
    }
    f32::NAN
}

// How steep a tangent may be against the chord.
fn steepest(room: f32, squared: f32) -> f32
    ensures { result ≡ steep_of room squared }
{
    if squared <= 65536.0 * room {
        return 0.00006103515625;
    }
    if squared <= 1048576.0 * room {
        return 0.0000152587890625;
    }
    if squared <= 16777216.0 * room {
        return 0.000003814697265625;
    }
    f32::NAN
}

// Of a tangent h, over the chord.
fn is_along(steep: f32, squared: f32, h: Vec2) -> bool
    ensures { result ≡ is_along steep squared h }
{
    let x = h.x;
    0.0 < x && maths::abs(h.y) / x < steep && x <= squared
}

// Of both tangents: the one at the start turns the other way round.
fn are_along(steep: f32, squared: f32, c: Vec2, q0: Vec2, q1: Vec2) -> bool
    ensures { result ≡ are_along steep squared c q0 q1 }
{
    let start = Vec2 {
        x: q0.x * c.x + q0.y * c.y,
        y: q0.y * c.x - q0.x * c.y,
    };
    if is_along(steep, squared, start) {
        let end = Vec2 {
            x: q1.x * c.x + q1.y * c.y,
            y: q1.x * c.y - q1.y * c.x,
        };
        return is_along(steep, squared, end);
    }
    false
}

// Of the side's two tips. A short chord and a wide stroke are left to the walk.
pub(crate) fn is_line(from: Tip, to: Tip, offset: f32, scale: f32) -> bool
    ensures { result ≡ is_line from to offset scale }
{
    let c = to.p - from.p;
    let squared = c.length_squared();
    1.0 <= squared
        && maths::abs(offset) <= 256.0
        && are_along(steepest(room(scale), squared), squared, c, from.q, to.q)
}

// A first look, by one control point: most curves are told from lines by it, and are not looked at closer.
pub(crate) fn looks_straight(points: [Vec2; 4]) -> bool {
    let p0 = points[0];
    let q = points[1] - p0;
    let c = points[3] - p0;
    maths::abs(q.y * c.x - q.x * c.y) <= 0.0009765625 * (q.x * c.x + q.y * c.y)
}
