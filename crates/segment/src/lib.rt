// What a segment draws: a fill, a stroke, or the cap where a stroke starts.
#![tactic(auto, using(drawing::specs::PageLaws::nothing), unfolding(crate::specs::Segment::quarter, crate::specs::Segment::steady_of, crate::specs::Segment::neighbor_of, crate::specs::Segment::tangents_of, crate::specs::Segment::edges_of, crate::specs::Segment::sides_events, crate::specs::Segment::end_events, crate::specs::Segment::stroke_events, crate::specs::Segment::start_cap_events, crate::specs::Segment::fill_events, crate::specs::Segment::shape_events, drawing::proofs::Floats::of_bits, drawing::proofs::Floats::round))]

ghost use Rattle.std.specs.Prelude.{◌≡◌};
ghost use Rattle.drawing.specs.Cubic.{point};
ghost use Rattle.drawing.specs.Page.{Drew};
ghost use Rattle.segment.specs.Segment.{quarter, steady_of, neighbor_of, tangents_of, edges_of, sides_events, end_events, stroke_events, start_cap_events, fill_events, shape_events};

use curve::flatten_euler;
use drawing::cap::draw_cap;
use drawing::cubic::{cubic_end_tangent, cubic_start_tangent};
use drawing::join::draw_join;
use drawing::line::Ink;
use spiral::euler::TANGENT_THRESH;
use spiral::util::Vec2;

const START_CAP_MASK: u32 = 0x0c00_0000;

const END_CAP_MASK: u32 = 0x0300_0000;

// The segment after a stroked one: whether the two are joined, and its tangent, which it has in either case.
#[derive(Clone, Copy)]
pub struct Neighbor {
    pub do_join: bool,
    pub tangent: Vec2,
}

// What is drawn of a segment. A stroke has its line width.
#[derive(Clone, Copy)]
pub enum Shape {
    Nothing,
    Fill,
    StartCap(f32),
    Stroke(f32, Neighbor),
}

// A segment as it is drawn: its points, its transform, and the flags of its style.
#[derive(Clone, Copy)]
pub struct Segment {
    pub cubic: [Vec2; 4],
    pub transform: [f32; 6],
    pub flags: u32,
}

// The tangents where a segment starts, where it ends, and where the next one starts.
#[derive(Clone, Copy)]
pub struct Tangents {
    pub start: Vec2,
    pub prev: Vec2,
    pub next: Vec2,
}

// The tangent at the end and the normals, as long as the offset.
#[derive(Clone, Copy)]
pub struct Edges {
    pub offset_tangent: Vec2,
    pub n_start: Vec2,
    pub n_prev: Vec2,
    pub n_next: Vec2,
}

// A neighbour that ends its subpath only marks where the caps go, or closes it.
pub fn neighbor_of(tag_byte: u8, cubic: [Vec2; 4]) -> Neighbor
    ensures { result ≡ neighbor_of tag_byte cubic }
{
    if tag_byte / 0x04 % 2 == 1 {
        let chord = cubic[3] - cubic[0];
        return Neighbor {
            do_join: tag_byte % 4 == 1,
            tangent: chord,
        };
    }
    let tangent = cubic_start_tangent(cubic);
    Neighbor {
        do_join: true,
        tangent,
    }
}

fn quarter_turn(v: Vec2) -> Vec2
    ensures { result ≡ quarter v }
{
    Vec2 { x: -v.y, y: v.x }
}

// A tangent that is too short to have a direction points along x.
fn steady(v: Vec2) -> Vec2
    ensures { result ≡ steady_of v }
{
    if v.length_squared() < TANGENT_THRESH * TANGENT_THRESH {
        return Vec2::new(TANGENT_THRESH, 0.0);
    }
    v
}

fn tangents_of(cubic: [Vec2; 4], next: Vec2) -> Tangents
    ensures { result ≡ tangents_of cubic next }
{
    let start = steady(cubic_start_tangent(cubic));
    let prev = steady(cubic_end_tangent(cubic));
    let next = steady(next);
    Tangents { start, prev, next }
}

fn edges_of(t: Tangents, offset: f32) -> Edges
    ensures { result ≡ edges_of t offset }
{
    let n_start = quarter_turn(t.start).normalize() * offset;
    let offset_tangent = t.prev.normalize() * offset;
    let n_prev = quarter_turn(offset_tangent);
    let n_next = quarter_turn(t.next.normalize()) * offset;
    Edges {
        offset_tangent,
        n_start,
        n_prev,
        n_next,
    }
}

impl Segment {
    // The side at the offset, then the one across.
    fn draw_sides(self, lines: &mut [u32], ink: Ink, offset: f32, e: Edges) -> Ink
        ensures { Drew lines.old ink (sides_events self.transform self.cubic offset e) lines.new result }
    {
        let cubic = self.cubic;
        let transform = self.transform;
        let p0 = cubic[0];
        let p3 = cubic[3];
        let start = p0 + e.n_start;
        let end = p3 + e.n_prev;
        let back_start = p0 - e.n_start;
        let back_end = p3 - e.n_prev;
        let first = flatten_euler(lines, ink, cubic, transform, offset, start, end);
        flatten_euler(
            lines, first, cubic, transform, -offset, back_start, back_end,
        )
    }

    // The join to the next segment, or the cap where the stroke ends.
    fn draw_end(self, lines: &mut [u32], ink: Ink, do_join: bool, t: Tangents, e: Edges) -> Ink
        ensures { Drew lines.old ink (end_events do_join self.flags self.transform (point self.cubic 3) t e) lines.new result }
    {
        let p3 = self.cubic[3];
        if do_join {
            return draw_join(
                lines,
                ink,
                self.flags,
                p3,
                t.prev,
                t.next,
                e.n_prev,
                e.n_next,
                self.transform,
            );
        }
        draw_cap(
            lines,
            ink,
            self.flags & END_CAP_MASK,
            p3,
            p3 + e.n_prev,
            p3 - e.n_prev,
            e.offset_tangent,
            self.transform,
        )
    }

    fn stroke(self, lines: &mut [u32], ink: Ink, width: f32, neighbor: Neighbor) -> Ink
        ensures { Drew lines.old ink (stroke_events self.flags self.transform self.cubic width neighbor) lines.new result }
    {
        let offset = 0.5 * width;
        let t = tangents_of(self.cubic, neighbor.tangent);
        let e = edges_of(t, offset);
        let sides = self.draw_sides(lines, ink, offset, e);
        self.draw_end(lines, sides, neighbor.do_join, t, e)
    }

    // The curve alone: a subpath that the data leave open is not closed.
    fn fill(self, lines: &mut [u32], ink: Ink) -> Ink
        ensures { Drew lines.old ink (fill_events self.transform self.cubic) lines.new result }
    {
        let cubic = self.cubic;
        let transform = self.transform;
        flatten_euler(lines, ink, cubic, transform, 0.0, cubic[0], cubic[3])
    }

    fn start_cap(self, lines: &mut [u32], ink: Ink, width: f32) -> Ink
        ensures { Drew lines.old ink (start_cap_events self.flags self.transform self.cubic width) lines.new result }
    {
        let p0 = self.cubic[0];
        let offset_tangent = (self.cubic[3] - p0).normalize() * (0.5 * width);
        let n = quarter_turn(offset_tangent);
        let style = (self.flags & START_CAP_MASK) / 4;
        draw_cap(
            lines,
            ink,
            style,
            p0,
            p0 - n,
            p0 + n,
            -offset_tangent,
            self.transform,
        )
    }

    pub fn draw_shape(self, lines: &mut [u32], ink: Ink, shape: Shape) -> Ink
        ensures { Drew lines.old ink (shape_events shape self.flags self.transform self.cubic) lines.new result }
    {
        match shape {
            Shape::Nothing => ink,
            Shape::Fill => self.fill(lines, ink),
            Shape::StartCap(width) => self.start_cap(lines, ink, width),
            Shape::Stroke(width, neighbor) => self.stroke(lines, ink, width, neighbor),
        }
    }
}
