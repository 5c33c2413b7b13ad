// A line is stored as six words behind those stored before, until one is refused.
#![tactic(auto, using(crate::specs::PageLaws::stopped, crate::proofs::Draw::count_stops, crate::proofs::Draw::join_stops), unfolding(crate::specs::Page::lesser_of, crate::specs::Page::greater_of, crate::specs::Page::empty_reach, crate::specs::Page::reach_with, crate::specs::Page::whole_box, crate::specs::Page::pen_of, crate::specs::Page::dried_of, crate::specs::Page::stop_of, crate::specs::Sheet::empty_box))]

ghost use Rattle.std.specs.Prelude.{◌≡◌, List, [], ◌∷◌, ℕ, ◌+◌, ◌<◌, length};
ghost use Rattle.std.proofs.lemmas.List.Edits.{sets};
ghost use Rattle.drawing.specs.Sheet.{empty_box, record_of, line, no_count, no_join, line_through};
ghost use Rattle.drawing.specs.Page.{lesser_of, greater_of, empty_reach, reach_with, whole_box, pen_of, dried_of, stop_of, Drew};

use refusals::{LineEnd, Refusal};
use spiral::util::{Vec2, apply};

// The box of points.
#[derive(Clone, Copy)]
pub struct Bbox<T> {
    pub x0: T,
    pub y0: T,
    pub x1: T,
    pub y1: T,
}

pub type IntBbox = Bbox<i32>;

// By the coordinates as they are: floors and ceilings are taken once, of the whole.
pub type Reach = Bbox<f32>;

// How many lines are stored, the tag that draws, and the box of its lines.
#[derive(Clone, Copy)]
pub struct Pen {
    pub count: u32,
    pub tag: u32,
    pub bbox: IntBbox,
}

// Why no more is drawn, and how many whole lines are stored.
#[derive(Clone, Copy)]
pub struct Stopped {
    pub why: Refusal,
    pub count: u32,
}

impl Bbox<i32> {
    // The box of no point.
    pub fn empty() -> IntBbox
        ensures { result ≡ empty_box }
    {
        Bbox {
            x0: 2147483647,
            y0: 2147483647,
            x1: -2147483648,
            y1: -2147483648,
        }
    }
}

// The pen while lines are drawn, and the path that they are drawn on. In this order a line takes the fewest instructions,
// since a stop's `why` lies where the tag does.
#[derive(Clone, Copy)]
pub struct Nib {
    pub tag: u32,
    pub path: u32,
    pub count: u32,
    pub reach: Reach,
}

// The answer while lines are drawn: it goes in as well as out, and a stop comes back as it was.
pub type Ink = Result<Nib, Stopped>;

// Not f32's min and max, which answer otherwise at a NaN and at the two zeros. Two functions of one comparison each: one for both
// would be handed the comparison.
fn lesser(a: f32, b: f32) -> f32
    ensures { result ≡ lesser_of a b }
{
    if b < a {
        return b;
    }
    a
}

fn greater(a: f32, b: f32) -> f32
    ensures { result ≡ greater_of a b }
{
    if a < b {
        return b;
    }
    a
}

impl Bbox<f32> {
    // The reach of no point.
    pub fn empty() -> Reach
        ensures { result ≡ empty_reach }
    {
        let least = f32::from_bits(0xff80_0000);
        let most = f32::from_bits(0x7f80_0000);
        Bbox {
            x0: most,
            y0: most,
            x1: least,
            y1: least,
        }
    }

    pub fn add_pt(self, pt: Vec2) -> Reach
        ensures { result ≡ reach_with self pt }
    {
        let x0 = lesser(self.x0, pt.x);
        let y0 = lesser(self.y0, pt.y);
        let x1 = greater(self.x1, pt.x);
        let y1 = greater(self.y1, pt.y);
        Bbox { x0, y0, x1, y1 }
    }

    // `span` is the quickest floor, and the quickest ceiling: what is not taken of it is not compiled.
    pub fn whole(self) -> IntBbox
        ensures { result ≡ whole_box self }
    {
        let x0 = maths::span(self.x0)[0];
        let y0 = maths::span(self.y0)[0];
        let x1 = maths::span(self.x1)[1];
        let y1 = maths::span(self.y1)[1];
        Bbox { x0, y0, x1, y1 }
    }
}

impl Nib {
    pub fn dried(self) -> Pen
        ensures { result ≡ pen_of self }
    {
        Pen {
            count: self.count,
            tag: self.tag,
            bbox: self.reach.whole(),
        }
    }

    fn stop(self, why: Refusal) -> Stopped
        ensures { result ≡ stop_of self why }
    {
        let count = self.count;
        Stopped { why, count }
    }
}

// The answer as a tag leaves it.
pub fn dried(ink: Ink) -> Result<Pen, Stopped>
    ensures { result ≡ dried_of ink }
{
    Ok(ink?.dried())
}

fn put(lines: &mut [u32], at: usize, path: u32, tag: u32, p0: Vec2, p1: Vec2)
    requires { at + 5 < length lines.old }
    ensures { lines.new ≡ sets lines.old at (record_of path tag p0 p1) }
{
    let x0 = maths::word_of(p0.x);
    let y0 = maths::word_of(p0.y);
    let x1 = maths::word_of(p1.x);
    let y1 = maths::word_of(p1.y);
    lines[at] = path;
    lines[at + 1] = tag;
    lines[at + 2] = x0;
    lines[at + 3] = y0;
    lines[at + 4] = x1;
    lines[at + 5] = y1;
}

// Takes device points. The lines stay lent and the answer goes by value, here and in all that draws: in one struct each line would
// take both out of it and put a new nib in. A NaN is refused before room is looked for, the start's before the end's. What draws
// with this one hands the answer on: after a stop nothing more is stored.
pub fn write_line(lines: &mut [u32], ink: Ink, p0: Vec2, p1: Vec2) -> Ink
    ensures { Drew lines.old ink (line p0 p1 ∷ []) lines.new result }
{
    let nib = ink?;
    if p0.is_nan() {
        return Err(nib.stop(Refusal::NotNumber(LineEnd::Start)));
    }
    if p1.is_nan() {
        return Err(nib.stop(Refusal::NotNumber(LineEnd::End)));
    }
    let count = nib.count;
    // One more would make the count 2^32.
    if count >= 4294967295 {
        return Err(nib.stop(Refusal::NoRoom));
    }
    let at = count as usize;
    if at >= lines.len() / 6 {
        return Err(nib.stop(Refusal::NoRoom));
    }
    put(lines, at * 6, nib.path, nib.tag, p0, p1);
    Ok(Nib {
        count: count + 1,
        tag: nib.tag,
        path: nib.path,
        reach: nib.reach.add_pt(p0).add_pt(p1),
    })
}

pub fn output_line_with_transform(
    lines: &mut [u32],
    ink: Ink,
    p0: Vec2,
    p1: Vec2,
    transform: [f32; 6],
) -> Ink
    ensures { Drew lines.old ink (line_through transform p0 p1 ∷ []) lines.new result }
{
    write_line(lines, ink, apply(transform, p0), apply(transform, p1))
}

pub fn output_two_lines_with_transform(
    lines: &mut [u32],
    ink: Ink,
    p00: Vec2,
    p01: Vec2,
    p10: Vec2,
    p11: Vec2,
    transform: [f32; 6],
) -> Ink
    ensures { Drew lines.old ink (line_through transform p00 p01 ∷ line_through transform p10 p11 ∷ []) lines.new result }
{
    let first = output_line_with_transform(lines, ink, p00, p01, transform);
    output_line_with_transform(lines, first, p10, p11, transform)
}

// Where a subdivision count is not a number. Two functions, since each is the one event of the drawing that its name says, and one
// over a refusal would promise of every refusal what holds of these two.
pub fn no_count(ink: Ink) -> Ink
    ensures { (ws : List ℕ) → Drew ws ink (no_count ∷ []) ws result }
{
    Err(ink?.stop(Refusal::NoCount))
}

// Where the style names no join.
pub fn no_join(ink: Ink) -> Ink
    ensures { (ws : List ℕ) → Drew ws ink (no_join ∷ []) ws result }
{
    Err(ink?.stop(Refusal::NoJoin))
}
