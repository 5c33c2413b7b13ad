// One tag.
ghost use Rattle.std.specs.Prelude.{◌≡◌, false, ◌+◌, ◌-◌, ◌%◌, ◌^◌, ◌<◌};
ghost use Rattle.drawing.specs.Sheet.{halt, sheet, empty_box};
ghost use Rattle.flatten.specs.Tag.{finite_only, drawing_events, events_by, events_at};
ghost use Rattle.flatten.specs.Step.{tag_word, drawn_of, change_of, turn_of, refused_at, stepped, step_of};

use crate::boxes::{Change, Mark};
use crate::call::Turn;
use crate::tag::{Given, Head};
use drawing::line::{IntBbox, Nib, Pen, Reach, Stopped, dried};
use refusals::Refusal;
use scene::reading::all_finite;
use segment::{Segment, Shape};

// What a tag with a segment draws.
#[derive(Clone, Copy)]
pub struct Drawing {
    pub segment: Segment,
    pub shape: Shape,
}

#[tactic(auto, unfolding(crate::specs::Tag::finite_only))]
fn finite_only(z: [f32; 6]) -> Result<[f32; 6], Refusal>
    ensures { result ≡ finite_only z }
{
    if all_finite(z) {
        Ok(z)
    } else {
        Err(Refusal::BadTransform)
    }
}

#[tactic(auto, unfolding(crate::specs::Tag::events_by))]
fn read_drawing(given: Given, ix: u64, head: Head) -> Result<Drawing, Refusal>
    ensures { let g = given.entry in drawing_events result
        ≡ events_by false g.layout g.scene.now g.prefixes.now ix head }
{
    let z = given.read_transform(head)?;
    let transform = finite_only(z)?;
    let cubic = given.read_points(head.tag, head.is_stroke())?;
    let shape = given.read_shape(ix, head)?;
    let segment = Segment {
        cubic,
        transform,
        flags: head.flags,
    };
    Ok(Drawing { segment, shape })
}

// Each tag starts a box of its own: that of the last one is merged.
fn draw_tag(
    given: Given,
    lines: &mut [u32],
    ix: u64,
    head: Head,
    word: u32,
    count: u32,
) -> Result<Pen, Stopped>
    ensures { let g = given.entry in sheet lines.new result
        ≡ drawn_of head.tag.monoid.path_ix (record { count = count; tag = word; bbox = empty_box }) lines.old (events_at g.layout g.scene.now g.prefixes.now ix head) }
{
    if head.tag.tag_byte % 4 == 0 {
        let bbox = IntBbox::empty();
        return Ok(Pen {
            count,
            tag: word,
            bbox,
        });
    }
    match read_drawing(given, ix, head) {
        Ok(drawing) => {
            let nib = Nib {
                count,
                tag: word,
                path: head.tag.monoid.path_ix,
                reach: Reach::empty(),
            };
            dried(drawing.segment.draw_shape(lines, Ok(nib), drawing.shape))
        }
        Err(why) => Err(Stopped { why, count }),
    }
}

#[tactic(auto, unfolding(crate::specs::Step::change_of))]
fn change_of(head: Head, bbox: IntBbox) -> Change
    ensures { result ≡ change_of head bbox }
{
    let mark = Mark {
        draw_flags: head.flags / 0x4000_0000 % 2,
        trans_ix: head.tag.monoid.trans_ix,
    };
    Change {
        mark: if head.is_path() { Some(mark) } else { None },
        bbox,
    }
}

fn one_less(left: u64) -> u64
    ensures { result ≡ left - 1 }
{
    left.saturating_sub(1)
}

// An index is 64 bits wide and wraps.
fn next_index(ix: u64) -> u64
    ensures { result ≡ (ix + 1) % 2 ^ 64 }
{
    std::num::wrapping_add_u64(ix, 1)
}

// Where a tag is stopped as it draws, it is not finished: no box of it is merged.
fn stopped_at(t: Turn, head: Head, why: Refusal, count: u32) -> Turn
    ensures { result ≡ turn_of t head (halt why count) }
{
    let tag = t.tag;
    let at = head.tag.monoid.path_ix as usize;
    let none = IntBbox::empty();
    let change = change_of(head, none);
    Turn {
        left: 0,
        tag,
        count,
        stop: Some(why),
        at,
        change,
    }
}

fn turn_of(t: Turn, head: Head, drawn: Result<Pen, Stopped>) -> Turn
    ensures { result ≡ turn_of t head drawn }
{
    match drawn {
        Ok(pen) => {
            let at = head.tag.monoid.path_ix as usize;
            let change = change_of(head, pen.bbox);
            Turn {
                left: one_less(t.left),
                tag: next_index(t.tag),
                count: pen.count,
                stop: None,
                at,
                change,
            }
        }
        Err(s) => stopped_at(t, head, s.why, s.count),
    }
}

#[tactic(auto, unfolding(crate::specs::Step::refused_at))]
fn refused_at(t: Turn, why: Refusal) -> Turn
    ensures { result ≡ refused_at t why }
{
    Turn {
        left: 0,
        tag: t.tag,
        count: t.count,
        stop: Some(why),
        at: 0,
        change: Change::nothing(),
    }
}

// By which the lines of a tag tell it: its index modulo 2^32.
fn tag_word(ix: u64) -> u32
    ensures { result ≡ tag_word ix }
{
    (ix % 4294967296) as u32
}

pub fn step(given: Given, lines: &mut [u32], n_boxes: usize, t: Turn) -> Turn
    ensures { let g = given.entry in (stepped result lines.new
        ≡ step_of g.layout g.scene.now g.prefixes.now lines.old n_boxes t)
        × (0 < t.left → result.left < t.left) }
{
    match given.read_head(n_boxes, t.tag) {
        Ok(head) => {
            let word = tag_word(t.tag);
            let drawn = draw_tag(given, lines, t.tag, head, word, t.count);
            turn_of(t, head, drawn)
        }
        Err(why) => refused_at(t, why),
    }
}
