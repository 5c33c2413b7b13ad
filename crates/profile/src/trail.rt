// One tag after the other: what the tags before leave to know, and what a tag adds.
ghost use Rattle.std.specs.Prelude.{◌≡◌, true, false, ◌+◌, ◌*◌, ◌%◌, ◌<◌, ◌≤◌, eqb, length};
ghost use Rattle.scene.specs.Reading.{wide};
ghost use Rattle.flatten.specs.Tag.{is_path, is_stroke};
ghost use Rattle.profile.specs.Rules.{has_segment, has_end, is_even_odd, six_at, is_zero, straight, aligned_to, rule_of};
ghost use Rattle.profile.specs.Trail.{Small, piece_of, InReach, entered_of, behind_of, plain_facts, segment_facts, stepped, step_of, no_trail};

use crate::rules::{Facts, Rule};
use flatten::tag::{Given, Head};
use spiral::util::Vec2;

// The six words of a segment's transform, and where it begins and ends.
#[derive(Clone, Copy)]
pub struct Piece {
    pub words: [u32; 6],
    pub first: Vec2,
    pub last: Vec2,
}

// Behind some tags: their segments and finished subpaths; whether a subpath is unfinished, and where it
// began; and the words of the first segment's transform. No Option: a trail that was entered has a start
// whether or not a subpath was unfinished before, and `segments` is 0 where there are no words.
#[derive(Clone, Copy)]
pub struct Trail {
    pub segments: u64,
    pub subpaths: u64,
    pub unfinished: bool,
    pub start: Vec2,
    pub words: [u32; 6],
}

fn six_words(scene: &[u32], at: usize) -> [u32; 6]
    requires { at + 6 ≤ length scene.now }
    ensures { result ≡ six_at scene.now at }
{
    [
        scene[at],
        scene[at + 1],
        scene[at + 2],
        scene[at + 3],
        scene[at + 4],
        scene[at + 5],
    ]
}

// +0 or -0.
fn is_zero(word: u32) -> bool
    ensures { result ≡ is_zero word }
{
    maths::float_of(word) == 0.0
}

// No shear: the second and the third number are zero.
#[tactic(auto, unfolding(crate::specs::Rules::straight))]
fn is_straight(words: [u32; 6]) -> bool
    ensures { result ≡ straight words }
{
    is_zero(words[1]) && is_zero(words[2])
}

// What is looked at of a segment that was read.
fn piece_of(given: Given, head: Head) -> Piece
    requires { InReach given.layout given.scene.now head }
    ensures { let g = given.entry in result ≡ piece_of g.layout g.scene.now head }
{
    let trans_ix = head.tag.monoid.trans_ix;
    let at = given.layout.transform_base as usize + trans_ix as usize * 6;
    let words = six_words(given.scene, at);
    let points = given.read_points(head.tag, false).unwrap();
    Piece {
        words,
        first: points[0],
        last: points[3],
    }
}

// The first segment has the sheet's transform, and where nothing is open a subpath begins.
#[tactic(auto, unfolding(crate::specs::Trail::entered_of))]
fn entered(trail: Trail, piece: Piece) -> Trail
    ensures { result ≡ entered_of trail piece }
{
    Trail {
        start: if trail.unfinished {
            trail.start
        } else {
            piece.first
        },
        words: if trail.segments == 0 {
            piece.words
        } else {
            trail.words
        },
        ..trail
    }
}

// A segment is behind: only its end bit ends its subpath.
#[tactic(auto, unfolding(crate::specs::Trail::behind_of))]
fn behind(trail: Trail, end: bool) -> Trail
    requires { Small trail }
    ensures { result ≡ behind_of trail end }
{
    let segments = trail.segments + 1;
    if end {
        return Trail {
            segments,
            subpaths: trail.subpaths + 1,
            unfinished: false,
            ..trail
        };
    }
    Trail {
        segments,
        unfinished: true,
        ..trail
    }
}

pub(crate) fn has_segment(head: Head) -> bool
    ensures { result ≡ has_segment head }
{
    head.tag.tag_byte % 4 != 0
}

fn has_end(head: Head) -> bool
    ensures { result ≡ has_end head }
{
    head.tag.tag_byte / 0x04 % 2 == 1
}

fn is_even_odd(head: Head) -> bool
    ensures { result ≡ is_even_odd head }
{
    head.flags / 0x4000_0000 % 2 == 1
}

// Of a tag with no segment.
#[tactic(auto, unfolding(crate::specs::Trail::plain_facts))]
fn plain_facts(head: Head) -> Facts
    ensures { result ≡ plain_facts head }
{
    Facts {
        segment: false,
        path: head.is_path(),
        end: has_end(head),
        stroke: head.is_stroke(),
        even_odd: is_even_odd(head),
        wide: false,
        aligned: false,
        shut: false,
        last: false,
        many: false,
    }
}

#[tactic(auto, unfolding(crate::specs::Rules::aligned_to, crate::specs::Rules::same_words))]
fn is_aligned(words: [u32; 6], sheet: [u32; 6]) -> bool
    ensures { result ≡ aligned_to words sheet }
{
    words == sheet && is_straight(words)
}

// Of a tag with a segment, on a trail that it has entered.
#[tactic(auto, unfolding(crate::specs::Trail::segment_facts))]
fn segment_facts(head: Head, piece: Piece, trail: Trail, total: u64) -> Facts
    requires { Small trail }
    ensures { result ≡ segment_facts head piece trail total }
{
    Facts {
        segment: true,
        path: head.is_path(),
        end: has_end(head),
        stroke: head.is_stroke(),
        even_odd: is_even_odd(head),
        wide: head.tag.tag_byte / 0x08 % 2 == 1,
        aligned: is_aligned(piece.words, trail.words),
        shut: piece.last == trail.start,
        last: total == trail.segments + 1,
        many: 4096 <= trail.segments,
    }
}

#[tactic(auto, unfolding(crate::specs::Trail::stepped))]
fn stepped(facts: Facts, behind: Trail) -> Result<Trail, Rule>
    ensures { result ≡ stepped (rule_of facts) behind }
{
    match facts.rule() {
        Some(rule) => Err(rule),
        None => Ok(behind),
    }
}

// The trail behind a tag that was read, on the trail of those before it, where the call has so many segments in all; or the rule
// that the tag breaks.
pub(crate) fn take_step(given: Given, head: Head, trail: Trail, total: u64) -> Result<Trail, Rule>
    requires small { Small trail }
    requires in_reach { has_segment head ≡ true → InReach given.layout given.scene.now head }
    ensures { let g = given.entry in result ≡ step_of g.layout g.scene.now head trail total }
{
    if !has_segment(head) {
        return stepped(plain_facts(head), trail);
    }
    let piece = piece_of(given, head);
    let within = entered(trail, piece);
    stepped(
        segment_facts(head, piece, within, total),
        behind(within, has_end(head)),
    )
}
