// The five commands. Each looks at what it is given before it writes, 20, then 22, then 21, so that a refusal changes nothing:
// the caller keeps its pen, and what it lent is as it was. The pen goes in by value and comes back where the command is accepted;
// in one struct with the lists it would be lent too, and a refusal would have to promise what the types say.
ghost use Rattle.std.specs.Prelude.{◌≡◌, ◌&&◌, List, ◌++◌, ℕ, ◌+◌, ◌*◌, ◌≤◌, leb, length, Ok};
ghost use Rattle.std.proofs.lemmas.List.Edits.{sets};
ghost use Rattle.std.specs.Float.{binary32};
ghost use Rattle.std.specs.Float.Ieee.{of_bits};
ghost use Rattle.std.specs.Float.Ieee.Scale.{finite};
ghost use Rattle.pattern.specs.Commands.{same, words_of, numbers, line, quad, cubic, move, draw, end, end_bit, behind, finishing, ended, told, written, inked, command_of};
ghost use Rattle.pattern.specs.Drawn.{verdict_of, soundly, drawn_by};

use crate::pen::{Fault, Open, Pen, Place, Spot};
use scene::reading::is_finite;

// Whether n more have room behind the first `at` of a list.
fn has_room(length: usize, at: u64, n: usize) -> bool
    ensures { result ≡ leb (at + n) length }
{
    let from = at as usize;
    from <= length && n <= length - from
}

// Two words at a turn, so that k goes on by two: of a loop that copies word by word the compiler would make a call of C's memcpy, which is not linked.
#[tactic(auto, using(crate::proofs::Laws::next_place))]
fn put_spots(points: &mut [u32], at: usize, spots: &[Spot])
    requires { at + length (words_of spots.now) ≤ length points.old }
    ensures { points.new ≡ sets points.old at (words_of spots.now) }
{
    let mut k = at;
    for spot in spots {
        points[k] = spot.x;
        points[k + 1] = spot.y;
        k += 2;
    }
}

// Whether one tag and n words have room.
fn have_room(tags: usize, at: u64, points: usize, from: u64, n: usize) -> bool
    ensures { result ≡ leb (at + 1) tags && leb (from + n) points }
{
    has_room(tags, at, 1) && has_room(points, from, n)
}

// 22 comes before 21.
#[tactic(auto, unfolding(crate::specs::Drawn::verdict_of))]
fn verdict(sound: bool, room: bool) -> Result<(), Fault>
    ensures { result ≡ verdict_of sound room }
{
    if !sound {
        return Err(Fault::NotFinite);
    }
    if !room {
        return Err(Fault::NoRoom);
    }
    Ok(())
}

// One tag and the points behind it, the subpath's start in front where it is its first.
#[tactic(auto, using(crate::proofs::Laws::words_length))]
fn put_behind(
    pen: Pen,
    then: Place,
    tag: u8,
    start: &[Spot],
    spots: &[Spot],
    tags: &mut [u8],
    points: &mut [u32],
) -> Pen
    requires { (pen.tags + 1 ≤ length tags.old) × (pen.points + (length start.now + length spots.now) * 2 ≤ length points.old) }
    ensures { told (Ok result) pen tags.new points.new
        ≡ written pen then (behind tag (words_of (start.now ++ spots.now))) tags.old points.old }
{
    let at = pen.tags;
    let from = pen.points as usize;
    let rest = from + start.len() * 2;
    tags[at as usize] = tag;
    put_spots(points, from, start);
    put_spots(points, rest, spots);
    Pen {
        place: then,
        tags: at + 1,
        points: (rest + spots.len() * 2) as u64,
    }
}

// The same if what the command names is sound.
fn add(
    pen: Pen,
    then: Place,
    sound: bool,
    tag: u8,
    start: &[Spot],
    spots: &[Spot],
    tags: &mut [u8],
    points: &mut [u32],
) -> Result<Pen, Fault>
    requires { (length start.now ≤ 1) × (length spots.now ≤ 3) }
    ensures { told result pen tags.new points.new
        ≡ soundly sound pen then (behind tag (words_of (start.now ++ spots.now))) tags.old points.old }
{
    let n = (start.len() + spots.len()) * 2;
    let room = have_room(tags.len(), pen.tags, points.len(), pen.points, n);
    verdict(sound, room)?;
    Ok(put_behind(pen, then, tag, start, spots, tags, points))
}

// The tag with its end bit set.
#[tactic(auto, unfolding(crate::specs::Commands::ended))]
fn with_end(tag: u8) -> u8
    ensures { result ≡ ended tag }
{
    if tag / 0x04 % 2 == 1 { tag } else { tag + 0x04 }
}

// The end bit on the last tag written. A pen that counts none, or more than are lent, has no such tag.
#[tactic(auto, using(crate::proofs::Laws::none_counted, crate::proofs::Laws::not_lent, crate::proofs::Laws::is_lent))]
fn mark_end(pen: Pen, then: Place, tags: &mut [u8]) -> Result<Pen, Fault>
    ensures { (points : List ℕ) → told result pen tags.new points ≡ inked pen then end_bit tags.old points }
{
    let count = pen.tags;
    if count == 0 {
        return Err(Fault::NoRoom);
    }
    let at = (count - 1) as usize;
    if at >= tags.len() {
        return Err(Fault::NoRoom);
    }
    tags[at] = with_end(tags[at]);
    Ok(Pen { place: then, ..pen })
}

// Equal as numbers: +0 equals -0, and a NaN equals nothing.
#[tactic(auto, unfolding(crate::specs::Commands::same, spiral::specs::Util::eq_of))]
fn is_same(p: Spot, q: Spot) -> bool
    ensures { result ≡ same p q }
{
    maths::float_of(p.x) == maths::float_of(q.x) && maths::float_of(p.y) == maths::float_of(q.y)
}

fn is_number(spot: Spot) -> bool
    ensures { result ≡ finite (of_bits binary32 spot.x) && finite (of_bits binary32 spot.y) }
{
    is_finite(maths::float_of(spot.x)) && is_finite(maths::float_of(spot.y))
}

// Whether no coordinate is a NaN or an infinity.
fn all_numbers(spots: &[Spot]) -> bool
    ensures { result ≡ numbers (words_of spots.now) }
{
    for spot in spots {
        if !is_number(*spot) {
            return false;
        }
    }
    true
}

// Finishes the open subpath, the pen then at another place.
#[tactic(auto, using(crate::proofs::Laws::nothing_due, crate::proofs::Laws::end_due, crate::proofs::Laws::line_due), unfolding(crate::specs::Commands::words_of, crate::specs::Drawn::soundly))]
fn finish(pen: Pen, then: Place, tags: &mut [u8], points: &mut [u32]) -> Result<Pen, Fault>
    ensures { told result pen tags.new points.new
        ≡ inked pen then (finishing pen.place.opened (same pen.place.last pen.place.first) pen.place.first) tags.old points.old }
{
    let place = pen.place;
    match place.opened {
        Open::Nothing | Open::Moved => Ok(Pen { place: then, ..pen }),
        Open::Drawing => {
            let first = place.first;
            if is_same(place.last, first) {
                return mark_end(pen, then, tags);
            }
            add(pen, then, true, 0x0d, &[], &[first], tags, points)
        }
    }
}

#[tactic(auto, using(crate::proofs::Laws::bad_move, crate::proofs::Laws::moves), unfolding(crate::specs::Commands::words_of, crate::specs::Commands::place_of))]
pub fn move_to(pen: Pen, to: Spot, tags: &mut [u8], points: &mut [u32]) -> Result<Pen, Fault>
    ensures { told result pen tags.new points.new ≡ command_of pen (move to) tags.old points.old }
{
    if !all_numbers(&[to]) {
        return Err(Fault::NotFinite);
    }
    let then = Place {
        opened: Open::Moved,
        first: to,
        last: to,
    };
    finish(pen, then, tags, points)
}

#[tactic(auto, using(crate::proofs::Laws::ends), unfolding(crate::specs::Commands::place_of))]
pub fn end(pen: Pen, tags: &mut [u8], points: &mut [u32]) -> Result<Pen, Fault>
    ensures { told result pen tags.new points.new ≡ command_of pen end tags.old points.old }
{
    let then = Place {
        opened: Open::Nothing,
        ..pen.place
    };
    finish(pen, then, tags, points)
}

// The points of a segment behind its start, which stands in front where the subpath begins with it.
#[tactic(auto, using(crate::proofs::Laws::nothing_open, crate::proofs::Laws::first_drawn, crate::proofs::Laws::more_drawn))]
fn segment(
    pen: Pen,
    tag: u8,
    spots: &[Spot],
    to: Spot,
    tags: &mut [u8],
    points: &mut [u32],
) -> Result<Pen, Fault>
    requires { length spots.now ≤ 3 }
    ensures { told result pen tags.new points.new ≡ drawn_by pen.place.opened pen tag (words_of spots.now) to tags.old points.old }
{
    let first = pen.place.first;
    let then = Place {
        opened: Open::Drawing,
        first,
        last: to,
    };
    let sound = all_numbers(spots);
    match pen.place.opened {
        Open::Nothing => Err(Fault::NoMove),
        Open::Moved => add(pen, then, sound, tag, &[first], spots, tags, points),
        Open::Drawing => add(pen, then, sound, tag, &[], spots, tags, points),
    }
}

pub fn line_to(pen: Pen, to: Spot, tags: &mut [u8], points: &mut [u32]) -> Result<Pen, Fault>
    ensures { told result pen tags.new points.new ≡ command_of pen (draw (line to)) tags.old points.old }
{
    segment(pen, 0x09, &[to], to, tags, points)
}

pub fn quad_to(
    pen: Pen,
    by: Spot,
    to: Spot,
    tags: &mut [u8],
    points: &mut [u32],
) -> Result<Pen, Fault>
    ensures { told result pen tags.new points.new ≡ command_of pen (draw (quad by to)) tags.old points.old }
{
    segment(pen, 0x0a, &[by, to], to, tags, points)
}

pub fn cubic_to(
    pen: Pen,
    from: Spot,
    by: Spot,
    to: Spot,
    tags: &mut [u8],
    points: &mut [u32],
) -> Result<Pen, Fault>
    ensures { told result pen tags.new points.new ≡ command_of pen (draw (cubic from by to)) tags.old points.old }
{
    segment(pen, 0x0b, &[from, by, to], to, tags, points)
}
