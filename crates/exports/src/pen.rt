// The commands of `pattern`. The pen is lent as seven words: what is open (0 nothing, 1 moved, 2 drawing), the words of its
// first and of its last point, and how many tags and point words are written. Seven zeros are a fresh pen.
ghost use Rattle.std.specs.Prelude.{◌≡◌, ◌≤◌, ℕ, List, ◌++◌};
ghost use Rattle.pattern.specs.Commands.{told, line, quad, cubic, move, draw, end};
ghost use Rattle.pattern.specs.declared.pen.Pen.{Pen};
ghost use Rattle.exports.specs.Pen.{open_of, open_word, spot_of, spot_at, pen_read, pen_words, penned, penned_of, penned_by};

use pattern::commands;
use pattern::pen::{Fault, Open, Pen, Place, Spot};

// What is open, by a number: the C interface has these.
fn open_of(word: u64) -> Open
    ensures { result ≡ open_of word }
{
    if word == 0 {
        return Open::Nothing;
    }
    if word == 1 {
        return Open::Moved;
    }
    Open::Drawing
}

// Back to the number.
fn open_word(opened: Open) -> u64
    ensures { result ≡ open_word opened }
{
    match opened {
        Open::Nothing => 0,
        Open::Moved => 1,
        Open::Drawing => 2,
    }
}

// The low 32 bits of two words.
fn spot_at(pen: &[u64; 7], at: usize) -> Spot
    requires { at ≤ 3 }
    ensures { result ≡ spot_at pen.now at }
{
    Spot {
        x: (pen[at] % 0x1_0000_0000) as u32,
        y: (pen[at + 1] % 0x1_0000_0000) as u32,
    }
}

pub(crate) fn read_pen(pen: &[u64; 7]) -> Pen
    ensures { result ≡ pen_read pen.now }
{
    let opened = open_of(pen[0]);
    let first = spot_at(pen, 1);
    let last = spot_at(pen, 3);
    let place = Place {
        opened,
        first,
        last,
    };
    Pen {
        place,
        tags: pen[5],
        points: pen[6],
    }
}

pub(crate) fn put_pen(words: &mut [u64; 7], pen: Pen)
    ensures { words.new ≡ pen_words pen }
{
    let place = pen.place;
    *words = [
        open_word(place.opened),
        place.first.x as u64,
        place.first.y as u64,
        place.last.x as u64,
        place.last.y as u64,
        pen.tags,
        pen.points,
    ];
}

// The answer's number. After a refusal the pen's words stay as they are.
fn keep_pen(drew: Result<Pen, Fault>, words: &mut [u64; 7]) -> u32
    ensures { (pen : Pen) (rest tags points : List ℕ)
        → penned result (words.new ++ rest) tags points ≡ penned_of (told drew pen tags points) (words.old ++ rest) }
{
    match drew {
        Ok(pen) => {
            put_pen(words, pen);
            0
        }
        Err(fault) => fault.number(),
    }
}

fn spot_of(x: f32, y: f32) -> Spot
    ensures { result ≡ spot_of x y }
{
    Spot {
        x: maths::word_of(x),
        y: maths::word_of(y),
    }
}

// One body for each command, since C has a name for each: one for all would take the command as a closure that holds the lists,
// and promise what that does.
#[unsafe(no_mangle)]
pub extern "C" fn hinth_move(
    pen: &mut [u64],
    x: f32,
    y: f32,
    tags: &mut [u8],
    points: &mut [u32],
) -> u32
    ensures { penned result pen.new tags.new points.new
        ≡ penned_by pen.old (move (spot_of x y)) tags.old points.old }
{
    let Some(words) = pen.first_chunk_mut() else {
        return Fault::NoRoom.number();
    };
    let drew = commands::move_to(read_pen(words), spot_of(x, y), tags, points);
    keep_pen(drew, words)
}

#[unsafe(no_mangle)]
pub extern "C" fn hinth_line(
    pen: &mut [u64],
    x: f32,
    y: f32,
    tags: &mut [u8],
    points: &mut [u32],
) -> u32
    ensures { penned result pen.new tags.new points.new
        ≡ penned_by pen.old (draw (line (spot_of x y))) tags.old points.old }
{
    let Some(words) = pen.first_chunk_mut() else {
        return Fault::NoRoom.number();
    };
    let drew = commands::line_to(read_pen(words), spot_of(x, y), tags, points);
    keep_pen(drew, words)
}

#[unsafe(no_mangle)]
pub extern "C" fn hinth_quad(
    pen: &mut [u64],
    x1: f32,
    y1: f32,
    x: f32,
    y: f32,
    tags: &mut [u8],
    points: &mut [u32],
) -> u32
    ensures { penned result pen.new tags.new points.new
        ≡ penned_by pen.old (draw (quad (spot_of x1 y1) (spot_of x y))) tags.old points.old }
{
    let Some(words) = pen.first_chunk_mut() else {
        return Fault::NoRoom.number();
    };
    let by = spot_of(x1, y1);
    let to = spot_of(x, y);
    let drew = commands::quad_to(read_pen(words), by, to, tags, points);
    keep_pen(drew, words)
}

#[unsafe(no_mangle)]
pub extern "C" fn hinth_cubic(
    pen: &mut [u64],
    x1: f32,
    y1: f32,
    x2: f32,
    y2: f32,
    x: f32,
    y: f32,
    tags: &mut [u8],
    points: &mut [u32],
) -> u32
    ensures { penned result pen.new tags.new points.new
        ≡ penned_by pen.old (draw (cubic (spot_of x1 y1) (spot_of x2 y2) (spot_of x y))) tags.old points.old }
{
    let Some(words) = pen.first_chunk_mut() else {
        return Fault::NoRoom.number();
    };
    let from = spot_of(x1, y1);
    let by = spot_of(x2, y2);
    let to = spot_of(x, y);
    let drew = commands::cubic_to(read_pen(words), from, by, to, tags, points);
    keep_pen(drew, words)
}

#[unsafe(no_mangle)]
pub extern "C" fn hinth_end(pen: &mut [u64], tags: &mut [u8], points: &mut [u32]) -> u32
    ensures { penned result pen.new tags.new points.new
        ≡ penned_by pen.old end tags.old points.old }
{
    let Some(words) = pen.first_chunk_mut() else {
        return Fault::NoRoom.number();
    };
    let drew = commands::end(read_pen(words), tags, points);
    keep_pen(drew, words)
}
