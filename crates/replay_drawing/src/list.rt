// A line of the list is a call, the words lent to it, its arguments, and what it answers and stores, as words of eight
// hex digits; a refusal's number is in the lowest byte of its word, the line's end in the next. Writes each line whose
// answer is another here, and last how many lines there were and how many differ.
use crate::draw;
use drawing::line::{IntBbox, Nib, Stopped};
use lists::{Calls, float, word};
use std::io;

fn whole(line: &[u8], k: usize) -> i32 {
    maths::to_i32(float(line, k))
}

// No derive on `Bbox`: the words would have to be made a box, field by field, for this one comparison.
fn is_box(line: &[u8], b: IntBbox) -> bool {
    (b.x0 == whole(line, 26))
        & (b.y0 == whole(line, 27))
        & (b.x1 == whole(line, 28))
        & (b.y1 == whole(line, 29))
}

fn is_stop(line: &[u8], number: u32, end: u32, count: u32) -> bool {
    let told = word(line, 24);
    (number == told % 256) & (end == told / 256) & (count == word(line, 25))
}

fn is_told(line: &[u8], r: Result<Nib, Stopped>) -> bool {
    match r {
        Ok(nib) => {
            let pen = nib.dried();
            is_stop(line, 0, 0, pen.count) & is_box(line, pen.bbox)
        }
        Err(s) => is_stop(line, s.why.number(), s.why.end(), s.count),
    }
}

// The lent words, stored and not, have the hash told.
fn is_drawn(lines: &mut [u32], line: &[u8]) -> bool {
    lists::fill(lines, lists::LENT);
    let r = draw(lines, line);
    is_told(line, r) & (lists::hash(lines) == word(line, 30))
}

// Room for 31,417 lines.
#[derive(Drop)]
struct Room([u32; 188502]);

impl Calls for Room {
    fn is_right(&mut self, line: &[u8]) -> bool {
        let lent = word(line, 1) as usize;
        lent <= self.0.len() && is_drawn(&mut self.0[..lent], line)
    }
}

pub fn replay_all(rt: &(impl Input + Print)) -> io::Result<()> {
    // The bytes of a line, its end with them.
    let mut line = [0u8; 351];
    lists::replay_lines(rt, &mut line, &mut Room([0; 188502]))
}
