// A line of the list is a call's number, the ten numbers given and the four of the answer, as words of eight hex
// digits. Writes each line whose answer is another here, and last how many lines there were and how many differ.
use crate::{Answer, run};
use lists::{Calls, float, word};
use std::io;

// Whether the number has the bits of the word, or both are no numbers.
fn same(x: f32, w: u32) -> bool {
    if maths::is_nan(x) {
        return maths::is_nan(maths::float_of(w));
    }
    maths::word_of(x) == w
}

fn is_told(line: &[u8], r: Answer) -> bool {
    same(r.0, word(line, 11))
        & same(r.1, word(line, 12))
        & same(r.2, word(line, 13))
        & same(r.3, word(line, 14))
}

#[derive(Drop)]
struct Spiral;

impl Calls for Spiral {
    fn is_right(&mut self, line: &[u8]) -> bool {
        let v = [
            float(line, 1),
            float(line, 2),
            float(line, 3),
            float(line, 4),
            float(line, 5),
            float(line, 6),
            float(line, 7),
            float(line, 8),
            float(line, 9),
            float(line, 10),
        ];
        is_told(line, run(word(line, 0), v))
    }
}

pub fn replay_all(rt: &(impl Input + Print)) -> io::Result<()> {
    // The bytes of a line, its end with them.
    let mut line = [0u8; 135];
    lists::replay_lines(rt, &mut line, &mut Spiral)
}
