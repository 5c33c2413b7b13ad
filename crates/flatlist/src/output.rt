// What is written: the answer, lines of words, boxes.
use flatten::boxes::PathBox;
use flatten::call::Refused;
use refusals::{LineEnd, Refusal};
use std::io;

pub fn bad_input(rt: &impl Print) -> io::Result<()> {
    rt.println("bad input")
}

pub fn write_count(rt: &impl Print, count: u32) -> io::Result<()> {
    println!(rt; "lines {count}")
}

pub fn write_refused(rt: &impl Print, refused: Refused) -> io::Result<()> {
    let number = refused.why.number();
    let tag = refused.tag;
    println!(rt; "refused {number} at {tag}")
}

// What the number alone does not say goes to standard error, as a sentence: which end of a line is not a
// number, or that a count is not.
pub fn say_why(rt: &impl Eprint, why: Refusal) -> io::Result<()> {
    match why {
        Refusal::NoCount => rt.eprintln("the count of a curve's pieces is not a number"),
        Refusal::NotNumber(LineEnd::Start) => rt.eprintln("the start of a line is not a number"),
        Refusal::NotNumber(LineEnd::End) => rt.eprintln("the end of a line is not a number"),
        _ => Ok(()),
    }
}

// A word of a line, and before all but the first a space.
fn write_word(rt: &impl Print, i: usize, w: u32) -> io::Result<()> {
    if i > 0 {
        rt.print(" ")?;
    }
    print!(rt; "{w:08x}")
}

// The six words of a line.
fn write_line(rt: &impl Print, line: &[u32]) -> io::Result<()> {
    for (i, word) in line.iter().enumerate() {
        write_word(rt, i, *word)?;
    }
    rt.println("")
}

// The first `count` lines. No slice of so many: the call's contract alone does not say that the list has them.
fn write_lines(rt: &impl Print, lines: &[u32], count: u32) -> io::Result<()> {
    for line in lines.chunks(6).take(count as usize) {
        write_line(rt, line)?;
    }
    Ok(())
}

fn write_box(rt: &impl Print, b: PathBox) -> io::Result<()> {
    let PathBox {
        x0,
        y0,
        x1,
        y1,
        draw_flags,
        trans_ix,
    } = b;
    println!(rt; "box {x0} {y0} {x1} {y1} {draw_flags} {trans_ix}")
}

// What the call has drawn, be it whole or not.
pub fn write_drawn(
    rt: &impl Print,
    lines: &[u32],
    count: u32,
    boxes: &[PathBox],
) -> io::Result<()> {
    write_lines(rt, lines, count)?;
    for b in boxes {
        write_box(rt, *b)?;
    }
    Ok(())
}
