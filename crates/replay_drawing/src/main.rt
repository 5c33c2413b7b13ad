// Replays the list on standard input, which docs/ORACLE.md describes. Here are the numbers and points of a line, and
// the calls of `drawing` and `curve` by their numbers in the list.
#![tactic(auto)]

mod list;

use curve::flatten_euler;
use drawing::arc::flatten_arc;
use drawing::cap::draw_cap;
use drawing::join::draw_join;
use drawing::line::{Ink, Nib, Reach};
use lists::{float, word};
use spiral::util::Vec2;
use std::io;

// The angle of an arc or the offset of a curve.
fn number(line: &[u8]) -> f32 {
    float(line, 5)
}

fn transform(line: &[u8]) -> [f32; 6] {
    [
        float(line, 6),
        float(line, 7),
        float(line, 8),
        float(line, 9),
        float(line, 10),
        float(line, 11),
    ]
}

fn point(line: &[u8], x: usize, y: usize) -> Vec2 {
    Vec2::new(float(line, x), float(line, y))
}

fn points(line: &[u8]) -> [Vec2; 6] {
    [
        point(line, 12, 13),
        point(line, 14, 15),
        point(line, 16, 17),
        point(line, 18, 19),
        point(line, 20, 21),
        point(line, 22, 23),
    ]
}

fn arc(lines: &mut [u32], ink: Ink, line: &[u8]) -> Ink {
    let points = points(line);
    let begin = points[0];
    let end = points[1];
    let center = points[2];
    flatten_arc(
        lines,
        ink,
        begin,
        end,
        center,
        number(line),
        transform(line),
    )
}

fn cap(lines: &mut [u32], ink: Ink, line: &[u8]) -> Ink {
    let points = points(line);
    let at = points[0];
    let cap0 = points[1];
    let cap1 = points[2];
    let tangent = points[3];
    draw_cap(
        lines,
        ink,
        word(line, 4),
        at,
        cap0,
        cap1,
        tangent,
        transform(line),
    )
}

fn join(lines: &mut [u32], ink: Ink, line: &[u8]) -> Ink {
    let points = points(line);
    let p0 = points[0];
    let tan_prev = points[1];
    let tan_next = points[2];
    let n_prev = points[3];
    let n_next = points[4];
    let flags = word(line, 4);
    draw_join(
        lines,
        ink,
        flags,
        p0,
        tan_prev,
        tan_next,
        n_prev,
        n_next,
        transform(line),
    )
}

fn euler(lines: &mut [u32], ink: Ink, line: &[u8]) -> Ink {
    let points = points(line);
    let cubic = [points[0], points[1], points[2], points[3]];
    let start = points[4];
    let end = points[5];
    flatten_euler(lines, ink, cubic, transform(line), number(line), start, end)
}

// Draws behind as many lines as the vector says. The Rust tells no tag: 0 stands for it. The call is a number that a
// list holds: as an enum, it would be named once more.
fn draw(lines: &mut [u32], line: &[u8]) -> Ink {
    let reach = Reach::empty();
    let ink = Ok(Nib {
        count: word(line, 2),
        tag: 0,
        path: word(line, 3),
        reach,
    });
    match word(line, 0) {
        1 => arc(lines, ink, line),
        2 => cap(lines, ink, line),
        3 => join(lines, ink, line),
        _ => euler(lines, ink, line),
    }
}

fn main(rt: HostRuntime) -> io::Result<()> {
    list::replay_all(&rt)
}
