// What the letters and numbers of a text are drawn with: the commands of `pattern`, one for each full group of numbers. The pen and
// the two lists go apart, as those take them: a struct of the three would be taken apart again at each command.
ghost use Rattle.std.specs.Prelude.{◌≡◌, ◌<◌};
ghost use Rattle.pattern.specs.Commands.{end, outcome, told, command_of};
ghost use Rattle.svg.specs.Language.{behind};
ghost use Rattle.svg.specs.Hands.{pushed, restarts_by, home_by, command_by, lettered, counted, onward, closed, drawn_of};

use crate::steps::Kind;
use pattern::commands::{cubic_to, end, line_to, move_to, quad_to};
use pattern::pen::{Fault, Pen, Spot};

// Six numbers, as the words of their f32: here the last of a text, and in `cut` a transform, by the names that SVG has for its
// numbers: it takes (x, y) to (a*x + c*y + e, b*x + d*y + f). A command takes its own by their names; in an array it would take
// them by indices, `six[4]` for `six.e`, and a number more would still shift all.
#[derive(Clone, Copy)]
pub struct Six {
    pub a: u32,
    pub b: u32,
    pub c: u32,
    pub d: u32,
    pub e: u32,
    pub f: u32,
}

// What the next command is made of: its kind, how many of its numbers are read, these numbers, the first point of the
// subpath, and whether it stands behind Z.
#[derive(Clone, Copy)]
pub struct Hand {
    pub kind: Kind,
    pub have: u64,
    pub six: Six,
    pub home: Spot,
    pub shut: bool,
}

fn push(six: Six, w: u32) -> Six
    ensures { result ≡ pushed six w }
{
    Six {
        a: six.b,
        b: six.c,
        c: six.d,
        d: six.e,
        e: six.f,
        f: w,
    }
}

// The command of a full group: its numbers are the last.
fn draw(kind: Kind, six: Six, pen: Pen, tags: &mut [u8], points: &mut [u32]) -> Result<Pen, Fault>
    ensures { told result pen tags.new points.new ≡ drawn_of kind six pen tags.old points.old }
{
    let from = Spot { x: six.a, y: six.b };
    let by = Spot { x: six.c, y: six.d };
    let to = Spot { x: six.e, y: six.f };
    match kind {
        Kind::Move => move_to(pen, to, tags, points),
        Kind::Line => line_to(pen, to, tags, points),
        Kind::Quad => quad_to(pen, by, to, tags, points),
        Kind::Cubic => cubic_to(pen, from, by, to, tags, points),
    }
}

// Behind Z every command but M starts at the closed subpath's first point.
fn restarts(kind: Kind, shut: bool) -> bool
    ensures { result ≡ restarts_by kind shut }
{
    match kind {
        Kind::Move => false,
        _ => shut,
    }
}

// A full group. Where the move is accepted and the command refused, the pen stands at the move.
pub(crate) fn command(
    hand: Hand,
    pen: &mut Pen,
    tags: &mut [u8],
    points: &mut [u32],
) -> Result<(), Fault>
    ensures { outcome result pen.new tags.new points.new ≡ command_by hand pen.old tags.old points.old }
{
    if restarts(hand.kind, hand.shut) {
        *pen = move_to(*pen, hand.home, tags, points)?;
    }
    *pen = draw(hand.kind, hand.six, *pen, tags, points)?;
    Ok(())
}

// Z, and the end of the text.
pub(crate) fn close(pen: &mut Pen, tags: &mut [u8], points: &mut [u32]) -> Result<(), Fault>
    ensures { outcome result pen.new tags.new points.new ≡ command_of pen.old end tags.old points.old }
{
    *pen = end(*pen, tags, points)?;
    Ok(())
}

// A letter begins a command.
pub(crate) fn letter_in(hand: Hand, kind: Kind) -> Hand
    ensures { result ≡ lettered hand kind }
{
    Hand {
        kind,
        have: 0,
        ..hand
    }
}

// A number more.
pub(crate) fn number_in(hand: Hand, w: u32) -> Hand
    requires { hand.have < 6 }
    ensures { result ≡ counted hand w }
{
    Hand {
        have: hand.have + 1,
        six: push(hand.six, w),
        ..hand
    }
}

// The first point of the subpath: M names it.
fn home_of(kind: Kind, six: Six, home: Spot) -> Spot
    ensures { result ≡ home_by kind six home }
{
    match kind {
        Kind::Move => Spot { x: six.e, y: six.f },
        _ => home,
    }
}

// Behind a full group another of the kind may stand; the pairs behind an M's first are lines.
fn kind_behind(kind: Kind) -> Kind
    ensures { result ≡ behind kind }
{
    match kind {
        Kind::Move => Kind::Line,
        _ => kind,
    }
}

pub(crate) fn group_done(hand: Hand) -> Hand
    ensures { result ≡ onward hand }
{
    Hand {
        kind: kind_behind(hand.kind),
        have: 0,
        home: home_of(hand.kind, hand.six, hand.home),
        shut: false,
        ..hand
    }
}

pub(crate) fn shut_in(hand: Hand) -> Hand
    ensures { result ≡ closed hand }
{
    Hand {
        have: 0,
        shut: true,
        ..hand
    }
}
