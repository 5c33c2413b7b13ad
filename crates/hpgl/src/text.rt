// The text of numbers and of commands, stored in lent bytes.
ghost use Rattle.std.specs.Prelude.{◌+◌, ◌≤◌, ◌≡◌, length, [], ◌∷◌, ◌++◌};
ghost use Rattle.hpgl.specs.Form.{letter};
ghost use Rattle.hpgl.specs.CommandLaws.{pen_of, command_text, ended};
ghost use Rattle.hpgl.specs.TextLaws.{Stored, Long};
ghost use Rattle.hpgl.specs.Text.{decimal, numeral, signed_of};

use crate::rounding::{Signed, Spot};

// The decimal text of n, stored from a place on. Returns the place behind it.
fn write_decimal(out: &mut [u8], at: usize, n: u32) -> usize
    requires { at + length (decimal n) ≤ length out.old }
    ensures { Stored out.old out.new at result (decimal n) }
{
    if n < 10 {
        out[at] = 48 + n as u8;
        return at + 1;
    }
    let end = write_decimal(out, at, n / 10);
    out[end] = 48 + (n % 10) as u8;
    end + 1
}

// The text of a number; a zero has no sign. Returns the place behind it.
fn write_number(out: &mut [u8], at: usize, n: Signed) -> usize
    requires { at + length (numeral (signed_of n.negative n.size)) ≤ length out.old }
    ensures { Stored out.old out.new at result (numeral (signed_of n.negative n.size)) }
{
    let size = n.size;
    if size == 0 {
        return write_decimal(out, at, size);
    }
    if n.negative {
        out[at] = b'-';
        return write_decimal(out, at + 1, size);
    }
    write_decimal(out, at, size)
}

// One byte, stored at a place. Returns the place behind it.
fn write_byte(out: &mut [u8], at: usize, b: u8) -> usize
    requires { at + 1 ≤ length out.old }
    ensures { Stored out.old out.new at result (b ∷ []) }
{
    out[at] = b;
    at + 1
}

// A number and the byte behind it. Returns the place behind both.
fn write_ended(out: &mut [u8], at: usize, n: Signed, b: u8) -> usize
    requires { at + length (ended n b) ≤ length out.old }
    ensures { Stored out.old out.new at result (ended n b) }
{
    let end = write_number(out, at, n);
    write_byte(out, end, b)
}

fn letter_of(draws: bool) -> u8
    ensures { result ≡ letter (pen_of draws) }
{
    if draws {
        return b'D';
    }
    b'U'
}

// A command to a point. Returns the place behind it.
pub(crate) fn write_command(out: &mut [u8], at: usize, draws: bool, to: Spot) -> usize
    requires { at + length (command_text draws to) ≤ length out.old }
    ensures { Stored out.old out.new at result (command_text draws to) }
{
    let l = letter_of(draws);
    let a = write_byte(out, at, b'P');
    let b = write_byte(out, a, l);
    let c = write_ended(out, b, to.x, b',');
    write_ended(out, c, to.y, b';')
}

// How many digits n has. The lengths are worked out and not found by writing: room is asked for before a byte is written, and
// where a file is only looked at there are no bytes.
fn decimal_length(n: u32) -> usize
    ensures { Long (decimal n) (n + 1) result }
{
    if n < 10 {
        return 1;
    }
    n.ilog10() as usize + 1
}

// How many bytes the text of a number has.
fn number_length(n: Signed) -> usize
    ensures { Long (numeral (signed_of n.negative n.size)) (n.size + 2) result }
{
    let digits = decimal_length(n.size);
    if n.size == 0 {
        return digits;
    }
    if n.negative {
        return digits + 1;
    }
    digits
}

// How many bytes a command has.
pub(crate) fn command_length(draws: bool, to: Spot) -> usize
    ensures { result ≡ length (command_text draws to) }
{
    4 + number_length(to.x) + number_length(to.y)
}
