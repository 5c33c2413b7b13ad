// The whole number nearest to a float, ties to even, by the float's bits: nothing is rounded on the way.
ghost use Rattle.std.specs.Prelude.{◌≡◌, ◌≤◌, ◌<◌};
ghost use Rattle.std.specs.Float.Ieee.Nearest.{closest};
ghost use Rattle.hpgl.specs.Form.{range_of};
ghost use Rattle.hpgl.specs.Bits.{size_of, Rounds, Aims};

use crate::Table;
use crate::range::most_of;

// m / unit. Not `to_nearest` of roots: 32 bits and no remainder, and `hpgl` needs no root.
fn nearest_of(m: u32, unit: u32) -> u32
    requires { (m < 16777216) × (0 < unit) }
    ensures { result ≡ closest m unit }
{
    let whole = m / unit;
    let twice = m % unit * 2;
    if twice < unit {
        return whole;
    }
    if unit < twice {
        return whole + 1;
    }
    whole + whole % 2
}

// The size of a float below 2^24, by the exponent's field and the digits below the leading one. With a field under 126 it is below 1/2.
fn size_of(field: u32, digits: u32) -> u32
    requires { (field ≤ 150) × (digits < 8388608) }
    ensures { result ≡ size_of field digits }
{
    if field < 126 {
        return 0;
    }
    nearest_of(8388608 + digits, 1 << (150 - field))
}

// A whole number by its sign and its size, and no i32: the text is written of the two, and the specs say it so.
#[derive(Clone, Copy)]
pub(crate) struct Signed {
    pub(crate) negative: bool,
    pub(crate) size: u32,
}

// A point of two such numbers.
#[derive(Clone, Copy)]
pub(crate) struct Spot {
    pub(crate) x: Signed,
    pub(crate) y: Signed,
}

// A coordinate as a whole number; none where it is a NaN or out of the table's range.
fn coordinate(word: u32, table: Table) -> Option<Signed>
    ensures { Rounds (range_of table) word result }
{
    let field = word % 2147483648 / 8388608;
    if field > 150 {
        return None;
    }
    let size = size_of(field, word % 8388608);
    let negative = word >= 2147483648;
    if size > most_of(table, negative) {
        return None;
    }
    Some(Signed { negative, size })
}

// The point of two words; none where one of them is refused.
pub(crate) fn aim_at(x: u32, y: u32, table: Table) -> Option<Spot>
    ensures { Aims (range_of table) x y result }
{
    let x = coordinate(x, table)?;
    let y = coordinate(y, table)?;
    Some(Spot { x, y })
}
