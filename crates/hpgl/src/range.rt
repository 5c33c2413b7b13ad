// How far the numbers of a table reach.
ghost use Rattle.std.specs.Prelude.{◌≡◌};
ghost use Rattle.hpgl.specs.Form.{most, range_of};

use crate::Table;

fn new_most(s: bool) -> u32
    ensures { result ≡ most (range_of Table.New) s }
{
    if s {
        return 8388608;
    }
    8388607
}

// The largest size of a number with that sign.
pub(crate) fn most_of(table: Table, s: bool) -> u32
    ensures { result ≡ most (range_of table) s }
{
    match table {
        Table::Old => 32767,
        Table::New => new_most(s),
    }
}
