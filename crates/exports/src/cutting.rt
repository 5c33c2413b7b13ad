// Cuts for the knife table: the lines of a path as HP-GL, and such a file back as lines.
ghost use Rattle.std.specs.Prelude.{◌≡◌};
ghost use Rattle.hpgl.specs.Export.{cut_of};
ghost use Rattle.hpgl.specs.Reading.{reading_of};
ghost use Rattle.exports.specs.Cut.{written, written_of, table_of, lines_read, lines_read_of};

use crate::out::put_told;
use hpgl::export::export;
use hpgl::reading::read;
use hpgl::{Report, Table};

#[unsafe(no_mangle)]
pub extern "C" fn hinth_cut(list: &[u32], path: u32, bytes: &mut [u8], out: &mut [u64]) -> u32
    ensures { written result bytes.new out.new
        ≡ written_of (cut_of path list.now bytes.old) out.old }
{
    let report = Report::from(export(list, path, bytes));
    put_told(out, [report.stands as u64, report.at as u64]);
    report.number
}

// By a number: the C interface has one.
pub(crate) fn table_of(number: u32) -> Table
    ensures { result ≡ table_of number }
{
    if number == 1 {
        return Table::New;
    }
    Table::Old
}

#[unsafe(no_mangle)]
pub extern "C" fn hinth_read_cut(file: &[u8], table: u32, lines: &mut [i32], out: &mut [u64]) -> u32
    ensures { lines_read result lines.new out.new
        ≡ lines_read_of (reading_of (table_of table) file.now lines.old) out.old }
{
    let back = Report::from(read(file, lines, table_of(table)));
    put_told(out, [back.stands as u64, back.at as u64]);
    back.number
}
