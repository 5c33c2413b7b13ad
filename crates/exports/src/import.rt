// Path data of SVG, drawn with the pen that C lends.
ghost use Rattle.std.specs.Prelude.{◌≡◌};
ghost use Rattle.exports.specs.Import.{imported, imported_by};

use crate::out::put_told;
use crate::pen::{put_pen, read_pen};
use pattern::pen::Fault;
use svg::reader::{Report, read};

#[unsafe(no_mangle)]
pub extern "C" fn hinth_import(
    pen: &mut [u64],
    text: &[u8],
    tags: &mut [u8],
    points: &mut [u32],
    out: &mut [u64],
) -> u32
    ensures { imported result pen.new tags.new points.new out.new
        ≡ imported_by pen.old text.now tags.old points.old out.old }
{
    let Some(words) = pen.first_chunk_mut() else {
        put_told(out, [0]);
        return Fault::NoRoom.number();
    };
    let mut then = read_pen(words);
    let report = Report::from(read(text, &mut then, tags, points));
    put_pen(words, then);
    put_told(out, [report.at as u64]);
    report.number
}
