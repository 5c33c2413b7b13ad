// The whole way: from the text of a pattern to the table's file.
ghost use Rattle.std.specs.Prelude.{◌≡◌};
ghost use Rattle.cut.specs.Sheet.{six_of};
ghost use Rattle.cut.specs.Stages.{cut_of};
ghost use Rattle.exports.specs.Cut.{table_of};
ghost use Rattle.exports.specs.Whole.{six_by, whole, whole_of};

use crate::cutting::table_of;
use crate::out::put_told;
use cut::Report;
use cut::way::cut;
use svg::hand::Six;

fn six_of(a: f32, b: f32, c: f32, d: f32, e: f32, f: f32) -> Six
    ensures { result ≡ six_by a b c d e f }
{
    Six {
        a: maths::word_of(a),
        b: maths::word_of(b),
        c: maths::word_of(c),
        d: maths::word_of(d),
        e: maths::word_of(e),
        f: maths::word_of(f),
    }
}

#[unsafe(no_mangle)]
pub extern "C" fn hinth_cut_text(
    text: &[u8],
    a: f32,
    b: f32,
    c: f32,
    d: f32,
    e: f32,
    f: f32,
    table: u32,
    tags: &mut [u8],
    points: &mut [u32],
    scene: &mut [u32],
    prefixes: &mut [u32],
    lines: &mut [u32],
    bytes: &mut [u8],
    out: &mut [u64],
) -> u32
    ensures { whole result tags.new points.new scene.new prefixes.new lines.new bytes.new out.new
        ≡ whole_of
        (cut_of text.now (six_of (six_by a b c d e f)) (table_of table) tags.old points.old scene.old prefixes.old lines.old bytes.old)
        out.old }
{
    let six = six_of(a, b, c, d, e, f);
    let table = table_of(table);
    let answer = cut(
        text, six, table, tags, points, scene, prefixes, lines, bytes,
    );
    let report = Report::from(answer);
    put_told(out, [report.bytes as u64, report.stage as u64, report.at]);
    report.number
}
