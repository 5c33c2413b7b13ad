// One stage after the other, up to the first refusal.
// A list is lent to change until its stage has filled it, and from there on to read: each stage's own parameters say so, as one
// struct of the lists could not.
ghost use Rattle.std.specs.Prelude.{◌≡◌, min};
ghost use Rattle.pattern.specs.Meaning.{fresh_pen};
ghost use Rattle.cut.specs.Sheet.{six_of};
ghost use Rattle.cut.specs.Stages.{cutting, export_stage, left, flatten_stage, profile_stage, scan_stage, sheet_stage, gone, cut_of};

use crate::sheet::lay;
use crate::{Refused, Stage};
use flatten::boxes::PathBox;
use flatten::call::{Layout, flatten_owned};
use hpgl::export::export;
use hpgl::looking::look;
use hpgl::{Report, Table};
use pattern::pen::{Open, Pen, Place, Spot};
use profile::sheet::test_scene;
use scene::tags::scan;
use svg::hand::Six;
use svg::reader::{self, read};

fn smaller(a: u64, b: usize) -> usize
    ensures { result ≡ min a b }
{
    a.min(b as u64) as usize
}

// The lines of the only path, for a table: looked through first, so that a refusal writes nothing.
fn export_stage(list: &[u32], table: Table, bytes: &mut [u8]) -> Result<usize, Refused>
    ensures { cutting result bytes.new ≡ export_stage table list.now bytes.old }
{
    match look(list, 0, table, bytes.len()) {
        Ok(_) => Ok(export(list, 0, bytes).unwrap()),
        Err(error) => {
            let told = Report::from(Err(error));
            Err(Stage::Export.refused(told.number, told.at as u64))
        }
    }
}

// Layout and lists come one by one, since `flatten_owned` and `test_scene` take them so.
fn flatten_stage(
    layout: Layout,
    table: Table,
    scene: &[u32],
    prefixes: &[u32],
    lines: &mut [u32],
    bytes: &mut [u8],
) -> Result<usize, Refused>
    ensures { left result scene.now prefixes.now lines.new bytes.new
        ≡ flatten_stage layout table scene.now prefixes.now lines.old bytes.old }
{
    let boxes = [PathBox::fresh(); 64];
    match flatten_owned(layout, scene, prefixes, boxes, 1, lines).answer {
        Ok(count) => {
            let n = smaller(count as u64 * 6, lines.len());
            export_stage(&lines[..n], table, bytes)
        }
        Err(stop) => Err(Stage::Flatten.refused(stop.why.number(), stop.tag)),
    }
}

fn profile_stage(
    layout: Layout,
    table: Table,
    scene: &[u32],
    prefixes: &[u32],
    lines: &mut [u32],
    bytes: &mut [u8],
) -> Result<usize, Refused>
    ensures { left result scene.now prefixes.now lines.new bytes.new
        ≡ profile_stage layout table scene.now prefixes.now lines.old bytes.old }
{
    match test_scene(layout, scene, prefixes) {
        Ok(_) => flatten_stage(layout, table, scene, prefixes, lines, bytes),
        Err(failed) => Err(Stage::Profile.refused(failed.fault.number(), failed.tag)),
    }
}

fn scan_stage(
    layout: Layout,
    table: Table,
    scene: &[u32],
    prefixes: &mut [u32],
    lines: &mut [u32],
    bytes: &mut [u8],
) -> Result<usize, Refused>
    ensures { left result scene.now prefixes.new lines.new bytes.new
        ≡ scan_stage layout table scene.now prefixes.old lines.old bytes.old }
{
    match scan(scene, layout.tag_base, prefixes) {
        Ok(_) => profile_stage(layout, table, scene, prefixes, lines, bytes),
        Err(why) => Err(Stage::Scan.refused(why.number(), 0)),
    }
}

fn sheet_stage(
    tags: &[u8],
    points: &[u32],
    six: Six,
    table: Table,
    scene: &mut [u32],
    prefixes: &mut [u32],
    lines: &mut [u32],
    bytes: &mut [u8],
) -> Result<usize, Refused>
    ensures { left result scene.new prefixes.new lines.new bytes.new
        ≡ sheet_stage tags.now points.now (six_of six) table scene.old prefixes.old lines.old bytes.old }
{
    match lay(tags, points, six, scene) {
        Ok(layout) => scan_stage(layout, table, scene, prefixes, lines, bytes),
        Err(words) => Err(Stage::Sheet.refused(80, words as u64)),
    }
}

fn fresh_pen() -> Pen
    ensures { result ≡ fresh_pen }
{
    let origin = Spot { x: 0, y: 0 };
    let place = Place {
        opened: Open::Nothing,
        first: origin,
        last: origin,
    };
    Pen {
        place,
        tags: 0,
        points: 0,
    }
}

// From the text of one path to the bytes of its file, under one transform, for a table.
pub fn cut(
    text: &[u8],
    six: Six,
    table: Table,
    tags: &mut [u8],
    points: &mut [u32],
    scene: &mut [u32],
    prefixes: &mut [u32],
    lines: &mut [u32],
    bytes: &mut [u8],
) -> Result<usize, Refused>
    ensures { gone tags.new points.new (left result scene.new prefixes.new lines.new bytes.new)
        ≡ cut_of text.now (six_of six) table tags.old points.old scene.old prefixes.old lines.old bytes.old }
{
    let mut pen = fresh_pen();
    if let Err(refusal) = read(text, &mut pen, tags, points) {
        let report = reader::Report::from(Err(refusal));
        return Err(Stage::Text.refused(report.number, report.at as u64));
    }
    let n = smaller(pen.tags, tags.len());
    let m = smaller(pen.points, points.len());
    sheet_stage(
        &tags[..n],
        &points[..m],
        six,
        table,
        scene,
        prefixes,
        lines,
        bytes,
    )
}
