// Flattens the sheet on standard input and writes its lines and boxes. docs/FLATLIST.md has the form of
// both.
#![tactic(auto)]

ghost use Rattle.std.specs.Prelude.{◌≤◌, length, get_or};

mod input;
mod output;

use flatten::boxes::PathBox;
use flatten::call::{Layout, flatten_owned};
use std::io;

// The first five words.
fn layout_of(words: &[u32]) -> Layout
    requires { 6 ≤ length words.now }
{
    Layout {
        n_wg: words[0],
        tag_base: words[1],
        data_base: words[2],
        transform_base: words[3],
        style_base: words[4],
    }
}

// The words of a sheet: six, and the scene behind them. What is drawn is written also where there was no room for the
// sentence.
fn flatten_sheet(rt: &(impl Print + Eprint), words: &[u32]) -> io::Result<()>
    requires { (6 ≤ length words.now) × (get_or words.now 5 0 ≤ 16) }
{
    let layout = layout_of(words);
    let n = words[5] as usize;
    let scene = &words[6..];
    let mut prefixes = [0u32; 4096];
    let mut lines = [0u32; 6000];
    let _ = scene::tags::scan(scene, layout.tag_base, &mut prefixes);
    let fresh = [PathBox::fresh(); 64];
    let done = flatten_owned(layout, scene, &prefixes, fresh, n, &mut lines);
    let boxes = &done.boxes[..n];
    match done.answer {
        Ok(count) => {
            output::write_count(rt, count)?;
            output::write_drawn(rt, &lines, count, boxes)
        }
        Err(refused) => {
            output::write_refused(rt, refused)?;
            let told_why = output::say_why(rt, refused.why);
            output::write_drawn(rt, &lines, refused.count, boxes)?;
            told_why
        }
    }
}

fn main(rt: HostRuntime) -> io::Result<()> {
    let mut text = [0u8; 9271];
    let n = lists::read_full(&mut rt.reader(), &mut text)?;
    match input::read_sheet(&text[..n]) {
        Some(sheet) => flatten_sheet(&rt, &sheet.words[..sheet.count]),
        None => output::bad_input(&rt),
    }
}
