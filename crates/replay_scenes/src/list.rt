// What a scan of the tags and a whole call are given and lent for each scene, and what they answer and leave. Writes
// the head of each scene that has another answer here, and last how many scenes there were and how many differ.
ghost use Rattle.std.specs.Prelude.{◌≤◌};

use crate::{CallTold, Head, ScanTold, boxes_of, patch, put_boxes, read_head, read_words};
use flatten::call::{Told, flatten_owned};
use lists::MOST;
use refusals::Refusal;
use scene::tags::scan;
use std::io;
use std::io::Read;

#[derive(Clone, Copy)]
enum Replayed {
    Same,
    Differs,
    // The list ends inside the scene, or the scene is larger than the arrays.
    Broken,
}

// The sizes of the arrays that are lent from.
const SCENE: usize = 4096;

const PREFIXES: usize = 4096;

const BOXES: usize = 64;

const LINES: usize = 9216;

// In the list, which the Rust's runs wrote, 0 stands for no refusal.
fn same_count(told: ScanTold, r: Result<u64, Refusal>) -> bool {
    match r {
        Ok(count) => (told.number == 0) & (told.count as u64 == count),
        Err(why) => (told.number == why.number()) & (told.count == 0),
    }
}

fn same_scan(head: Head, scene: &[u32], prefixes: &mut [u32]) -> bool {
    let told = head.scan;
    lists::fill(prefixes, lists::LENT);
    let r = scan(scene, head.layout.tag_base, prefixes);
    same_count(told, r) & (lists::hash(prefixes) == told.prefixes)
}

// No derive on `Told`: the words would have to be made one, field by field, for this one comparison.
fn same_answer(told: CallTold, r: Told) -> bool {
    let stop = told.stop;
    (stop % 256 == r.number)
        & (stop / 256 == r.end)
        & (told.tag as u64 == r.tag)
        & (told.count == r.count)
}

// By the hashes, no word but those told has changed.
fn same_call(
    head: Head,
    scene: &[u32],
    prefixes: &[u32],
    box_words: &mut [u32],
    lines: &mut [u32],
) -> bool {
    let told = head.call;
    let lent = boxes_of(box_words);
    lists::fill(lines, lists::LENT);
    let done = flatten_owned(head.layout, scene, prefixes, lent, head.boxes, lines);
    let left = done.boxes;
    put_boxes(box_words, left);
    same_answer(told, Told::from(done.answer))
        & (lists::hash(lines) == told.lines)
        & (lists::hash(box_words) == told.boxes)
}

fn judged(whole: bool, same: bool) -> Replayed {
    if !whole {
        return Replayed::Broken;
    }
    if same {
        return Replayed::Same;
    }
    Replayed::Differs
}

// Reads what stands behind the head, in its order. Whether the list had all of it is asked last: a call
// on less is safe too.
fn replay_lent<R: Read>(
    input: &mut R,
    head: Head,
    scene: &mut [u32],
    prefixes: &mut [u32],
    box_words: &mut [u32],
    lines: &mut [u32],
) -> io::Result<Replayed> {
    let has_scene = read_words(input, scene)?;
    let scanned = same_scan(head, scene, prefixes);
    let has_patches = patch(input, prefixes, head.patches)?;
    let has_boxes = read_words(input, box_words)?;
    let called = same_call(head, scene, prefixes, box_words, lines);
    let whole = has_scene & has_patches & has_boxes;
    Ok(judged(whole, scanned & called))
}

fn replay<R: Read>(input: &mut R, head: Head) -> io::Result<Replayed> {
    let n_scene = head.scene;
    let n_prefixes = head.prefixes;
    let n_boxes = head.boxes;
    let n_lines = head.lines;
    if n_scene > SCENE || n_prefixes > PREFIXES || n_boxes > BOXES || n_lines > LINES {
        return Ok(Replayed::Broken);
    }
    let mut scene = [0u32; SCENE];
    let mut prefixes = [0u32; PREFIXES];
    let mut box_words = [0u32; BOXES * 6];
    let mut lines = [0u32; LINES];
    let n_box_words = n_boxes * 6;
    replay_lent(
        input,
        head,
        &mut scene[..n_scene],
        &mut prefixes[..n_prefixes],
        &mut box_words[..n_box_words],
        &mut lines[..n_lines],
    )
}

// The bytes of a head, its end with them.
const HEAD: usize = 162;

fn write_broken(rt: &impl Print) -> io::Result<()> {
    rt.println("the list ends inside a scene, or the scene is too large")
}

// A scene with another answer is found in the list by its head.
fn write_other(rt: &impl Print, r: Replayed, line: &[u8; 162]) -> io::Result<()> {
    match r {
        Replayed::Same => Ok(()),
        Replayed::Differs => rt.write_all(line),
        Replayed::Broken => {
            rt.write_all(line)?;
            write_broken(rt)
        }
    }
}

// None at the end of the list.
fn replay_next<R: Read>(rt: &impl Print, input: &mut R) -> io::Result<Option<Replayed>> {
    let mut line = [0u8; 162];
    let n = lists::read_full(input, &mut line)?;
    if n == 0 {
        return Ok(None);
    }
    if n < HEAD {
        write_broken(rt)?;
        return Ok(Some(Replayed::Broken));
    }
    let r = replay(input, read_head(&line))?;
    write_other(rt, r, &line)?;
    Ok(Some(r))
}

// Behind a scene that the list ends in nothing more is read.
pub fn replay_all(rt: &(impl Input + Print)) -> io::Result<()> {
    let mut input = rt.reader();
    let mut differ: u64 = 0;
    for count in 0..MOST {
        match replay_next(rt, &mut input)? {
            None => return lists::report_scenes(rt, count, differ),
            Some(Replayed::Same) => {}
            Some(Replayed::Differs) => differ += 1,
            Some(Replayed::Broken) => return lists::report_scenes(rt, count + 1, differ + 1),
        }
    }
    lists::report_scenes(rt, MOST, differ)
}
