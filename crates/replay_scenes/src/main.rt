// Replays the scenes of the list on standard input, which docs/ORACLE.md describes. Here is what stands in the list:
// heads, the words behind them, and boxes.
#![tactic(auto)]

ghost use Rattle.std.specs.Prelude.{◌≤◌};

mod list;

use flatten::boxes::PathBox;
use flatten::call::Layout;
use lists::word;
use std::io;
use std::io::Read;

// ---- the head of a scene: how much is given and lent, and what is told

#[derive(Clone, Copy)]
struct Head {
    layout: Layout,
    scene: usize,
    prefixes: usize,
    boxes: usize,
    lines: usize,
    patches: usize,
    scan: ScanTold,
    call: CallTold,
}

#[derive(Clone, Copy)]
struct ScanTold {
    number: u32,
    count: u32,
    prefixes: u32,
}

// The refusal's number is in the lowest byte of `stop`, the line's end in the next.
#[derive(Clone, Copy)]
struct CallTold {
    stop: u32,
    tag: u32,
    count: u32,
    lines: u32,
    boxes: u32,
}

fn layout(line: &[u8; 162]) -> Layout {
    Layout {
        n_wg: word(line, 0),
        tag_base: word(line, 1),
        data_base: word(line, 2),
        transform_base: word(line, 3),
        style_base: word(line, 4),
    }
}

fn scan_told(line: &[u8; 162]) -> ScanTold {
    ScanTold {
        number: word(line, 10),
        count: word(line, 11),
        prefixes: word(line, 12),
    }
}

fn call_told(line: &[u8; 162]) -> CallTold {
    CallTold {
        stop: word(line, 13),
        tag: word(line, 14),
        count: word(line, 15),
        lines: word(line, 16),
        boxes: word(line, 17),
    }
}

fn size(line: &[u8; 162], k: usize) -> usize {
    word(line, k) as usize
}

fn read_head(line: &[u8; 162]) -> Head {
    let layout = layout(line);
    let scan = scan_told(line);
    let call = call_told(line);
    Head {
        layout,
        scene: size(line, 5),
        prefixes: size(line, 6),
        boxes: size(line, 7),
        lines: size(line, 8),
        patches: size(line, 9),
        scan,
        call,
    }
}

// ---- the words behind a head: one with `*` behind it stands as often as the word after it says

// A word of the list and the byte behind it.
#[derive(Clone, Copy)]
struct Piece {
    word: u32,
    behind: u8,
}

// The next one, where the list has one more.
fn read_piece<R: Read>(input: &mut R) -> io::Result<Option<Piece>> {
    let mut text = [0u8; 9];
    let n = lists::read_full(input, &mut text)?;
    if n < 9 {
        return Ok(None);
    }
    Ok(Some(Piece {
        word: lists::word(&text, 0),
        behind: text[8],
    }))
}

// How often a word stands: none where the list has ended.
fn times<R: Read>(input: &mut R, p: Piece) -> io::Result<Option<usize>> {
    if p.behind != b'*' {
        return Ok(Some(1));
    }
    Ok(read_piece(input)?.map(|next| next.word as usize))
}

// Puts the next words of the list there. Not if it has fewer, or a run of none, or one that goes on behind.
fn read_words<R: Read>(input: &mut R, words: &mut [u32]) -> io::Result<bool> {
    let mut at: usize = 0;
    // No range: a piece is a run of any length.
    while at < words.len() {
        let Some(piece) = read_piece(input)? else {
            return Ok(false);
        };
        let Some(n) = times(input, piece)? else {
            return Ok(false);
        };
        if n == 0 || words.len() - at < n {
            return Ok(false);
        }
        let end = at + n;
        lists::fill(&mut words[at..end], piece.word);
        at = end;
    }
    Ok(true)
}

// Changes words, each by its place and the word of the list behind that.
fn patch<R: Read>(input: &mut R, words: &mut [u32], patches: usize) -> io::Result<bool> {
    for _ in 0..patches {
        let mut pair = [0u32; 2];
        if !read_words(input, &mut pair)? {
            return Ok(false);
        }
        let at = pair[0] as usize;
        if words.len() <= at {
            return Ok(false);
        }
        words[at] = pair[1];
    }
    Ok(true)
}

// ---- boxes as words of the list, six to a box

fn box_of(words: &[u32; 6]) -> PathBox {
    let [x0, y0, x1, y1, draw_flags, trans_ix] = *words;
    PathBox {
        x0: x0.cast_signed(),
        y0: y0.cast_signed(),
        x1: x1.cast_signed(),
        y1: y1.cast_signed(),
        draw_flags,
        trans_ix,
    }
}

fn words_of(b: PathBox) -> [u32; 6] {
    [
        b.x0.cast_unsigned(),
        b.y0.cast_unsigned(),
        b.x1.cast_unsigned(),
        b.y1.cast_unsigned(),
        b.draw_flags,
        b.trans_ix,
    ]
}

// As many as there are words for, and fresh ones behind.
fn boxes_of(words: &[u32]) -> [PathBox; 64] {
    let mut boxes = [PathBox::fresh(); 64];
    for (b, six) in boxes.iter_mut().zip(words.as_chunks::<6>().0) {
        *b = box_of(six);
    }
    boxes
}

// As many boxes as there are words for.
fn put_boxes(words: &mut [u32], boxes: [PathBox; 64]) {
    for (six, b) in words.as_chunks_mut::<6>().0.iter_mut().zip(boxes) {
        *six = words_of(b);
    }
}

fn main(rt: HostRuntime) -> io::Result<()> {
    list::replay_all(&rt)
}
