// The record of a line, of six words: what is read off its words. See specs/Record.antt.
#![tactic(auto)]

ghost use Rattle.std.specs.Prelude.{◌≡◌, ◌<◌};
ghost use Rattle.records.specs.Record.{count, word, line_at, keys_at, is_bad, bad_at, key, is_point, once, hit_at, counts_of};

// A NaN or an infinity: all bits of the exponent are set.
pub fn is_bad(w: u32) -> bool
    ensures { result ≡ is_bad w }
{
    w / 8388608 % 256 == 255
}

// A coordinate's bits, with -0 as +0.
pub fn key_of(w: u32) -> u32
    ensures { result ≡ key w }
{
    if w == 2147483648 { 0 } else { w }
}

// Whether the words q, a, b are the path and the point of keys x and y.
pub fn is_point(path: u32, x: u32, y: u32, q: u32, a: u32, b: u32) -> bool
    ensures { result ≡ is_point path x y q a b }
{
    (q == path) & ((key_of(a) == x) & (key_of(b) == y))
}

// 1 where it holds, else 0.
pub fn one(b: bool) -> usize
    ensures { result ≡ once b }
{
    usize::from(b)
}

// The word at place i of record k, and 0 behind the list's end, as `word` reads a list. No Option: each caller's record is known
// to be there, so each would only write `unwrap_or(0)` itself.
pub fn word_at(list: &[u32], k: usize, i: usize) -> u32
    ensures { result ≡ word list.now k i }
{
    if list.len() / 6 < k {
        return 0;
    }
    list[k * 6..].get(i).copied().unwrap_or(0)
}

// The same where the record is known to be there: without a test.
fn word_in(list: &[u32], k: usize, i: usize) -> u32
    requires { (k < count list.now) × (i < 6) }
    ensures { result ≡ word list.now k i }
{
    list[k * 6 + i]
}

// The key of the coordinate at place i of record k.
pub fn key_at(list: &[u32], k: usize, i: usize) -> u32
    ensures { result ≡ key (word list.now k i) }
{
    key_of(word_at(list, k, i))
}

// A line from (x, y) to (z, w): the words of its coordinates, or their keys.
#[derive(Clone, Copy)]
pub struct Line {
    pub x: u32,
    pub y: u32,
    pub z: u32,
    pub w: u32,
}

// The line of record k by its words.
pub fn line_at(list: &[u32], k: usize) -> Line
    ensures { result ≡ line_at list.now k }
{
    Line {
        x: word_at(list, k, 2),
        y: word_at(list, k, 3),
        z: word_at(list, k, 4),
        w: word_at(list, k, 5),
    }
}

// The line of record k by its keys.
pub fn keys_at(list: &[u32], k: usize) -> Line
    ensures { result ≡ keys_at list.now k }
{
    let line = line_at(list, k);
    Line {
        x: key_of(line.x),
        y: key_of(line.y),
        z: key_of(line.z),
        w: key_of(line.w),
    }
}

// Whether a coordinate of record k is a NaN or an infinity.
#[tactic(auto, unfolding(crate::specs::Record::bad_at))]
pub fn bad_at(list: &[u32], k: usize) -> bool
    ensures { result ≡ bad_at list.now k }
{
    let line = line_at(list, k);
    is_bad(line.x) | (is_bad(line.y) | (is_bad(line.z) | is_bad(line.w)))
}

// 1 where record k has the path, and at the place AT the point of keys x and y, else 0: its start is at 2, its end at 4.
fn hit<const AT: usize>(list: &[u32], k: usize, path: u32, x: u32, y: u32) -> usize
    requires { (k < count list.now) × (AT < 5) }
    ensures { result ≡ hit_at (is_point path x y) AT list.now k }
{
    let q = word_in(list, k, 0);
    let a = word_in(list, k, AT);
    let b = word_in(list, k, AT + 1);
    one(is_point(path, x, y, q, a, b))
}

// How often two points are starts and ends among the records of one path.
#[derive(Clone, Copy)]
pub struct Counts {
    pub starts0: usize,
    pub ends0: usize,
    pub starts1: usize,
    pub ends1: usize,
}

// The two points of a line by its keys. Both are counted in one pass, without a branch in it, which is what takes the time of a check.
pub fn count_both(list: &[u32], path: u32, line: Line) -> Counts
    ensures { result ≡ counts_of list.now path line.x line.y line.z line.w }
{
    let mut starts0: usize = 0;
    let mut ends0: usize = 0;
    let mut starts1: usize = 0;
    let mut ends1: usize = 0;
    for k in 0..list.len() / 6 {
        starts0 += hit::<2>(list, k, path, line.x, line.y);
        ends0 += hit::<4>(list, k, path, line.x, line.y);
        starts1 += hit::<2>(list, k, path, line.z, line.w);
        ends1 += hit::<4>(list, k, path, line.z, line.w);
    }
    Counts {
        starts0,
        ends0,
        starts1,
        ends1,
    }
}
