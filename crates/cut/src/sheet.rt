// The sheet of one path: its tags between a transform tag, a style tag and the path tag, its points, one transform, one fill style.
ghost use Rattle.std.specs.Prelude.{◌≡◌, ◌++◌, ◌+◌, ◌≤◌, ◌<◌, ◌^◌, length, get_or, drop};
ghost use Rattle.cut.specs.Sheet.{tag_bytes, tag_word, tag_words, six_of, fill_style, sheet_of, layout_by, size_of, small_size, laid, lay_of};

use flatten::call::Layout;
use svg::hand::Six;

// Tag i: behind the path tag zeros.
fn tag_byte(tags: &[u8], i: usize) -> u8
    ensures { result ≡ get_or (tag_bytes tags.now) i 0 }
{
    if i == 0 {
        return 0x20;
    }
    if i == 1 {
        return 0x40;
    }
    let j = i - 2;
    if j < tags.len() {
        return tags[j];
    }
    if j == tags.len() {
        return 0x10;
    }
    0
}

// The four tags of word k, the first in its lowest byte.
fn tag_word(tags: &[u8], k: usize) -> u32
    requires { k < 2 ^ 31 }
    ensures { result ≡ tag_word tags.now k }
{
    let i = k * 4;
    let a = tag_byte(tags, i) as u32;
    let b = tag_byte(tags, i + 1) as u32;
    let c = tag_byte(tags, i + 2) as u32;
    let d = tag_byte(tags, i + 3) as u32;
    a + b * 0x100 + c * 0x1_0000 + d * 0x100_0000
}

// The words of the tags: 64 for each 256 of them.
fn tag_words(n: usize) -> usize
    requires { n < 2 ^ 33 }
    ensures { result ≡ tag_words n }
{
    (n + 258) / 256 * 64
}

// The transform, and behind it the style of a fill, which is zeros.
fn tail_word(six: Six, i: usize) -> u32
    ensures { result ≡ get_or (six_of six ++ fill_style) i 0 }
{
    match i {
        0 => six.a,
        1 => six.b,
        2 => six.c,
        3 => six.d,
        4 => six.e,
        5 => six.f,
        _ => 0,
    }
}

// What a sheet is made of.
#[derive(Clone, Copy)]
struct Source<'a> {
    tags: &'a [u8],
    points: &'a [u32],
    six: Six,
}

impl Source<'_> {
    fn word(self, k: usize) -> u32
        requires { (k < 2 ^ 31) × (size_of (length self.tags.now) (length self.points.now) < 2 ^ 31) }
        ensures { let s = self.entry in result ≡ get_or (sheet_of s.tags.now s.points.now (six_of s.six)) k 0 }
    {
        let words = tag_words(self.tags.len());
        if k < words {
            return tag_word(self.tags, k);
        }
        let j = k - words;
        if j < self.points.len() {
            return self.points[j];
        }
        tail_word(self.six, j - self.points.len())
    }

    fn write(self, size: usize, scene: &mut [u32])
        requires { (size ≡ size_of (length self.tags.now) (length self.points.now)) × (size < 2 ^ 31) × (size ≤ length scene.old) }
        ensures { let s = self.entry in scene.new ≡ sheet_of s.tags.now s.points.now (six_of s.six) ++ drop size scene.old }
    {
        for k in 0..size {
            scene[k] = self.word(k);
        }
    }
}

// How many words the sheet takes. None is told of 2^31 or more.
fn size_of(n: usize, m: usize) -> Option<usize>
    ensures { result ≡ small_size n m }
{
    if n >= 0x2_0000_0000 {
        return None;
    }
    if m >= 0x8000_0000 {
        return None;
    }
    let size = tag_words(n) + m + 8;
    if size >= 0x8000_0000 {
        return None;
    }
    Some(size)
}

// Where the parts of a sheet begin whose tags take so many words and which has m words of points.
fn layout_of(words: usize, m: usize) -> Layout
    requires { words + m + 8 < 2 ^ 31 }
    ensures { result ≡ layout_by words m }
{
    Layout {
        n_wg: (words / 64) as u32,
        tag_base: 0,
        data_base: words as u32,
        transform_base: (words + m) as u32,
        style_base: (words + m + 6) as u32,
    }
}

// Writes the sheet in front of the scene, where it has room, and tells where its parts stand. Else it tells how many words the
// sheet takes, and 0 of 2^31 or more: the number that C is told.
pub fn lay(tags: &[u8], points: &[u32], six: Six, scene: &mut [u32]) -> Result<Layout, usize>
    ensures { laid result scene.new ≡ lay_of tags.now points.now (six_of six) scene.old }
{
    let n = tags.len();
    let m = points.len();
    let Some(size) = size_of(n, m) else {
        return Err(0);
    };
    if scene.len() < size {
        return Err(size);
    }
    Source { tags, points, six }.write(size, scene);
    Ok(layout_of(tag_words(n), m))
}
