// The tags of a scene, four to a word, and their running sums.
ghost use Rattle.std.specs.Prelude.{◌≡◌, ◌+◌, ◌<◌, ◌≤◌, min, length, nat_eq};
ghost use Rattle.std.proofs.lemmas.List.Edits.{sets};
ghost use Rattle.scene.specs.Tags.{tag_sums, plus, byte_at, sums_below, word_sums, tag_data, prefix_at, with_prefix, tag_of, four_words, scan_told, scan_of};

use crate::words::word_at;
use refusals::Refusal;

// What tags add up to, each sum modulo 2^32.
#[derive(Clone, Copy)]
pub struct PathMonoid {
    pub trans_ix: u32,
    pub pathseg_offset: u32,
    pub style_ix: u32,
    pub path_ix: u32,
}

#[derive(Clone, Copy)]
pub struct PathTagData {
    pub tag_byte: u8,
    pub monoid: PathMonoid,
}

// What one tag adds.
fn tag_sums(tag_byte: u8) -> PathMonoid
    ensures { result ≡ tag_sums tag_byte }
{
    let tag = tag_byte as u32;
    PathMonoid {
        trans_ix: tag / 0x20 % 2,
        pathseg_offset: (tag % 4 + tag / 4 % 2) * (1 + tag / 8 % 2),
        style_ix: tag / 0x40 % 2 * 2,
        path_ix: tag / 0x10 % 2,
    }
}

fn byte_at(word: u32, place: u32) -> u8
    requires { place < 4 }
    ensures { result ≡ byte_at word place }
{
    ((word >> (8 * place)) % 256) as u8
}

fn sums_below(word: u32, place: u32) -> PathMonoid
    requires { place ≤ 4 }
    ensures { result ≡ sums_below word place }
{
    let mut sums = PathMonoid {
        trans_ix: 0,
        pathseg_offset: 0,
        style_ix: 0,
        path_ix: 0,
    };
    for k in 0..place {
        sums = sums.combine(tag_sums(byte_at(word, k)));
    }
    sums
}

impl PathMonoid {
    pub fn new(tag_word: u32) -> PathMonoid
        ensures { result ≡ word_sums tag_word }
    {
        sums_below(tag_word, 4)
    }

    pub fn combine(self, other: PathMonoid) -> PathMonoid
        ensures { result ≡ plus self other }
    {
        PathMonoid {
            trans_ix: std::num::wrapping_add_u32(self.trans_ix, other.trans_ix),
            pathseg_offset: std::num::wrapping_add_u32(self.pathseg_offset, other.pathseg_offset),
            style_ix: std::num::wrapping_add_u32(self.style_ix, other.style_ix),
            path_ix: std::num::wrapping_add_u32(self.path_ix, other.path_ix),
        }
    }
}

// A scene encodes no first transform and style, so that these are one behind.
fn tag_data(tag_byte: u8, before: PathMonoid) -> PathTagData
    ensures { result ≡ tag_data tag_byte before }
{
    let monoid = PathMonoid {
        trans_ix: std::num::wrapping_sub_u32(before.trans_ix, 1),
        pathseg_offset: before.pathseg_offset,
        style_ix: std::num::wrapping_sub_u32(before.style_ix, 2),
        path_ix: before.path_ix,
    };
    PathTagData { tag_byte, monoid }
}

fn prefix_at(prefixes: &[u32], i: u64) -> Option<PathMonoid>
    ensures { result ≡ prefix_at prefixes.now i }
{
    let n = i as usize;
    if n < prefixes.len() / 4 {
        let at = n * 4;
        Some(PathMonoid {
            path_ix: prefixes[at],
            trans_ix: prefixes[at + 1],
            style_ix: prefixes[at + 2],
            pathseg_offset: prefixes[at + 3],
        })
    } else {
        None
    }
}

// A zero byte skips the prefix. Refused where the prefix is not lent.
fn with_prefix(
    tag_byte: u8,
    below: PathMonoid,
    prefixes: &[u32],
    i: u64,
) -> Result<PathTagData, Refusal>
    ensures { result ≡ with_prefix tag_byte below (nat_eq tag_byte 0) (prefix_at prefixes.now i) }
{
    if tag_byte == 0 {
        return Ok(tag_data(tag_byte, below));
    }
    let before = prefix_at(prefixes, i).ok_or(Refusal::NoPrefix)?;
    Ok(tag_data(tag_byte, before.combine(below)))
}

// The tag at an index, with the sums before it. Refused where its word lies outside the scene, or its prefix is not lent.
pub fn compute_tag_monoid(
    scene: &[u32],
    tag_base: u32,
    prefixes: &[u32],
    ix: u64,
) -> Result<PathTagData, Refusal>
    ensures { result ≡ tag_of scene.now tag_base prefixes.now ix }
{
    let word = word_at(scene, tag_base as u64 + ix / 4)?;
    let place = (ix % 4) as u32;
    with_prefix(
        byte_at(word, place),
        sums_below(word, place),
        prefixes,
        ix / 4,
    )
}

fn put_prefix(words: &mut [u32], at: usize, s: PathMonoid)
    requires { at + 4 ≤ length words.old }
    ensures { words.new ≡ sets words.old at (four_words s) }
{
    words[at] = s.path_ix;
    words[at + 1] = s.trans_ix;
    words[at + 2] = s.style_ix;
    words[at + 3] = s.pathseg_offset;
}

// Fills the prefixes of the tag words, each with the sums over the words before its own: so many. Refused where the tag base
// lies past the scene's end.
pub fn scan(scene: &[u32], tag_base: u32, prefixes: &mut [u32]) -> Result<u64, Refusal>
    ensures { scan_told result prefixes.new ≡ scan_of scene.now tag_base prefixes.old }
{
    let base = tag_base as usize;
    if base > scene.len() {
        return Err(Refusal::BadBase);
    }
    let n = (scene.len() - base).min(prefixes.len() / 4);
    let mut sums = sums_below(0, 0);
    for i in 0..n {
        put_prefix(prefixes, i * 4, sums);
        sums = sums.combine(PathMonoid::new(scene[base + i]));
    }
    Ok(n as u64)
}
