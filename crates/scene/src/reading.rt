// The points, the transform and the style words that a tag names.
ghost use Rattle.std.specs.Prelude.{◌≡◌, ◌+◌, ◌*◌, ◌%◌, ◌≤◌, length};
ghost use Rattle.std.specs.Float.Ieee.Scale.{finite};
ghost use Rattle.scene.specs.Reading.{float_at, i16_of, f32_point, i16_point, point_words, point_at, line_cubic, quad_cubic, wide, marker, point_count, cubic_of, reaches, segment_of, floats_at, transform_of, all_finite, flags_of, width_of};

use crate::words::word_at;
use refusals::Refusal;
use spiral::util::Vec2;

fn float_at(words: &[u32], at: usize) -> f32
    requires { at + 1 ≤ length words.now }
    ensures { result ≡ float_at words.now at }
{
    maths::float_of(words[at])
}

// Two words.
fn read_f32_point(words: &[u32], at: usize) -> Vec2
    requires { at + 2 ≤ length words.now }
    ensures { result ≡ f32_point words.now at }
{
    let x = float_at(words, at);
    let y = float_at(words, at + 1);
    Vec2 { x, y }
}

// 16 bits as a signed number, which f32 holds exactly. `f32::from(half.cast_signed())` was tried: that its number is this one did
// not close, since std says it by way of 16 bits and back.
pub fn i16_of(half: u16) -> f32
    ensures { result ≡ i16_of half }
{
    if half < 0x8000 {
        return half as f32;
    }
    let size = 0xffff - half + 1;
    -(size as f32)
}

// One word: x is its low half.
fn read_i16_point(words: &[u32], at: usize) -> Vec2
    requires { at + 1 ≤ length words.now }
    ensures { result ≡ i16_point words.now at }
{
    let raw = words[at];
    let x = i16_of((raw % 0x10000) as u16);
    let y = i16_of((raw / 0x10000) as u16);
    Vec2 { x, y }
}

// A line as a cubic.
fn line_cubic(p0: Vec2, p1: Vec2) -> [Vec2; 4]
    ensures { result ≡ line_cubic p0 p1 }
{
    [p0, p0.mix(p1, 1.0 / 3.0), p1.mix(p0, 1.0 / 3.0), p1]
}

// A quad as a cubic.
fn quad_cubic(p0: Vec2, p1: Vec2, p2: Vec2) -> [Vec2; 4]
    ensures { result ≡ quad_cubic p0 p1 p2 }
{
    [p0, p1.mix(p0, 1.0 / 3.0), p1.mix(p2, 1.0 / 3.0), p2]
}

// The words of some points.
fn point_words(points: u64, wide: bool) -> u64
    requires { points ≤ 4 }
    ensures { (result ≡ points * point_words wide) × (result ≤ 8) }
{
    if wide { points * 2 } else { points }
}

// Point j of those that start at a place.
fn read_point(j: usize, wide: bool, words: &[u32], at: usize) -> Vec2
    requires { (j ≤ 3) × (at + (j + 1) * point_words wide ≤ length words.now) }
    ensures { result ≡ point_at wide words.now (at + j * point_words wide) }
{
    if wide {
        read_f32_point(words, at + j * 2)
    } else {
        read_i16_point(words, at + j)
    }
}

fn is_wide(tag_byte: u8) -> bool
    ensures { result ≡ wide tag_byte }
{
    tag_byte / 0x08 % 2 == 1
}

// Whether a quad only marks where a stroke's caps go.
fn is_marker(tag_byte: u8, is_stroke: bool) -> bool
    ensures { result ≡ marker tag_byte is_stroke }
{
    if is_stroke {
        return tag_byte / 0x04 % 2 == 1;
    }
    false
}

// A segment's kind is the number that the tag's low two bits are, as `cubic_of` and `reaches` of the specs take it: an enum would
// be made into it again in each contract.
fn point_count(kind: u8) -> u64
    ensures { result ≡ point_count kind }
{
    if kind == 0 { 2 } else { kind as u64 + 1 }
}

// Whether every point of a segment can be read.
fn in_reach(kind: u8, wide: bool, offset: u32, scene: &[u32], data_base: u32) -> bool
    requires { kind ≤ 3 }
    ensures { result ≡ reaches kind wide offset scene.now data_base }
{
    let count = point_count(kind);
    let last = offset as u64 + point_words(count - 1, wide);
    if last > 0xffff_ffff {
        return false;
    }
    let end = data_base as u64 + offset as u64 + point_words(count, wide);
    end <= scene.len() as u64
}

// The segment whose points start at a place, as a cubic.
fn read_cubic(kind: u8, marker: bool, wide: bool, words: &[u32], at: usize) -> [Vec2; 4]
    requires { (kind ≤ 3) × (at + point_count kind * point_words wide ≤ length words.now) }
    ensures { result ≡ cubic_of kind marker words.now wide at }
{
    let p0 = read_point(0, wide, words, at);
    let p1 = read_point(1, wide, words, at);
    if kind == 0 {
        let zero = Vec2::new(0.0, 0.0);
        return [p0, p1, zero, zero];
    }
    if kind == 1 {
        return line_cubic(p0, p1);
    }
    let p2 = read_point(2, wide, words, at);
    if kind == 2 {
        if marker {
            return line_cubic(p1, p2);
        }
        return quad_cubic(p0, p1, p2);
    }
    let p3 = read_point(3, wide, words, at);
    [p0, p1, p2, p3]
}

// The control points of a segment. Refused where one of its points lies outside.
pub fn read_path_segment(
    tag_byte: u8,
    is_stroke: bool,
    pathseg_offset: u32,
    scene: &[u32],
    data_base: u32,
) -> Result<[Vec2; 4], Refusal>
    ensures { result ≡ segment_of tag_byte is_stroke pathseg_offset scene.now data_base }
{
    let kind = tag_byte % 4;
    let wide = is_wide(tag_byte);
    if !in_reach(kind, wide, pathseg_offset, scene, data_base) {
        return Err(Refusal::Outside);
    }
    let at = data_base as usize + pathseg_offset as usize;
    Ok(read_cubic(kind, is_marker(tag_byte, is_stroke), wide, scene, at))
}

fn read_floats(words: &[u32], at: usize) -> [f32; 6]
    requires { at + 6 ≤ length words.now }
    ensures { result ≡ floats_at words.now at }
{
    [
        float_at(words, at),
        float_at(words, at + 1),
        float_at(words, at + 2),
        float_at(words, at + 3),
        float_at(words, at + 4),
        float_at(words, at + 5),
    ]
}

// The six numbers of a transform. Refused where one lies outside.
pub fn read_transform(
    scene: &[u32],
    transform_base: u32,
    trans_ix: u32,
) -> Result<[f32; 6], Refusal>
    ensures { result ≡ transform_of scene.now transform_base trans_ix }
{
    let at = transform_base as usize + trans_ix as usize * 6;
    if at <= 0xffff_ffff && at + 6 <= scene.len() {
        return Ok(read_floats(scene, at));
    }
    Err(Refusal::Outside)
}

// Neither an infinity nor a NaN, which no comparison holds of.
pub fn is_finite(x: f32) -> bool
    ensures { result ≡ finite x }
{
    x.is_finite()
}

// Whether a transform can be drawn with: else it is refusal 9.
pub fn all_finite(z: [f32; 6]) -> bool
    ensures { result ≡ all_finite z }
{
    z.iter().all(|x| is_finite(*x))
}

// The address of the style's flags, the one that wraps.
fn flags_address(style_base: u32, style_ix: u32) -> u64
    ensures { result ≡ (style_base + style_ix) % 4294967296 }
{
    std::num::wrapping_add_u32(style_base, style_ix) as u64
}

// The word of the style's flags.
pub fn style_flags(scene: &[u32], style_base: u32, style_ix: u32) -> Result<u32, Refusal>
    ensures { result ≡ flags_of scene.now style_base style_ix }
{
    word_at(scene, flags_address(style_base, style_ix))
}

// The word of the line width, whose address does not wrap.
pub fn line_width(scene: &[u32], style_base: u32, style_ix: u32) -> Result<u32, Refusal>
    ensures { result ≡ width_of scene.now style_base style_ix }
{
    let at = style_base as u64 + style_ix as u64 + 1;
    if at > 0xffff_ffff {
        return Err(Refusal::Outside);
    }
    word_at(scene, at)
}
