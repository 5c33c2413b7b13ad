// Old sheets moved to f32 points, and back.
ghost use Rattle.std.specs.Prelude.{◌≡◌, length};
ghost use Rattle.sheets.specs.Moving.{to_f32, to_i16};
ghost use Rattle.sheets.specs.Written.{stored};
ghost use Rattle.exports.specs.Convert.{moved, moved_of};

use crate::out::put_told;
use sheets::sheet::{Told, to_f32, to_i16};

#[unsafe(no_mangle)]
pub extern "C" fn hinth_to_f32(
    tags: &[u8],
    points: &[u32],
    new_tags: &mut [u8],
    new_points: &mut [u32],
    out: &mut [u64],
) -> u32
    ensures { moved result new_tags.new new_points.new out.new
        ≡ moved_of
        (stored (to_f32 tags.now points.now (length new_tags.old) (length new_points.old)) new_tags.old new_points.old)
        out.old }
{
    let told = Told::from(to_f32(tags, points, new_tags, new_points));
    put_told(out, [told.tags, told.words, told.at]);
    told.number
}

#[unsafe(no_mangle)]
pub extern "C" fn hinth_to_i16(
    tags: &[u8],
    points: &[u32],
    old_tags: &mut [u8],
    old_points: &mut [u32],
    out: &mut [u64],
) -> u32
    ensures { moved result old_tags.new old_points.new out.new
        ≡ moved_of
        (stored (to_i16 tags.now points.now (length old_tags.old) (length old_points.old)) old_tags.old old_points.old)
        out.old }
{
    let back = Told::from(to_i16(tags, points, old_tags, old_points));
    put_told(out, [back.tags, back.words, back.at]);
    back.number
}
