// The profile for lay-up sheets.
ghost use Rattle.std.specs.Prelude.{◌≡◌};
ghost use Rattle.profile.specs.Reads.{given};
ghost use Rattle.profile.specs.Verdict.{profile_of};
ghost use Rattle.exports.specs.Call.{layout_of};
ghost use Rattle.exports.specs.Profile.{profiled, profiled_of};

use crate::out::put_told;
use flatten::call::Layout;
use profile::sheet::{Told, test_scene};

#[unsafe(no_mangle)]
pub extern "C" fn hinth_profile(
    n_wg: u32,
    tag_base: u32,
    data_base: u32,
    transform_base: u32,
    style_base: u32,
    scene: &[u32],
    prefixes: &[u32],
    out: &mut [u64],
) -> u32
    ensures { profiled result out.new
        ≡ profiled_of
        (profile_of (given (layout_of n_wg tag_base data_base transform_base style_base) scene.now prefixes.now))
        out.old }
{
    let layout = Layout {
        n_wg,
        tag_base,
        data_base,
        transform_base,
        style_base,
    };
    let told = Told::from(test_scene(layout, scene, prefixes));
    put_told(out, [told.tag, told.segments, told.subpaths]);
    told.number
}
