// The scan of the tags.
ghost use Rattle.std.specs.Prelude.{◌≡◌};
ghost use Rattle.scene.specs.Tags.{scan_of};
ghost use Rattle.exports.specs.Scan.{scanned, scanned_of};

use crate::out::put_told;
use scene::tags::scan;

#[unsafe(no_mangle)]
pub extern "C" fn hinth_scan(
    scene: &[u32],
    tag_base: u32,
    prefixes: &mut [u32],
    out: &mut [u64],
) -> u32
    ensures { scanned result prefixes.new out.new
        ≡ scanned_of (scan_of scene.now tag_base prefixes.old) out.old }
{
    match scan(scene, tag_base, prefixes) {
        Ok(count) => {
            put_told(out, [count]);
            0
        }
        Err(why) => {
            put_told(out, [0]);
            why.number()
        }
    }
}
