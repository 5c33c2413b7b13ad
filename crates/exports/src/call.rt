// The whole call.
ghost use Rattle.std.specs.Prelude.{◌≡◌};
ghost use Rattle.flatten.specs.Call.{call_of};
ghost use Rattle.exports.specs.Call.{layout_of, reported, reported_of};

use flatten::boxes::PathBox;
use flatten::call::{Layout, flatten_main, report};

#[unsafe(no_mangle)]
pub extern "C" fn hinth_flatten(
    n_wg: u32,
    tag_base: u32,
    data_base: u32,
    transform_base: u32,
    style_base: u32,
    scene: &[u32],
    prefixes: &[u32],
    boxes: &mut [PathBox],
    lines: &mut [u32],
    out: &mut [u64],
) -> u32
    ensures { reported result boxes.new lines.new out.new
        ≡ reported_of
        (call_of (layout_of n_wg tag_base data_base transform_base style_base) scene.now prefixes.now boxes.old lines.old)
        out.old }
{
    let layout = Layout {
        n_wg,
        tag_base,
        data_base,
        transform_base,
        style_base,
    };
    let answer = flatten_main(layout, scene, prefixes, boxes, lines);
    report(answer, out)
}
