// The check of a list of lines.
ghost use Rattle.std.specs.Prelude.{◌≡◌};
ghost use Rattle.exports.specs.Check.{Checked};

use crate::out::put_told;
use checker::{Told, check};

#[unsafe(no_mangle)]
pub extern "C" fn hinth_check(list: &[u32], out: &mut [u64]) -> u32
    ensures { Checked list.now out.old result out.new }
{
    let told = Told::from(check(list));
    put_told(out, [told.verdict as u64, told.record as u64]);
    told.number
}
