// The mending of a list of lines.
ghost use Rattle.mender.specs.Report.{lent};
ghost use Rattle.exports.specs.Mend.{MendedBy};

use crate::out::put_told;
use mender::list::{Told, mend};

#[unsafe(no_mangle)]
pub extern "C" fn hinth_mend(
    list: &[u32],
    within: u32,
    room: &mut [u32],
    report: &mut [u32],
    out: &mut [u64],
) -> u32
    ensures { MendedBy list.now within (lent room.old report.old) out.old
        result (lent room.new report.new) out.new }
{
    let told = Told::from(mend(list, within, room, report));
    put_told(out, [told.first as u64, told.second as u64]);
    told.number
}
