// An export that is only looked at: the same commands, counted and not written.
ghost use Rattle.std.specs.Prelude.{◌≡◌};
ghost use Rattle.hpgl.specs.Export.{look_of};

use crate::Table;
use crate::export::CutError;
use crate::lines::put_all;
use crate::sink::Room;

// What an export for a table into that much room would answer. Nothing is written.
pub fn look(list: &[u32], path: u32, table: Table, room: usize) -> Result<usize, CutError>
    ensures { result ≡ look_of table path room list.now }
{
    if room < 3 {
        return Err(CutError::NoRoom(0, 0));
    }
    let mut counted = Room(room);
    put_all(list, path, table, &mut counted, 3)
}
