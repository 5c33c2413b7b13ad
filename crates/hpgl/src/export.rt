// The lines of one path as an HP-GL file, in lent bytes.
ghost use Rattle.std.specs.Prelude.{◌≡◌};
ghost use Rattle.hpgl.specs.Export.{outcome, cut_of, cut_report};

use crate::lines::put_all;
use crate::sink::Bytes;
use crate::{Report, Table};

// Why an export ends before the file is whole, with the count of bytes that stand and the record in turn:
// a coordinate is a NaN or out of range, or a command has no room.
#[derive(Clone, Copy)]
pub enum CutError {
    BadNumber(usize, usize),
    NoRoom(usize, usize),
}

// The path's lines of a list of line records, and how many bytes they are; words behind the last whole record do not matter.
pub fn export(list: &[u32], path: u32, out: &mut [u8]) -> Result<usize, CutError>
    ensures { outcome result out.new ≡ cut_of path list.now out.old }
{
    if out.len() < 3 {
        return Err(CutError::NoRoom(0, 0));
    }
    out[0] = b'I';
    out[1] = b'N';
    out[2] = b';';
    let mut bytes = Bytes { out };
    put_all(list, path, Table::New, &mut bytes, 3)
}

// The table of the numbers of an export or a look.
impl From<Result<usize, CutError>> for Report {
    ghost from_gives = { λ a t. t ≡ cut_report a };

    #[tactic(auto, unfolding(crate::specs::Export::cut_report))]
    fn from(answer: Result<usize, CutError>) -> Report
        ensures { result ≡ cut_report answer }
    {
        match answer {
            Ok(n) => Report::new(0, n, 0),
            Err(CutError::BadNumber(n, i)) => Report::new(30, n, i),
            Err(CutError::NoRoom(n, i)) => Report::new(31, n, i),
        }
    }
}
