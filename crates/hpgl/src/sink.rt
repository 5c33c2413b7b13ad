// Where the commands of an export go: into lent bytes, or nowhere, where they are only counted.
ghost use base.Fml.{GName};
ghost use Rattle.std.specs.Prelude.{◌≡◌, ◌≤◌, ℕ, length};
ghost use Rattle.hpgl.specs.CommandLaws.{command_text};
ghost use Rattle.hpgl.specs.ExportLaws.{Sink, Texted, in_record, in_bytes, only_counted};

use crate::export::CutError;
use crate::rounding::Spot;
use crate::text::{command_length, write_command};

// Why a command does not go, with the count of bytes that stand: a coordinate is refused, or there is no room.
#[derive(Clone, Copy)]
pub(crate) enum Stop {
    Bad(usize),
    Full(usize),
}

impl Stop {
    // The same, told of record i.
    pub(crate) fn in_record(self, i: usize) -> CutError
        ensures { result ≡ in_record self i }
    {
        match self {
            Stop::Bad(n) => CutError::BadNumber(n, i),
            Stop::Full(n) => CutError::NoRoom(n, i),
        }
    }
}

// A command in lent bytes, where it has room. Returns the place behind it.
fn put_text(out: &mut [u8], at: usize, draws: bool, to: Spot) -> Result<usize, Stop>
    requires { at ≤ length out.old }
    ensures { Texted in_bytes (command_text draws to) out.old at result out.new }
{
    if out.len() - at < command_length(draws, to) {
        return Err(Stop::Full(at));
    }
    Ok(write_command(out, at, draws, to))
}

pub(crate) trait Sink {
    ghost kind: { Sink };

    ghost held: { Self → kind.Held };

    // What stays the same whatever goes in: the memory that is lent.
    ghost Place: { Type 0 };

    ghost place: { Self → Place };

    // A command, where it has room: whether it draws and its point are two parameters, since the functions of `text.rt` that
    // measure and write it take each apart. Returns the place behind it.
    fn put(&mut self, at: usize, draws: bool, to: Spot) -> Result<usize, Stop>
        requires { at ≤ kind.size (held self.old) }
        ensures taken { Texted kind (command_text draws to) (held self.old) at result (held self.new) }
        ensures same { place self.new ≡ place self.old };
}

#[derive(Drop)]
pub(crate) struct Bytes<'a> {
    pub(crate) out: &'a mut [u8],
}

impl Sink for Bytes<'_> {
    ghost kind = { in_bytes };

    ghost held = { λ s. s.out.now };

    ghost Place = { GName };

    ghost place = { λ s. s.out.ghost_name };

    fn put(&mut self, at: usize, draws: bool, to: Spot) -> Result<usize, Stop> {
        put_text(self.out, at, draws, to)
    }
}

// Room for so many bytes.
#[derive(Drop)]
pub(crate) struct Room(pub(crate) usize);

impl Sink for Room {
    ghost kind = { only_counted };

    ghost held = { λ s. s.0 };

    ghost Place = { ℕ };

    ghost place = { λ s. s.0 };

    fn put(&mut self, at: usize, draws: bool, to: Spot) -> Result<usize, Stop> {
        let size = command_length(draws, to);
        if self.0 - at < size {
            return Err(Stop::Full(at));
        }
        Ok(at + size)
    }
}
