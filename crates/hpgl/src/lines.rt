// The lines of one path, command by command, into whatever takes them.
ghost use Rattle.std.specs.Prelude.{◌≡◌, ◌≤◌, None};
ghost use Rattle.hpgl.specs.Form.{range_of};
ghost use Rattle.hpgl.specs.CommandLaws.{pen_of};
ghost use Rattle.hpgl.specs.Export.{put, goes_on, put_line};
ghost use Rattle.records.specs.Record.{word};
ghost use Rattle.hpgl.specs.ExportLaws.{Continues, Steps, left};

use crate::Table;
use crate::export::CutError;
use crate::rounding::aim_at;
use crate::sink::{Sink, Stop};
use records::{Line, line_at, word_at};

// The place behind the commands so far, and where the path's last line ended, by its bits.
#[derive(Clone, Copy)]
pub(crate) struct Reached {
    pub(crate) at: usize,
    pub(crate) last: Option<(u32, u32)>,
}

// A command to the point of two words.
fn put_command<S: Sink>(
    sink: &mut S,
    table: Table,
    at: usize,
    draws: bool,
    x: u32,
    y: u32,
) -> Result<usize, Stop>
    requires { at ≤ S.kind.size (S.held sink.old) }
    ensures says { Continues S.kind (put (range_of table) (pen_of draws) x y) (S.held sink.old) at result (S.held sink.new) }
    ensures same { S.place sink.new ≡ S.place sink.old }
{
    match aim_at(x, y, table) {
        None => Err(Stop::Bad(at)),
        Some(to) => sink.put(at, draws, to),
    }
}

// A line, which goes on from the last one or starts a chain.
fn put_line<S: Sink>(
    sink: &mut S,
    table: Table,
    at: usize,
    joined: bool,
    line: Line,
) -> Result<usize, Stop>
    requires { at ≤ S.kind.size (S.held sink.old) }
    ensures says { Continues S.kind (put_line (range_of table) joined line.x line.y line.z line.w) (S.held sink.old) at result (S.held sink.new) }
    ensures same { S.place sink.new ≡ S.place sink.old }
{
    if joined {
        return put_command(sink, table, at, true, line.z, line.w);
    }
    let a = put_command(sink, table, at, false, line.x, line.y)?;
    put_command(sink, table, a, true, line.z, line.w)
}

// `last == Some((x, y))` was tried: what std says of it did not close.
fn goes_on(last: Option<(u32, u32)>, x: u32, y: u32) -> bool
    ensures { result ≡ goes_on last x y }
{
    match last {
        None => false,
        Some((a, b)) => (a == x) & (b == y),
    }
}

// Record i, which is of the path.
fn put_record<S: Sink>(
    list: &[u32],
    path: u32,
    i: usize,
    from: Reached,
    table: Table,
    sink: &mut S,
) -> Result<Reached, Stop>
    requires room { from.at ≤ S.kind.size (S.held sink.old) }
    requires its { word list.now i 0 ≡ path }
    ensures says { Steps S.kind (range_of table) list.now path i from (S.held sink.old) result (S.held sink.new) }
    ensures same { S.place sink.new ≡ S.place sink.old }
{
    let line = line_at(list, i);
    let joined = goes_on(from.last, line.x, line.y);
    let at = put_line(sink, table, from.at, joined, line)?;
    Ok(Reached {
        at,
        last: Some((line.z, line.w)),
    })
}

// The lines of the path, behind the first bytes.
pub(crate) fn put_all<S: Sink>(
    list: &[u32],
    path: u32,
    table: Table,
    sink: &mut S,
    start: usize,
) -> Result<usize, CutError>
    requires { start ≤ S.kind.size (S.held sink.old) }
    ensures says { S.kind.say result (S.held sink.new) ≡ left S.kind (range_of table) list.now path (S.held sink.old) start None 0 }
    ensures same { S.place sink.new ≡ S.place sink.old }
{
    let mut here = Reached {
        at: start,
        last: None,
    };
    for i in 0..list.len() / 6 {
        // Asked here, so that nothing is handed on for the others: to hand on what is reached would cost more than the test.
        if word_at(list, i, 0) == path {
            match put_record(list, path, i, here, table, sink) {
                Ok(next) => here = next,
                Err(stop) => return Err(stop.in_record(i)),
            }
        }
    }
    Ok(here.at)
}
