// The reader of HP-GL files: lines of four numbers into lent room.
ghost use Rattle.std.specs.Prelude.{◌+◌, ◌≤◌, ◌<◌, ◌≡◌, [], ◌∷◌, length, drop, get_or};
ghost use Rattle.std.proofs.lemmas.List.Edits.{sets};
ghost use Rattle.hpgl.specs.Form.{range_of, Within};
ghost use Rattle.hpgl.specs.Reading.{byte_of, value_of, kept, on_dash, on_digit, on_other, num_step, first, second, free, up_from, down_from, run, ending, told, back_of, reading_of, stopped, back_report};
ghost use Rattle.hpgl.specs.Numbers.{Good};
ghost use Rattle.hpgl.specs.ReadingLaws.{Numbered, Reaches, Commands, Lifts, Draws, Lettered, unread, byte_is};

use crate::range::most_of;
use crate::{Point, Report, Table};

// Why a reading ends before the file is whole, with the count of lines that stand: the position of the first byte
// that is not of the form, of a number out of range, of a PD whose line has no room.
#[derive(Clone, Copy)]
pub enum ReadError {
    Malformed(usize, usize),
    TooFar(usize, usize),
    Full(usize, usize),
}

// The same of a part: the position of a wrong byte, or of a number out of range.
#[derive(Clone, Copy)]
enum Fault {
    Wrong(usize),
    Beyond(usize),
}

impl Fault {
    // The same behind so many lines.
    fn behind(self, count: usize) -> ReadError
        ensures { Err result ≡ back_of (stopped self) count }
    {
        match self {
            Fault::Wrong(p) => ReadError::Malformed(count, p),
            Fault::Beyond(p) => ReadError::TooFar(count, p),
        }
    }
}

// What is read of a number: nothing, the sign, the digit 0, or a sign and a size, less 1. Four
// states and no Option: a sign alone and a single 0 go on otherwise than nothing and than a size.
#[derive(Clone, Copy)]
enum Num {
    None,
    Dashed,
    Naught,
    Some(bool, u32),
}

// A byte of a number: it goes on, it ended before this byte, the byte is wrong, or it is out of range.
// One enum of four, as the table of the specs answers: a Result of two enums of two would say the same.
#[derive(Clone, Copy)]
enum NumStep {
    Goes(Num),
    Done(i32),
    Wrong,
    Beyond,
}

// Where the pen stands: nowhere yet, lifted to a point, or at the end of a line.
#[derive(Clone, Copy)]
enum Stand {
    Fresh,
    Lifted(Point),
    Drawn(Point),
}

// The size w + 1, where the range has it.
fn keep(s: bool, w: u32, table: Table) -> NumStep
    ensures { result ≡ kept (range_of table) s w }
{
    if w < most_of(table, s) {
        return NumStep::Goes(Num::Some(s, w));
    }
    NumStep::Beyond
}

fn value_of(s: bool, w: u32) -> i32
    requires { w < 8388608 }
    ensures { result ≡ value_of s w }
{
    let size = (w + 1) as i32;
    if s {
        return 0 - size;
    }
    size
}

fn on_dash(n: Num) -> NumStep
    ensures { result ≡ on_dash n }
{
    match n {
        Num::None => NumStep::Goes(Num::Dashed),
        _ => NumStep::Wrong,
    }
}

fn on_digit(n: Num, d: u32, table: Table) -> NumStep
    requires { Good (range_of table) n × (d < 10) }
    ensures { result ≡ on_digit (range_of table) n d }
{
    match n {
        Num::None => {
            if d == 0 {
                return NumStep::Goes(Num::Naught);
            }
            keep(false, d - 1, table)
        }
        Num::Dashed => {
            if d == 0 {
                return NumStep::Wrong;
            }
            keep(true, d - 1, table)
        }
        Num::Naught => NumStep::Wrong,
        Num::Some(s, w) => keep(s, w * 10 + 9 + d, table),
    }
}

// A byte that is no part of a number, and is the one behind it or is not.
fn on_other(ends: bool, n: Num) -> NumStep
    requires { Good (range_of Table.New) n }
    ensures { result ≡ on_other ends n }
{
    if !ends {
        return NumStep::Wrong;
    }
    match n {
        Num::None => NumStep::Wrong,
        Num::Dashed => NumStep::Wrong,
        Num::Naught => NumStep::Done(0),
        Num::Some(s, w) => NumStep::Done(value_of(s, w)),
    }
}

fn num_step(ends: bool, n: Num, b: u8, table: Table) -> NumStep
    requires { Good (range_of table) n }
    ensures { result ≡ num_step (range_of table) ends n (byte_of b) }
{
    if b == b'-' {
        return on_dash(n);
    }
    if b < 48 {
        return on_other(ends, n);
    }
    if b < 58 {
        return on_digit(n, (b - 48) as u32, table);
    }
    on_other(ends, n)
}

// A command: the pen lifted to a point, or a line, with the position behind it.
#[derive(Clone, Copy)]
enum Command {
    Up(Point, usize),
    Line(Point, Point, usize),
}

// The four numbers of a line.
fn store(lines: &mut [i32], at: usize, q: Point, t: Point)
    requires { at + 4 ≤ length lines.old }
    ensures { lines.new ≡ sets lines.old at (q.x ∷ q.y ∷ t.x ∷ t.y ∷ []) }
{
    let a = q.x;
    let b = q.y;
    let c = t.x;
    let d = t.y;
    lines[at] = a;
    lines[at + 1] = b;
    lines[at + 2] = c;
    lines[at + 3] = d;
}

// At the file's end: a PU needs a PD.
fn ended(stand: Stand, count: usize, at: usize) -> Result<usize, ReadError>
    ensures { result ≡ back_of (ending at (free stand)) count }
{
    match stand {
        Stand::Fresh => Ok(count),
        Stand::Lifted(_) => Err(ReadError::Malformed(count, at)),
        Stand::Drawn(_) => Ok(count),
    }
}

// A file, and the table whose numbers it may have.
#[derive(Clone, Copy)]
struct Reader<'a> {
    file: &'a [u8],
    table: Table,
}

impl Reader<'_> {
    // A number, up to the byte behind it: its value and that byte's position.
    fn read_number(self, start: usize, ends: u8) -> Result<(i32, usize), Fault>
        requires { start ≤ length self.file.now }
        ensures { Numbered self.entry.table self.entry.file.now start ends result }
    {
        let mut n = Num::None;
        for at in start..self.file.len() {
            let b = self.file[at];
            match num_step(b == ends, n, b, self.table) {
                NumStep::Goes(m) => n = m,
                NumStep::Done(z) => return Ok((z, at)),
                NumStep::Wrong => return Err(Fault::Wrong(at)),
                NumStep::Beyond => return Err(Fault::Beyond(start)),
            }
        }
        Err(Fault::Wrong(self.file.len()))
    }

    // Two numbers, up to the byte behind them: the point and that byte's position.
    fn read_y(self, x: i32, start: usize) -> Result<(Point, usize), Fault>
        requires { (start ≤ length self.file.now) × Within (range_of self.table) x }
        ensures { Reaches self.entry.table self.entry.file.now start (λ c k p. second c k p x start Num.None) result }
    {
        let (y, end) = self.read_number(start, b';')?;
        Ok((Point { x, y }, end))
    }

    fn read_point(self, start: usize) -> Result<(Point, usize), Fault>
        requires { start ≤ length self.file.now }
        ensures { Reaches self.entry.table self.entry.file.now start (λ c k p. first c k p start Num.None) result }
    {
        let (x, end) = self.read_number(start, b',')?;
        self.read_y(x, end + 1)
    }

    // The rest of a PU whose P is at a position.
    fn lift(self, at: usize) -> Result<Command, Fault>
        requires { at + 2 ≤ length self.file.now }
        ensures { Lifts self.entry.table self.entry.file.now at result }
    {
        let (t, end) = self.read_point(at + 2)?;
        Ok(Command::Up(t, end + 1))
    }

    // The rest of a PD that draws from q.
    fn draw(self, at: usize, q: Point) -> Result<Command, Fault>
        requires { at + 2 ≤ length self.file.now }
        ensures { Draws self.entry.table self.entry.file.now at q result }
    {
        let (t, end) = self.read_point(at + 2)?;
        Ok(Command::Line(q, t, end + 1))
    }

    // A PU behind another one is wrong at its U.
    fn pen_up(self, at: usize, stand: Stand) -> Result<Command, Fault>
        requires { at + 2 ≤ length self.file.now }
        ensures { Lettered self.entry.table self.entry.file.now at (up_from stand at (at + 1)) result }
    {
        match stand {
            Stand::Fresh => self.lift(at),
            Stand::Lifted(_) => Err(Fault::Wrong(at + 1)),
            Stand::Drawn(_) => self.lift(at),
        }
    }

    // A PD before any PU is wrong at its D.
    fn pen_down(self, at: usize, stand: Stand) -> Result<Command, Fault>
        requires { at + 2 ≤ length self.file.now }
        ensures { Lettered self.entry.table self.entry.file.now at (down_from stand at (at + 1)) result }
    {
        match stand {
            Stand::Fresh => Err(Fault::Wrong(at + 1)),
            Stand::Lifted(q) => self.draw(at, q),
            Stand::Drawn(q) => self.draw(at, q),
        }
    }

    fn read_command(self, at: usize, stand: Stand) -> Result<Command, Fault>
        requires { at < length self.file.now }
        ensures { Commands self.entry.table self.entry.file.now at (λ room. run (range_of self.entry.table) room at (free stand) (drop at self.entry.file.now)) result }
    {
        if self.file[at] != b'P' {
            return Err(Fault::Wrong(at));
        }
        if self.file.len() - at < 2 {
            return Err(Fault::Wrong(at + 1));
        }
        let letter = self.file[at + 1];
        if letter == b'U' {
            return self.pen_up(at, stand);
        }
        if letter == b'D' {
            return self.pen_down(at, stand);
        }
        Err(Fault::Wrong(at + 1))
    }

    // The commands behind the first bytes.
    fn read_all(self, start: usize, lines: &mut [i32]) -> Result<usize, ReadError>
        requires { start ≤ length self.file.now }
        ensures { told result lines.new ≡ unread self.entry.table self.entry.file.now lines.old 0 start Stand.Fresh }
    {
        let room = lines.len() / 4;
        let mut at = start;
        let mut stand = Stand::Fresh;
        let mut count: usize = 0;
        // No range: a command takes as many bytes as it has.
        while at < self.file.len() {
            let command = match self.read_command(at, stand) {
                Ok(command) => command,
                Err(fault) => return Err(fault.behind(count)),
            };
            match command {
                Command::Up(t, next) => {
                    stand = Stand::Lifted(t);
                    at = next;
                }
                Command::Line(q, t, next) => {
                    if count >= room {
                        return Err(ReadError::Full(count, at));
                    }
                    store(lines, count * 4, q, t);
                    count += 1;
                    stand = Stand::Drawn(t);
                    at = next;
                }
            }
        }
        ended(stand, count, at)
    }
}

#[tactic(auto, unfolding(crate::specs::ReadingLaws::byte_is))]
fn is_at(file: &[u8], at: usize, b: u8) -> bool
    ensures { result ≡ byte_is file.now at b }
{
    file.get(at).is_some_and(|x| *x == b)
}

// The lines of a file by the reader that is set to a table, four numbers each; numbers behind the last whole line are not touched.
pub fn read(file: &[u8], lines: &mut [i32], table: Table) -> Result<usize, ReadError>
    ensures { told result lines.new ≡ reading_of table file.now lines.old }
{
    if !is_at(file, 0, b'I') {
        return Err(ReadError::Malformed(0, 0));
    }
    if !is_at(file, 1, b'N') {
        return Err(ReadError::Malformed(0, 1));
    }
    if !is_at(file, 2, b';') {
        return Err(ReadError::Malformed(0, 2));
    }
    Reader { file, table }.read_all(3, lines)
}

// The table of the numbers of a reading.
impl From<Result<usize, ReadError>> for Report {
    ghost from_gives = { λ a t. t ≡ back_report a };

    #[tactic(auto, unfolding(crate::specs::Reading::back_report))]
    fn from(answer: Result<usize, ReadError>) -> Report
        ensures { result ≡ back_report answer }
    {
        match answer {
            Ok(n) => Report::new(0, n, 0),
            Err(ReadError::TooFar(n, p)) => Report::new(32, n, p),
            Err(ReadError::Malformed(n, p)) => Report::new(33, n, p),
            Err(ReadError::Full(n, p)) => Report::new(34, n, p),
        }
    }
}
