// Mending a list: one pass looks and decides, a second one writes and cannot fail. See specs/Report.antt.
ghost use Rattle.std.specs.Prelude.{◌≡◌, ℕ, ◌+◌, ◌*◌, ◌<◌, ◌≤◌, length};
ghost use Rattle.std.proofs.lemmas.List.Edits.{sets};
ghost use Rattle.records.specs.Record.{record_words, count};
ghost use Rattle.checker.specs.Verdict.{Finite, Taken};
ghost use Rattle.mender.specs.Report.{seen_in, said_of, appended_of, said_at, appended_at, report_of, lines_of, lent, Fits, Counted, written, Mends, error_told, told_of};
ghost use Rattle.mender.specs.declared.list.MendError.TheVariants.{NotTaken};

use crate::cases::{Case, case_of};
use checker::{CheckError, Verdict, check};
use records::{Line, word_at};

// How many paths are reported, and how many lines appended.
#[derive(Clone, Copy)]
pub struct Plan {
    pub paths: usize,
    pub lines: usize,
}

// Why a list is not mended: the check refuses it, a record has a bad number, from 0, or there is no room for the plan.
#[derive(Clone, Copy)]
pub enum MendError {
    NotTaken(CheckError),
    BadNumber(usize),
    NoRoom(Plan),
}

impl From<CheckError> for MendError {
    ghost from_gives = { λ e r. r ≡ NotTaken e };

    fn from(e: CheckError) -> MendError
        ensures { result ≡ NotTaken e }
    {
        MendError::NotTaken(e)
    }
}

// The answer in the numbers that C is told: 0 or the refusal's, and the two that it names.
#[derive(Clone, Copy)]
pub struct Told {
    pub number: u32,
    pub first: usize,
    pub second: usize,
}

impl MendError {
    fn told(self) -> Told
        ensures { result ≡ error_told self }
    {
        match self {
            MendError::NotTaken(why) => Told {
                number: why.number(),
                first: 0,
                second: 0,
            },
            MendError::BadNumber(k) => Told {
                number: 52,
                first: k,
                second: 0,
            },
            MendError::NoRoom(plan) => Told {
                number: 53,
                first: plan.paths,
                second: plan.lines,
            },
        }
    }
}

impl From<Result<Plan, MendError>> for Told {
    ghost from_gives = { λ a t. t ≡ told_of a };

    #[tactic(auto, unfolding(crate::specs::Report::told_of))]
    fn from(answer: Result<Plan, MendError>) -> Told
        ensures { result ≡ told_of answer }
    {
        match answer {
            Ok(plan) => Told {
                number: 0,
                first: plan.paths,
                second: plan.lines,
            },
            Err(e) => e.told(),
        }
    }
}

// Whether one of the first k records is of the path.
fn seen(list: &[u32], path: u32, k: usize) -> bool
    ensures { result ≡ seen_in list.now path k }
{
    (0..k).any(|j| word_at(list, j, 0) == path)
}

fn lines_of(case: Case) -> usize
    ensures { (p : ℕ) → result * 6 ≡ length (appended_of p case) }
{
    match case {
        Case::Sound => 0,
        Case::Mended(_) => 1,
        Case::NotMended => 0,
    }
}

// What record k adds to them.
fn plan_at(list: &[u32], tolerance: u32, k: usize) -> Plan
    ensures { (result.paths * 6 ≡ length (said_at list.now tolerance k)) × (result.lines * 6 ≡ length (appended_at list.now tolerance k)) }
{
    let path = word_at(list, k, 0);
    if seen(list, path, k) {
        return Plan { paths: 0, lines: 0 };
    }
    let lines = lines_of(case_of(list, tolerance, path));
    Plan { paths: 1, lines }
}

// Looks, and writes nothing.
fn look(list: &[u32], tolerance: u32) -> Plan
    ensures { (Counted list.now tolerance result.paths result.lines) × (result.lines ≤ count list.now) }
{
    let mut paths: usize = 0;
    let mut lines: usize = 0;
    for k in 0..list.len() / 6 {
        let here = plan_at(list, tolerance, k);
        paths += here.paths;
        lines += here.lines;
    }
    Plan { paths, lines }
}

fn put(words: &mut [u32], at: usize, path: u32, tag: u32, line: Line)
    requires { at + 5 < length words.old }
    ensures { words.new ≡ sets words.old at (record_words path tag line.x line.y line.z line.w) }
{
    words[at] = path;
    words[at + 1] = tag;
    words[at + 2] = line.x;
    words[at + 3] = line.y;
    words[at + 4] = line.z;
    words[at + 5] = line.w;
}

// What is said of a path, behind its number.
#[derive(Clone, Copy)]
pub struct Entry {
    pub kind: u32,
    pub line: Line,
}

fn said(case: Case) -> Entry
    ensures { (p : ℕ) → record_words p result.kind result.line.x result.line.y result.line.z result.line.w ≡ said_of p case }
{
    let line = Line {
        x: 0,
        y: 0,
        z: 0,
        w: 0,
    };
    match case {
        Case::Sound => Entry { kind: 0, line },
        Case::Mended(gap) => Entry { kind: 1, line: gap },
        Case::NotMended => Entry { kind: 2, line },
    }
}

fn say(report: &mut [u32], at: usize, path: u32, case: Case)
    requires { at + 5 < length report.old }
    ensures { report.new ≡ sets report.old at (said_of path case) }
{
    let s = said(case);
    put(report, at, path, s.kind, s.line);
}

fn append(room: &mut [u32], at: usize, path: u32, case: Case)
    requires { at + length (appended_of path case) ≤ length room.old }
    ensures { room.new ≡ sets room.old at (appended_of path case) }
{
    match case {
        Case::Sound => {}
        Case::Mended(gap) => put(room, at, path, 4294967295, gap),
        Case::NotMended => {}
    }
}

// The list and the tolerance are read all the way, the room and the report lent anew at each record: in one struct they would be
// lent by it twice over, and in a struct of their own the list would still go alone to `records` and `checker`. Writes what is said of record k behind the paths and lines before it, and counts on.
fn write_at(
    list: &[u32],
    tolerance: u32,
    k: usize,
    before: Plan,
    room: &mut [u32],
    report: &mut [u32],
) -> Plan
    requires { (before.lines * 6 + length (appended_at list.now tolerance k) ≤ length room.old) × (before.paths * 6 + length (said_at list.now tolerance k) ≤ length report.old) }
    ensures { (room.new ≡ sets room.old (before.lines * 6) (appended_at list.now tolerance k))
        × (report.new ≡ sets report.old (before.paths * 6) (said_at list.now tolerance k))
        × (result.lines * 6 ≡ before.lines * 6 + length (appended_at list.now tolerance k))
        × (result.paths * 6 ≡ before.paths * 6 + length (said_at list.now tolerance k)) }
{
    let path = word_at(list, k, 0);
    let paths = before.paths;
    let lines = before.lines;
    if seen(list, path, k) {
        return Plan { paths, lines };
    }
    let case = case_of(list, tolerance, path);
    say(report, paths * 6, path, case);
    append(room, lines * 6, path, case);
    Plan {
        paths: paths + 1,
        lines: lines + lines_of(case),
    }
}

// Writes the lines and the report, for which there is room.
fn write(list: &[u32], tolerance: u32, room: &mut [u32], report: &mut [u32])
    requires { (length (lines_of list.now tolerance) ≤ length room.old) × (length (report_of list.now tolerance) ≤ length report.old) }
    ensures { lent room.new report.new ≡ written list.now tolerance (lent room.old report.old) }
{
    let mut done = Plan { paths: 0, lines: 0 };
    for k in 0..list.len() / 6 {
        done = write_at(list, tolerance, k, done, room, report);
    }
}

// Of a list that is not refused as it stands: all is decided before a word is written.
fn fill(
    list: &[u32],
    tolerance: u32,
    room: &mut [u32],
    report: &mut [u32],
) -> Result<Plan, MendError>
    requires { Taken list.now × Finite list.now }
    ensures { Mends list.now tolerance (lent room.old report.old) result (lent room.new report.new) }
{
    let plan = look(list, tolerance);
    let paths = plan.paths;
    let lines = plan.lines;
    if room.len() / 6 < lines {
        return Err(MendError::NoRoom(plan));
    }
    if report.len() / 6 < paths {
        return Err(MendError::NoRoom(plan));
    }
    if 2000 < list.len() / 6 + lines {
        return Err(MendError::NoRoom(plan));
    }
    write(list, tolerance, room, report);
    Ok(plan)
}

// The list is only read. Its lines are appended in `room`, which may stand right behind it in memory.
pub fn mend(
    list: &[u32],
    tolerance: u32,
    room: &mut [u32],
    report: &mut [u32],
) -> Result<Plan, MendError>
    ensures { Mends list.now tolerance (lent room.old report.old) result (lent room.new report.new) }
{
    let verdict = check(list)?;
    match verdict {
        Verdict::BadNumber(k) => Err(MendError::BadNumber(k)),
        Verdict::Sound => fill(list, tolerance, room, report),
        Verdict::Unbalanced(_) => fill(list, tolerance, room, report),
    }
}
