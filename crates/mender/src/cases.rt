// Which case a path is: sound, mended with a line, or not mended. See specs/Mend.antt.
ghost use Rattle.std.specs.Prelude.{◌≡◌, eqb, ◌+◌};
ghost use Rattle.records.specs.Record.{count, starts, ends};
ghost use Rattle.checker.specs.Search.{Finds};
ghost use Rattle.mender.specs.Sought.{allowed_point, is_sought, sought_at};
ghost use Rattle.mender.specs.Mend.{BalancedIn, IsCase};

use crate::near::near;
use records::{Counts, Line, count_both, keys_at, word_at};

// A path is mended by a line between two points, given by their keys.
#[derive(Clone, Copy)]
pub enum Case {
    Sound,
    Mended(Line),
    NotMended,
}

// What is looked for among the records of a path: one with a point out of balance; one whose end is an end once more than a start;
// one whose start is a start once more than an end; one with a point out of balance that is neither of two points.
// An enum and not closures: the laws speak of these four alone, by name.
#[derive(Clone, Copy)]
pub enum Sought {
    Uneven,
    OpenEnd,
    OpenStart,
    Other(Line),
}

fn one_more(many: usize, few: usize) -> bool
    ensures { result ≡ eqb many (few + 1) }
{
    if few < many { many - few == 1 } else { false }
}

fn allowed(starts: usize, ends: usize, a: u32, b: u32, gap: Line) -> bool
    ensures { result ≡ allowed_point starts ends a b gap.x gap.y gap.z gap.w }
{
    (starts == ends) | (((a == gap.x) & (b == gap.y)) | ((a == gap.z) & (b == gap.w)))
}

fn is_sought(what: Sought, line: Line, n: Counts) -> bool
    ensures { result ≡ is_sought what line.x line.y line.z line.w n }
{
    match what {
        Sought::Uneven => !((n.starts0 == n.ends0) & (n.starts1 == n.ends1)),
        Sought::OpenEnd => one_more(n.ends1, n.starts1),
        Sought::OpenStart => one_more(n.starts0, n.ends0),
        Sought::Other(gap) => {
            let from = allowed(n.starts0, n.ends0, line.x, line.y, gap);
            let to = allowed(n.starts1, n.ends1, line.z, line.w, gap);
            !(from & to)
        }
    }
}

fn sought_at(list: &[u32], path: u32, what: Sought, k: usize) -> bool
    ensures { result ≡ sought_at list.now path what k }
{
    if word_at(list, k, 0) != path {
        return false;
    }
    let line = keys_at(list, k);
    is_sought(what, line, count_both(list, path, line))
}

fn first(list: &[u32], path: u32, what: Sought) -> Option<usize>
    ensures { Finds (sought_at list.now path what) (count list.now) result }
{
    (0..list.len() / 6).find(|k| sought_at(list, path, what, *k))
}

// Where one point is an end once more than a start, and one a start once more than an end.
fn close(list: &[u32], tolerance: u32, path: u32, gap: Line) -> Case
    requires { (ends list.now path gap.x gap.y ≡ starts list.now path gap.x gap.y + 1)
        × (starts list.now path gap.z gap.w ≡ ends list.now path gap.z gap.w + 1) }
    ensures { IsCase list.now tolerance path result }
{
    if first(list, path, Sought::Other(gap)).is_some() {
        return Case::NotMended;
    }
    if near(tolerance, gap.x, gap.z) {
        if near(tolerance, gap.y, gap.w) {
            Case::Mended(gap)
        } else {
            Case::NotMended
        }
    } else {
        Case::NotMended
    }
}

fn close_broken(list: &[u32], tolerance: u32, path: u32) -> Case
    requires { BalancedIn list.now path → ⊥ }
    ensures { IsCase list.now tolerance path result }
{
    let Some(e) = first(list, path, Sought::OpenEnd) else {
        return Case::NotMended;
    };
    let Some(s) = first(list, path, Sought::OpenStart) else {
        return Case::NotMended;
    };
    let over = keys_at(list, e);
    let under = keys_at(list, s);
    let gap = Line {
        x: over.z,
        y: over.w,
        z: under.x,
        w: under.y,
    };
    close(list, tolerance, path, gap)
}

pub fn case_of(list: &[u32], tolerance: u32, path: u32) -> Case
    ensures { IsCase list.now tolerance path result }
{
    if first(list, path, Sought::Uneven).is_some() {
        return close_broken(list, tolerance, path);
    }
    Case::Sound
}
