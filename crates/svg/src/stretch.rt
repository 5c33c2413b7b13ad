// A number at a stretch: the digits and the point that follow, without a step of the table for each.
ghost use Rattle.std.specs.Prelude.{◌≡◌, true, ◌+◌, ◌^◌, ◌≤◌, ◌<◌, length, get_or};
ghost use Rattle.svg.specs.Language.{digit_byte};
ghost use Rattle.svg.specs.Machine.{Sound};
ghost use Rattle.svg.specs.Stretch.{has_digit, has_point, before_point, behind_point, Digits, Onward};

use crate::steps::{Num, Place, State, digit_byte};

// Digits that were read: the number they make, how many there are on their side of the point, and the byte behind them.
#[derive(Clone, Copy)]
pub struct Taken {
    pub n: u64,
    pub count: u64,
    pub at: usize,
}

// Where the reader stands, and its next byte.
#[derive(Clone, Copy)]
pub struct Stand {
    pub state: State,
    pub at: usize,
}

// Whether a digit stands there that is no tenth.
fn has_digit(text: &[u8], at: usize, count: u64) -> bool
    ensures is { result ≡ has_digit text.now at count }
    ensures told { result ≡ true → (at < length text.now) × (count < 9) × (digit_byte (get_or text.now at 0) ≡ true) }
{
    at < text.len() && count < 9 && digit_byte(text[at])
}

// The digits from a byte on, behind `held` of which there are `counted`. A `for` over the bytes would test the same in its body, and
// leave by a return in two places.
fn digits(text: &[u8], start: usize, held: u64, counted: u64) -> Taken
    requires { (start ≤ length text.now) × (counted ≤ 9) × (held < 10 ^ (counted + 9)) }
    ensures { Digits text.now start held counted result.at result.n result.count }
{
    let mut n = held;
    let mut count = counted;
    let mut i = start;
    while has_digit(text, i, count) {
        n = n * 10 + (text[i] - 48) as u64;
        count += 1;
        i += 1;
    }
    Taken { n, count, at: i }
}

fn before_point(p: Place) -> bool
    ensures { result ≡ before_point p }
{
    matches!(p, Place::AtSign | Place::InWhole)
}

fn behind_point(p: Place) -> bool
    ensures { result ≡ behind_point p }
{
    matches!(p, Place::AtPoint | Place::InFraction)
}

fn has_point(text: &[u8], at: usize) -> bool
    ensures { result ≡ has_point text.now at }
{
    at < text.len() && text[at] == 46
}

// The digits behind the point.
fn fraction_on(text: &[u8], i: usize, s: State) -> Stand
    requires { Sound s × (i ≤ length text.now) × (behind_point s.place ≡ true) }
    ensures { Onward text.now s i result.state result.at }
{
    let m = s.num;
    let taken = digits(text, i, m.n, m.behind);
    let at = taken.at;
    if at == i {
        return Stand { state: s, at: i };
    }
    let num = Num {
        n: taken.n,
        behind: taken.count,
        ..m
    };
    Stand {
        state: State {
            place: Place::InFraction,
            num,
            ..s
        },
        at,
    }
}

// The digits before the point, the point and the digits behind it.
fn whole_on(text: &[u8], i: usize, s: State) -> Stand
    requires { Sound s × (i ≤ length text.now) × (before_point s.place ≡ true) }
    ensures { Onward text.now s i result.state result.at }
{
    let m = s.num;
    let taken = digits(text, i, m.n, m.before);
    let at = taken.at;
    let num = Num {
        n: taken.n,
        before: taken.count,
        ..m
    };
    if has_point(text, at) {
        let point = State {
            place: Place::AtPoint,
            num,
            ..s
        };
        return fraction_on(text, at + 1, point);
    }
    if at == i {
        return Stand { state: s, at: i };
    }
    Stand {
        state: State {
            place: Place::InWhole,
            num,
            ..s
        },
        at,
    }
}

// On through the number that is being read, where one is.
pub(crate) fn number_on(text: &[u8], i: usize, s: State) -> Stand
    requires { Sound s × (i ≤ length text.now) }
    ensures { Onward text.now s i result.state result.at }
{
    let p = s.place;
    if before_point(p) {
        return whole_on(text, i, s);
    }
    if behind_point(p) {
        return fraction_on(text, i, s);
    }
    Stand { state: s, at: i }
}
