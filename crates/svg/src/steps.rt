// What each byte of path data does: the table of specs/Machine.antt, by the place that the text has come to.

ghost use Rattle.std.specs.Prelude.{◌≡◌, ◌≤◌, ◌<◌, ℕ, ◌+◌, ◌*◌, ◌^◌};
ghost use Rattle.svg.specs.Language.{pick, symbol_of, mark_of, letter_of, white_byte, digit_byte, next, arity};
ghost use Rattle.svg.specs.Meaning.{word_of};
ghost use Rattle.svg.specs.Import.{fault_number};
ghost use Rattle.svg.specs.declared.steps.Fault.TheVariants.{NotInLanguage};
ghost use Rattle.svg.specs.declared.steps.Place.TheVariants.{AtLetter, AtClose};
ghost use Rattle.svg.specs.declared.steps.Step.TheVariants.{Go, Lettered, Shut};
ghost use Rattle.svg.specs.Machine.{number_of, Held, st, digit_of, num, unless_tenth, whole_digit, fraction_digit, move, moved, ended, finished, is_white, opens_of, whole_ends, fraction_ends, in_number, last, Accepted, Refused, opening, off};

use crate::decimal::decimal;

// The letters that numbers follow.
#[derive(Clone, Copy)]
pub enum Kind {
    Move,
    Line,
    Quad,
    Cubic,
}

// What a byte is to the language.
#[derive(Clone, Copy)]
pub enum Symbol {
    White,
    Comma,
    Sign(bool),
    Dot,
    Digit(u64),
    Letter(Kind),
    Close,
    Other,
}

// The places of the grammar: before the first command; behind a letter; behind a sign; in the digits before the point; behind the point; in the digits
// behind it; behind a number; behind a comma; behind Z.
#[derive(Clone, Copy)]
pub enum Place {
    AtStart,
    AtLetter,
    AtSign,
    InWhole,
    AtPoint,
    InFraction,
    AtGap,
    AtComma,
    AtClose,
}

// The number that is being read: its sign, its digits as a whole number, how many stand before and behind the point, and its first byte.
#[derive(Clone, Copy)]
pub struct Num {
    pub negative: bool,
    pub n: u64,
    pub before: u64,
    pub behind: u64,
    pub from: usize,
}

// Where the reader stands: in a command of that kind, of whose next group so many numbers are read.
#[derive(Clone, Copy)]
pub struct State {
    pub place: Place,
    pub kind: Kind,
    pub have: u64,
    pub num: Num,
}

// What is wrong with a text.
#[derive(Clone, Copy, Debug, PartialEq, Eq)]
pub enum Fault {
    // No text of the language goes on so.
    NotInLanguage,
    // A number with ten digits before the point, or behind it.
    TooLong,
}

impl Fault {
    #[tactic(auto, unfolding(crate::specs::Import::fault_number))]
    pub fn number(self) -> u32
        ensures { result ≡ fault_number self }
    {
        match self {
            Fault::NotInLanguage => 60,
            Fault::TooLong => 61,
        }
    }
}

// What a byte does: the state behind it, and the item that it finishes; or the refusal and its byte. Of the table's answers that
// is one in five: by a Result all others would stand in an `Ok`, `Ok(Step::Go(..))`, for the `?` of the one call.
#[derive(Clone, Copy)]
pub enum Step {
    Go(State),
    Lettered(State),
    Shut(State),
    Bad(Fault, usize),
}

pub(crate) fn digit_byte(b: u8) -> bool
    ensures { result ≡ digit_byte b }
{
    matches!(b, 48..=57)
}

fn white_byte(b: u8) -> bool
    ensures { result ≡ white_byte b }
{
    matches!(b, 32 | 9 | 10 | 12 | 13)
}

#[tactic(auto, unfolding(crate::specs::Language::letter_of))]
fn letter(b: u8) -> Symbol
    ensures { result ≡ letter_of b }
{
    match b {
        77 => Symbol::Letter(Kind::Move),
        76 => Symbol::Letter(Kind::Line),
        81 => Symbol::Letter(Kind::Quad),
        67 => Symbol::Letter(Kind::Cubic),
        90 => Symbol::Close,
        _ => Symbol::Other,
    }
}

#[tactic(auto, unfolding(crate::specs::Language::mark_of))]
fn mark(b: u8) -> Symbol
    ensures { result ≡ mark_of b }
{
    match b {
        44 => Symbol::Comma,
        43 => Symbol::Sign(false),
        45 => Symbol::Sign(true),
        46 => Symbol::Dot,
        _ => letter(b),
    }
}

// What a byte is to the language.
#[tactic(auto, unfolding(crate::specs::Language::symbol_of))]
pub(crate) fn symbol_at(b: u8) -> Symbol
    ensures { result ≡ symbol_of b }
{
    if digit_byte(b) {
        return Symbol::Digit((b - 48) as u64);
    }
    if white_byte(b) {
        return Symbol::White;
    }
    mark(b)
}

// A digit more, and behind it that place. It is counted in m and not read yet; so many digits stand before it on its side of the
// point. The tenth is refused at the number's first byte.
fn one_more(s: State, place: Place, m: Num, count: u64, d: u64) -> Step
    requires { (m.n < 10 ^ 18) × (d ≤ 9) }
    ensures { result ≡ unless_tenth count (st place s.kind s.have (num m.negative (m.n * 10 + d) m.before m.behind m.from)) }
{
    if count < 9 {
        let num = Num {
            n: m.n * 10 + d,
            ..m
        };
        return Step::Go(State { place, num, ..s });
    }
    Step::Bad(Fault::TooLong, m.from)
}

// A digit before the point, and behind it: each counts in its own field and names its own place, which is all that they have apart.
#[tactic(auto, using(crate::proofs::Reading::held_room))]
fn whole_digit(s: State, d: u64) -> Step
    requires { Held s.num × (d ≤ 9) }
    ensures { result ≡ whole_digit s.kind s.have s.num d }
{
    let mut m = s.num;
    m.before += 1;
    one_more(s, Place::InWhole, m, s.num.before, d)
}

// A digit behind the point.
#[tactic(auto, using(crate::proofs::Reading::held_room))]
fn fraction_digit(s: State, d: u64) -> Step
    requires { Held s.num × (d ≤ 9) }
    ensures { result ≡ fraction_digit s.kind s.have s.num d }
{
    let mut m = s.num;
    m.behind += 1;
    one_more(s, Place::InFraction, m, s.num.behind, d)
}

// A state, a byte's place and its symbol, as the specs' `move` has them: in one struct each arm would take the three apart.
// Where a number is to begin, and nothing else may stand.
fn opens(s: State, i: usize, y: Symbol) -> Step
    requires { digit_of y ≤ 9 }
    ensures { result ≡ opens_of s.kind s.have i y }
{
    let num = Num {
        negative: false,
        n: 0,
        before: 0,
        behind: 0,
        from: i,
    };
    match y {
        Symbol::Sign(negative) => Step::Go(State {
            place: Place::AtSign,
            num: Num { negative, ..num },
            ..s
        }),
        Symbol::Dot => Step::Go(State {
            place: Place::AtPoint,
            num,
            ..s
        }),
        Symbol::Digit(d) => whole_digit(State { num, ..s }, d),
        _ => Step::Bad(Fault::NotInLanguage, i),
    }
}

fn is_white(y: Symbol) -> bool
    ensures { result ≡ is_white y }
{
    matches!(y, Symbol::White)
}

// Behind a letter, and behind a comma: white space, which changes nothing, or a number.
fn at_opening(s: State, i: usize, y: Symbol) -> Step
    requires { digit_of y ≤ 9 }
    ensures { result ≡ opening s.kind s.have i (Go s) (off i) (λ l. off i) (off i) y }
{
    if is_white(y) {
        return Step::Go(s);
    }
    opens(s, i, y)
}

// A letter begins the numbers of its kind.
fn lettered(s: State, kind: Kind) -> Step
    ensures { result ≡ Lettered (st AtLetter kind 0 s.num) }
{
    Step::Lettered(State {
        place: Place::AtLetter,
        kind,
        have: 0,
        ..s
    })
}

fn shut(s: State) -> Step
    ensures { result ≡ Shut (st AtClose s.kind 0 s.num) }
{
    Step::Shut(State {
        place: Place::AtClose,
        have: 0,
        ..s
    })
}

// Behind a number, where a letter and Z may stand where the group is full.
fn at_gap(s: State, i: usize, y: Symbol) -> Step
    requires { digit_of y ≤ 9 }
    ensures { result ≡ move Place.AtGap s.kind s.have s.num i y }
{
    match y {
        Symbol::White => Step::Go(State {
            place: Place::AtGap,
            ..s
        }),
        Symbol::Comma => Step::Go(State {
            place: Place::AtComma,
            ..s
        }),
        Symbol::Letter(kind) if s.have == 0 => lettered(s, kind),
        Symbol::Close if s.have == 0 => shut(s),
        _ => opens(s, i, y),
    }
}

// The first letter is M.
fn at_start(s: State, i: usize, y: Symbol) -> Step
    ensures { result ≡ move Place.AtStart s.kind s.have s.num i y }
{
    match y {
        Symbol::White => Step::Go(State {
            place: Place::AtStart,
            ..s
        }),
        Symbol::Letter(Kind::Move) => lettered(s, Kind::Move),
        _ => Step::Bad(Fault::NotInLanguage, i),
    }
}

fn at_close(s: State, i: usize, y: Symbol) -> Step
    ensures { result ≡ move Place.AtClose s.kind s.have s.num i y }
{
    match y {
        Symbol::White => Step::Go(State {
            place: Place::AtClose,
            ..s
        }),
        Symbol::Letter(kind) => lettered(s, kind),
        Symbol::Close => shut(s),
        _ => Step::Bad(Fault::NotInLanguage, i),
    }
}

// Behind a sign, and in the digits before the point.
fn in_whole(s: State, i: usize, y: Symbol) -> Step
    requires { Held s.num × (digit_of y ≤ 9) }
    ensures { result ≡ move Place.InWhole s.kind s.have s.num i y }
{
    match y {
        Symbol::Dot => Step::Go(State {
            place: Place::AtPoint,
            ..s
        }),
        Symbol::Digit(d) => whole_digit(s, d),
        _ => Step::Bad(Fault::NotInLanguage, i),
    }
}

// Behind the point, and in the digits behind it.
fn in_fraction(s: State, i: usize, y: Symbol) -> Step
    requires { Held s.num × (digit_of y ≤ 9) }
    ensures { result ≡ move Place.InFraction s.kind s.have s.num i y }
{
    match y {
        Symbol::Digit(d) => fraction_digit(s, d),
        _ => Step::Bad(Fault::NotInLanguage, i),
    }
}

// The table: one symbol at a place.
pub(crate) fn step_at(s: State, i: usize, y: Symbol) -> Step
    requires { Held s.num × (digit_of y ≤ 9) }
    ensures { result ≡ moved s i y }
{
    match s.place {
        Place::AtStart => at_start(s, i, y),
        Place::AtLetter | Place::AtComma => at_opening(s, i, y),
        Place::AtSign | Place::InWhole => in_whole(s, i, y),
        Place::AtPoint | Place::InFraction => in_fraction(s, i, y),
        Place::AtGap => at_gap(s, i, y),
        Place::AtClose => at_close(s, i, y),
    }
}

// A number in the digits before the point ends at all but a digit and a point.
fn whole_ended(y: Symbol) -> bool
    ensures { result ≡ whole_ends y }
{
    !matches!(y, Symbol::Dot | Symbol::Digit(_))
}

fn fraction_ended(y: Symbol) -> bool
    ensures { result ≡ fraction_ends y }
{
    !matches!(y, Symbol::Digit(_))
}

pub(crate) fn number_ended(p: Place, y: Symbol) -> bool
    ensures { result ≡ ended p y }
{
    match p {
        Place::InWhole => whole_ended(y),
        Place::InFraction => fraction_ended(y),
        _ => false,
    }
}

// How many numbers a command takes.
pub(crate) fn group(k: Kind) -> u64
    ensures { result ≡ arity k }
{
    match k {
        Kind::Move | Kind::Line => 2,
        Kind::Quad => 4,
        Kind::Cubic => 6,
    }
}

fn next_have(k: Kind, h: u64) -> u64
    requires { h < 6 }
    ensures { result ≡ next k h }
{
    if h + 1 == group(k) { 0 } else { h + 1 }
}

// The state behind a number.
pub(crate) fn finish(s: State) -> State
    requires { s.have < 6 }
    ensures { result ≡ finished s }
{
    State {
        place: Place::AtGap,
        have: next_have(s.kind, s.have),
        ..s
    }
}

pub(crate) fn number_word(m: Num) -> u32
    ensures { result ≡ word_of (number_of m) }
{
    decimal(m.negative, m.n, m.behind)
}

pub(crate) fn in_number(p: Place) -> bool
    ensures { result ≡ in_number p }
{
    matches!(p, Place::InWhole | Place::InFraction)
}

// Whether a text may end there, where so many numbers of a group are read.
pub(crate) fn may_end(p: Place, h: u64) -> bool
    ensures { (i : ℕ) → last p h i ≡ pick result Accepted (Refused NotInLanguage i) }
{
    match p {
        Place::AtStart | Place::AtClose => true,
        Place::AtGap => h == 0,
        _ => false,
    }
}
