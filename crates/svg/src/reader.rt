// The reader of path data: it walks the table over the bytes of a text and draws each command when its last number is read.

ghost use Rattle.std.specs.Prelude.{◌≡◌, ◌≤◌, ◌<◌, Err};
ghost use Rattle.svg.specs.Language.{symbol_of};
ghost use Rattle.svg.specs.Machine.{digit_of};
ghost use Rattle.svg.specs.Import.{told, import_of, report_of};
ghost use Rattle.svg.specs.Walk.{left, drawn_at, number_by, act_by, step_by, one_by, ended_by, over_by, last_by, Sound, beginning};

use crate::hand::{Hand, Six, close, command, group_done, letter_in, number_in, shut_in};
use crate::steps::{
    Fault, Kind, Num, Place, State, Step, Symbol, finish, group, in_number, may_end, number_ended,
    number_word, step_at, symbol_at,
};
use crate::stretch::number_on;
use pattern::pen;
use pattern::pen::{Pen, Spot};

// Why a text is refused, and the byte.
#[derive(Clone, Copy, Debug, PartialEq, Eq)]
pub enum Refusal {
    // The language's refusal.
    Faulty(Fault, usize),
    // `pattern`'s refusal of a command, which was over at the byte.
    Undrawn(pen::Fault, usize),
}

// The number of a refusal, and its byte.
#[derive(Clone, Copy)]
pub struct Report {
    pub number: u32,
    pub at: usize,
}

// The reader on its way.
#[derive(Clone, Copy)]
pub struct Walk {
    pub state: State,
    pub hand: Hand,
}

// What `pattern` answered to a command that is over at the byte i.
fn drawn_at(answer: Result<(), pen::Fault>, i: usize) -> Result<(), Refusal>
    ensures { result ≡ drawn_at answer i }
{
    answer.map_err(|fault| Refusal::Undrawn(fault, i))
}

// A number is over at the byte i; where it fills its group, the command is drawn.
fn number_over(
    w: Walk,
    i: usize,
    pen: &mut Pen,
    tags: &mut [u8],
    points: &mut [u32],
) -> Result<Walk, Refusal>
    requires { Sound w }
    ensures { left result pen.new tags.new points.new ≡ number_by w i pen.old tags.old points.old }
{
    let hand = number_in(w.hand, number_word(w.state.num));
    let state = finish(w.state);
    if hand.have != group(hand.kind) {
        return Ok(Walk { state, hand });
    }
    drawn_at(command(hand, pen, tags, points), i)?;
    Ok(Walk {
        state,
        hand: group_done(hand),
    })
}

// What a step does to the drawing.
fn act(
    hand: Hand,
    i: usize,
    y: Step,
    pen: &mut Pen,
    tags: &mut [u8],
    points: &mut [u32],
) -> Result<Walk, Refusal>
    ensures { left result pen.new tags.new points.new ≡ act_by hand pen.old i y tags.old points.old }
{
    match y {
        Step::Go(state) => Ok(Walk { state, hand }),
        Step::Lettered(state) => Ok(Walk {
            state,
            hand: letter_in(hand, state.kind),
        }),
        Step::Shut(state) => {
            drawn_at(close(pen, tags, points), i)?;
            Ok(Walk {
                state,
                hand: shut_in(hand),
            })
        }
        Step::Bad(fault, at) => Err(Refusal::Faulty(fault, at)),
    }
}

// The end of the text behind its last number: it is an end.
fn text_over(
    w: Walk,
    i: usize,
    pen: &mut Pen,
    tags: &mut [u8],
    points: &mut [u32],
) -> Result<(), Refusal>
    ensures { told result pen.new tags.new points.new ≡ over_by w i pen.old tags.old points.old }
{
    if !may_end(w.state.place, w.state.have) {
        return Err(Refusal::Faulty(Fault::NotInLanguage, i));
    }
    drawn_at(close(pen, tags, points), i)
}

// The end of the text; a number that stands there is dealt with first.
fn last(
    w: Walk,
    i: usize,
    pen: &mut Pen,
    tags: &mut [u8],
    points: &mut [u32],
) -> Result<(), Refusal>
    requires { Sound w }
    ensures { told result pen.new tags.new points.new ≡ last_by w i pen.old tags.old points.old }
{
    if !in_number(w.state.place) {
        return text_over(w, i, pen, tags, points);
    }
    let v = number_over(w, i, pen, tags, points)?;
    text_over(v, i, pen, tags, points)
}

fn begin() -> Walk
    ensures { result ≡ beginning }
{
    Walk {
        state: State {
            place: Place::AtStart,
            kind: Kind::Move,
            have: 0,
            num: Num {
                negative: false,
                n: 0,
                before: 0,
                behind: 0,
                from: 0,
            },
        },
        hand: Hand {
            kind: Kind::Move,
            have: 0,
            six: Six {
                a: 0,
                b: 0,
                c: 0,
                d: 0,
                e: 0,
                f: 0,
            },
            home: Spot { x: 0, y: 0 },
            shut: false,
        },
    }
}

// Draws a text behind what the pen has drawn; after a refusal the pen and what is lent stand as the commands before it left them.
// A byte that ends a number is looked at again, behind the number; most bytes change the state alone, and those that go on a number
// are read at a stretch: so the place goes on by none, by one or by many bytes, and no `for` counts it.
pub fn read(text: &[u8], pen: &mut Pen, tags: &mut [u8], points: &mut [u32]) -> Result<(), Refusal>
    ensures { told result pen.new tags.new points.new ≡ import_of text.now pen.old tags.old points.old }
{
    let mut w = begin();
    let mut i: usize = 0;
    while i < text.len() {
        let y = symbol_at(text[i]);
        let state = w.state;
        if number_ended(state.place, y) {
            w = number_over(w, i, pen, tags, points)?;
            continue;
        }
        let taken = step_at(state, i, y);
        if let Step::Go(s) = taken {
            let stand = number_on(text, i + 1, s);
            w.state = stand.state;
            i = stand.at;
            continue;
        }
        w = act(w.hand, i, taken, pen, tags, points)?;
        i += 1;
    }
    last(w, i, pen, tags, points)
}

// As C is told it, where an accepted text is 0 and 0.
impl From<Result<(), Refusal>> for Report {
    ghost from_gives = { λ a t. t ≡ report_of a };

    #[tactic(auto, unfolding(crate::specs::Import::report_of))]
    fn from(answer: Result<(), Refusal>) -> Report
        ensures { result ≡ report_of answer }
    {
        let (number, at) = match answer {
            Ok(()) => (0, 0),
            Err(Refusal::Faulty(fault, at)) => (fault.number(), at),
            Err(Refusal::Undrawn(fault, at)) => (fault.number(), at),
        };
        Report { number, at }
    }
}
