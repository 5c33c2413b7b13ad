// Why a call is refused, and the number of each refusal. No other place assigns numbers.
#![tactic(auto)]

ghost use Rattle.std.specs.Prelude.{◌≡◌};
ghost use Rattle.refusals.specs.Refusals.{number_of, end_of};

// An end of a line, as the line is written.
#[derive(Clone, Copy)]
pub enum LineEnd {
    Start,
    End,
}

#[derive(Clone, Copy)]
pub enum Refusal {
    // The tag base or the data base lies past the scene's end.
    BadBase,
    // A read falls outside the scene, or an address passes 2^32 - 1.
    Outside,
    // A needed tag prefix is missing.
    NoPrefix,
    // A path tag names a box that is not there.
    NoBox,
    // A line has a NaN coordinate: at its start, or else at its end.
    NotNumber(LineEnd),
    // The next line has no room.
    NoRoom,
    // The join bits are 3 and a join is drawn.
    NoJoin,
    // A subdivision count is NaN.
    NoCount,
    // A transform has a NaN or an infinity among its six numbers.
    BadTransform,
}

impl Refusal {
    #[tactic(auto, unfolding(crate::specs::Refusals::number_of))]
    pub fn number(self) -> u32
        ensures { result ≡ number_of self }
    {
        match self {
            Refusal::BadBase => 1,
            Refusal::Outside => 2,
            Refusal::NoPrefix => 3,
            Refusal::NoBox => 4,
            Refusal::NotNumber(_) => 5,
            Refusal::NoRoom => 6,
            Refusal::NoJoin => 7,
            Refusal::NoCount => 8,
            Refusal::BadTransform => 9,
        }
    }

    // Of number 5, the line's end that is no number: 1 the start, 2 the end. 0 of any other.
    #[tactic(auto, unfolding(crate::specs::Refusals::end_of))]
    pub fn end(self) -> u32
        ensures { result ≡ end_of self }
    {
        match self {
            Refusal::NotNumber(LineEnd::Start) => 1,
            Refusal::NotNumber(LineEnd::End) => 2,
            _ => 0,
        }
    }
}
