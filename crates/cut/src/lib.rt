// The whole way: from the text of a pattern to the knife table's file, in lent buffers.
#![tactic(auto)]

ghost use Rattle.std.specs.Prelude.{◌≡◌};
ghost use Rattle.cut.specs.Stages.{stage_of, refusal, report_of};

pub mod sheet;
pub mod way;

// The stages of a call, in order.
#[derive(Clone, Copy)]
pub enum Stage {
    Text,
    Sheet,
    Scan,
    Profile,
    Flatten,
    Export,
}

// Why a call is refused: the stage, the number of its refusal, and the place in that stage's own terms. By number and not by the
// stage's own error: so `cut_of` and with it `whole-way` tell a refusal, for C too.
#[derive(Clone, Copy)]
pub struct Refused {
    pub stage: Stage,
    pub number: u32,
    pub at: u64,
}

// An answer in the numbers that C is told: 0 or the refusal's, its stage and place, and how many bytes the file has.
#[derive(Clone, Copy)]
pub struct Report {
    pub number: u32,
    pub stage: u32,
    pub at: u64,
    pub bytes: usize,
}

impl Stage {
    // No other place assigns these numbers.
    #[tactic(auto, unfolding(crate::specs::Stages::stage_of))]
    pub fn number(self) -> u32
        ensures { result ≡ stage_of self }
    {
        match self {
            Stage::Text => 1,
            Stage::Sheet => 2,
            Stage::Scan => 3,
            Stage::Profile => 4,
            Stage::Flatten => 5,
            Stage::Export => 6,
        }
    }

    pub(crate) fn refused(self, number: u32, at: u64) -> Refused
        ensures { result ≡ refusal self number at }
    {
        Refused {
            stage: self,
            number,
            at,
        }
    }
}

// Of so many bytes, or of a refusal.
impl From<Result<usize, Refused>> for Report {
    ghost from_gives = { λ a t. t ≡ report_of a };

    #[tactic(auto, unfolding(crate::specs::Stages::report_of))]
    fn from(answer: Result<usize, Refused>) -> Report
        ensures { result ≡ report_of answer }
    {
        match answer {
            Ok(bytes) => Report {
                number: 0,
                stage: 0,
                at: 0,
                bytes,
            },
            Err(refused) => Report {
                number: refused.number,
                stage: refused.stage.number(),
                at: refused.at,
                bytes: 0,
            },
        }
    }
}
