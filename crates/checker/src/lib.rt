// A check of a list of line records. See specs/Verdict.antt.
#![tactic(auto)]

ghost use Rattle.std.specs.Prelude.{◌≡◌};
ghost use Rattle.records.specs.Record.{count, bad_at};
ghost use Rattle.checker.specs.Verdict.{uneven_at, Answers, number_of, verdict_told, told_of};
ghost use Rattle.checker.specs.Search.{Finds};

use records::{bad_at, count_both, keys_at, word_at};

// A record is told by its number, from 0.
#[derive(Clone, Copy)]
pub enum Verdict {
    Sound,
    BadNumber(usize),
    Unbalanced(usize),
}

// Why a list is not looked at.
#[derive(Clone, Copy)]
pub enum CheckError {
    TooMany,
    Leftover,
}

impl CheckError {
    pub fn number(self) -> u32
        ensures { result ≡ number_of self }
    {
        match self {
            CheckError::TooMany => 50,
            CheckError::Leftover => 51,
        }
    }
}

// The verdict in the numbers that C is told: 0 or the refusal's; then what is wrong, and in which record.
#[derive(Clone, Copy)]
pub struct Told {
    pub number: u32,
    pub verdict: u32,
    pub record: usize,
}

impl From<Result<Verdict, CheckError>> for Told {
    ghost from_gives = { λ a t. t ≡ told_of a };

    #[tactic(auto, unfolding(crate::specs::Verdict::told_of))]
    fn from(answer: Result<Verdict, CheckError>) -> Told
        ensures { result ≡ told_of answer }
    {
        match answer {
            Ok(v) => v.told(),
            Err(e) => Told {
                number: e.number(),
                verdict: 0,
                record: 0,
            },
        }
    }
}

impl Verdict {
    fn told(self) -> Told
        ensures { result ≡ verdict_told self }
    {
        match self {
            Verdict::Sound => Told {
                number: 0,
                verdict: 0,
                record: 0,
            },
            Verdict::BadNumber(k) => Told {
                number: 0,
                verdict: 1,
                record: k,
            },
            Verdict::Unbalanced(k) => Told {
                number: 0,
                verdict: 2,
                record: k,
            },
        }
    }
}

// Whether the start or the end of record k is out of balance.
fn uneven_at(list: &[u32], k: usize) -> bool
    ensures { result ≡ uneven_at list.now k }
{
    let path = word_at(list, k, 0);
    let c = count_both(list, path, keys_at(list, k));
    !((c.starts0 == c.ends0) & (c.starts1 == c.ends1))
}

// One function over both tests would be `find` itself, and would promise what its caller brings.
fn first_bad(list: &[u32], n: usize) -> Option<usize>
    ensures { Finds (bad_at list.now) n result }
{
    (0..n).find(|k| bad_at(list, *k))
}

fn first_uneven(list: &[u32], n: usize) -> Option<usize>
    ensures { Finds (uneven_at list.now) n result }
{
    (0..n).find(|k| uneven_at(list, *k))
}

pub fn check(list: &[u32]) -> Result<Verdict, CheckError>
    ensures { Answers list.now result }
{
    let n = list.len() / 6;
    if 2000 < n {
        return Err(CheckError::TooMany);
    }
    if list.len() % 6 != 0 {
        return Err(CheckError::Leftover);
    }
    if let Some(k) = first_bad(list, n) {
        return Ok(Verdict::BadNumber(k));
    }
    if let Some(k) = first_uneven(list, n) {
        return Ok(Verdict::Unbalanced(k));
    }
    Ok(Verdict::Sound)
}
