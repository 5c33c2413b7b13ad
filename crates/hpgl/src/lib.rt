// HP-GL: the lines of one path as cuts for the knife table, and the reader of such files.
#![tactic(auto)]

ghost use Rattle.std.specs.Prelude.{◌≡◌};
ghost use Rattle.hpgl.specs.Answers.{report};

pub mod export;
mod lines;
pub mod looking;
mod range;
pub mod reading;
mod rounding;
mod sink;
mod text;

// Which knife table: the old one takes -32767 to 32767, the new one -8388608 to 8388607.
#[derive(Clone, Copy)]
pub enum Table {
    Old,
    New,
}

// A point in plotter units.
#[derive(Clone, Copy)]
pub struct Point {
    pub x: i32,
    pub y: i32,
}

// An answer in the numbers that C is told: 0 or the refusal's, how many bytes or lines stand, and the record or the position of a refusal.
#[derive(Clone, Copy)]
pub struct Report {
    pub number: u32,
    pub stands: usize,
    pub at: usize,
}

impl Report {
    fn new(number: u32, stands: usize, at: usize) -> Report
        ensures { result ≡ report number stands at }
    {
        Report { number, stands, at }
    }
}
