// The pen, which goes into each command; one that is accepted gives it back moved on.
ghost use Rattle.std.specs.Prelude.{◌≡◌, Err};
ghost use Rattle.pattern.specs.Commands.{number_of};

// A point: the words of its x and its y, each an f32.
#[derive(Clone, Copy)]
pub struct Spot {
    pub x: u32,
    pub y: u32,
}

#[derive(Clone, Copy)]
pub enum Open {
    // No move since the start or the last end.
    Nothing,
    // A move, and no segment behind it: nothing of the subpath is written yet.
    Moved,
    // A subpath of which at least one segment is written.
    Drawing,
}

// What is open, where it began and where it stands.
#[derive(Clone, Copy)]
pub struct Place {
    pub opened: Open,
    pub first: Spot,
    pub last: Spot,
}

// The place, and how many tag bytes and point words are written.
#[derive(Clone, Copy)]
pub struct Pen {
    pub place: Place,
    pub tags: u64,
    pub points: u64,
}

// Why a command is refused.
#[derive(Clone, Copy, Debug, PartialEq, Eq)]
pub enum Fault {
    // A line, quad or cubic with no move since the start or the last end.
    NoMove,
    // No room for the tag and the points that this command itself writes.
    NoRoom,
    // A coordinate that is a NaN or an infinity.
    NotFinite,
}

impl Fault {
    // As C is told it, where 0 is an accepted command. No other place assigns these numbers.
    #[tactic(auto, unfolding(crate::specs::Commands::number_of))]
    pub fn number(self) -> u32
        ensures { result ≡ number_of (Err self) }
    {
        match self {
            Fault::NoMove => 20,
            Fault::NoRoom => 21,
            Fault::NotFinite => 22,
        }
    }
}
