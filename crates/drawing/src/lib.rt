// What the source draws: lines, arcs, caps and joins, stored in the lent words.
#![tactic(auto)]

pub mod arc;
pub mod cap;
pub mod cubic;
pub mod join;
pub mod line;
