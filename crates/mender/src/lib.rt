// Mending a list of line records: what is appended, and what is said of each path. See specs/Mend.antt and specs/Report.antt.
#![tactic(auto)]

pub mod cases;
pub mod list;
pub mod near;
