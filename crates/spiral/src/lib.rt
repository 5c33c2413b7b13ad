// Points, transforms and the Euler spiral: the parts of util.rs and euler.rs that flattening uses.
#![tactic(auto)]

pub mod euler;
pub mod util;
