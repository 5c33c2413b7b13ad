// A test of a scene before it is flattened: whether it keeps to the profile for lay-up sheets.
#![tactic(auto)]

pub mod rules;
pub mod sheet;
mod trail;
