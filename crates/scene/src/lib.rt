// What a scene holds: its tags with their running sums, and the points, transforms and styles that the tags name.
#![tactic(auto)]

pub mod reading;
pub mod tags;
pub mod words;
