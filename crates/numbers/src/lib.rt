// What f32 offers beside its arithmetic: words and signs, selections, whole numbers.
#![tactic(auto)]

pub mod select;
pub mod whole;
pub mod words;
