// From encoded tags to lines and boxes: one tag, the box it changes, and the call over all tags.
#![tactic(auto)]

pub mod boxes;
pub mod call;
mod step;
pub mod tag;
