// Path data of SVG: the absolute M, L, Q, C and Z, drawn with the commands of `pattern`.
#![tactic(auto)]

pub mod decimal;
pub mod hand;
pub mod reader;
pub mod steps;
pub mod stretch;
