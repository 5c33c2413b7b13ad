// Draws fills: moves, lines, quads, cubics and ends become tag bytes and f32 point words in lent buffers.
#![tactic(auto)]

pub mod commands;
pub mod pen;
