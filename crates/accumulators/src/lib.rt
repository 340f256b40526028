// Accumulators, each a running partial of any aggregate, and the board, a row of them.
#![tactic(auto)]

mod accumulator;
mod board;
mod sites;

pub use accumulator::Accumulator;
pub use board::{Board, check_size};
