// Pairs of aggregates.
#![tactic(auto)]

mod answers;
mod combined;
mod options;
mod reported;
#[cfg(test)]
mod tests;

pub use answers::{BothAnswers, SumIfCounted};
pub use combined::{CombineAnswers, Combined};
pub use options::PairOptions;
pub use reported::{Both, Reported};
