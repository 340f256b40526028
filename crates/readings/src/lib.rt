// What a site of a new board reads after any list of calls, in plain totals.
#![tactic(auto)]

mod after;
mod reported;
#[cfg(test)]
mod tests;
mod totals;

pub use after::read_after;
pub use reported::reported_after;
pub use totals::{PlainTotals, count_after, sum_after, total_after};
