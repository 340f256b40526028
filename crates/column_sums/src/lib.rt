// The sum of a column, what it says of the column's exact total, and the number of valid entries.
#![tactic(auto)]

mod add;
mod count;
mod laws;
#[cfg(test)]
mod tests;

pub use add::add_column;
pub use count::count_column;
pub use laws::records_are_told_apart;
