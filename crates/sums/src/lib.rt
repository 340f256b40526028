// Checked sums of slices, and the state of a running sum.
#![tactic(auto)]

mod checked;
mod chunk;
mod float;
mod signed;
mod state;
mod unsigned;

pub use checked::{checked_add_i64, checked_add_u64, checked_mul_i64, checked_mul_u64};
pub use float::sum_float_all;
pub use signed::sum_signed_all;
pub use state::{SumState, float_from_bits, float_to_bits};
pub use unsigned::sum_unsigned_all;
