// Columns by their meaning: validity bitmaps, stretches, and the kinds of columns.
#![tactic(auto)]

mod bitmap;
mod column;
mod constant;
mod primitive;
mod stretches;
#[cfg(test)]
mod tests;
mod two_kinds;
mod values;

pub use bitmap::{Stretch, is_valid, next_stretch};
pub use column::Column;
pub use constant::Constant;
pub use either::Either;
pub use primitive::Primitive;
pub use stretches::Stretches;
pub use values::Values;
