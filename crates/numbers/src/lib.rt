// The number types of the language, in three families.
#![tactic(auto)]

mod native;

pub use native::{FloatPType, NativePType, SignedPType, UnsignedPType};
