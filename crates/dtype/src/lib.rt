// Number types, dtypes, values, scalars, statistics records and refusals.
#![tactic(auto)]

mod names;
mod precision;
mod ptype;
mod refusal;
mod scalar;
mod statistics;
mod value;

pub use names::UnknownType;
pub use precision::Precision;
pub use ptype::{DType, Family, PType};
pub use refusal::Refusal;
pub use scalar::Scalar;
pub use statistics::Statistics;
pub use value::Value;
