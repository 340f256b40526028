use crate::answers::{BothAnswers, SumIfCounted};
use crate::combined::Combined;
use aggregates::{Count, Sum};

// A sum beside a count: the sum, and null where nothing was counted.
pub type Reported = Combined<Sum, Count, SumIfCounted>;

// The answers of two aggregates, left first.
pub type Both<L, R> = Combined<L, R, BothAnswers>;
