ghost use Rattle.std.specs.Prelude.{◌≡◌};
ghost use Rattle.pairs.specs.Answers.{sum_if_counted};

use crate::combined::CombineAnswers;
use dtype::{Scalar, Value};

// The answers of both halves, left first.
pub struct BothAnswers;

impl<L: Drop, R: Drop> CombineAnswers<L, R> for BothAnswers {
    type Answer = (L, R);

    ghost answers = { λ left right. (left, right) };

    fn combine(left: L, right: R) -> (L, R) {
        (left, right)
    }
}

// The sum on the left, and null where the count on the right reads 0.
pub struct SumIfCounted;

impl CombineAnswers<Scalar, Scalar> for SumIfCounted {
    type Answer = Scalar;

    ghost answers = { sum_if_counted };

    fn combine(sum: Scalar, count: Scalar) -> Scalar {
        match count.value() {
            Some(Value::U64(0)) => Scalar::null(sum.dtype().ptype),
            _ => sum,
        }
    }
}
