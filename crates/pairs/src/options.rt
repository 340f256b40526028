// The options of a pair's two halves, left first. A type of the source.
#[derive(Clone, Copy, PartialEq, Eq, Debug)]
pub struct PairOptions<L, R>(pub L, pub R);
