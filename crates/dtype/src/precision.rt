// How far a statistic is known, in the cases of the source: to the end, in part, or not at all.
#[derive(Clone, Copy, PartialEq, Eq, Debug)]
pub enum Precision<T> {
    Exact(T),
    Inexact(T),
    Absent,
}
