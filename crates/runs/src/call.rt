use dtype::Refusal;

// A call on a board. Columns are of any kind C, and partial scalars of the aggregate's type S. A record stands in a table
// and is named by its place there, since several calls may hand in one record; a place past the table's end hands in a
// record that says nothing. A list of calls is a value that the law speaks of, so it is not a list of closures.
#[derive(Drop)]
pub enum Call<C, S> {
    Accumulate {
        site: usize,
        column: C,
        record: usize,
    },
    Combine {
        site: usize,
        scalar: S,
    },
    Merge {
        into: usize,
        from: usize,
    },
    Flush {
        site: usize,
    },
    Finish {
        site: usize,
    },
    Reset {
        site: usize,
    },
}

// What an accepted call answers: a flush its partial scalar, a finish its final answer, any other nothing more.
#[derive(Drop)]
pub enum Outcome<S, A> {
    Done,
    Flushed(S),
    Finished(A),
}

// A line of a list of calls: the call, and its answer once it was made.
#[derive(Drop)]
pub struct Line<C, S, A> {
    pub call: Call<C, S>,
    pub answer: Option<Result<Outcome<S, A>, Refusal>>,
}
