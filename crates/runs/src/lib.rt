// Lists of calls on a board, and what holds after every call of a list.
#![tactic(auto)]

mod call;
mod list;
mod one;

pub use call::{Call, Line, Outcome};
pub use list::run;
pub use one::perform;
