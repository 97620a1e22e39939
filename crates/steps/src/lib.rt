// The steps on a whole body: where each part lies, and the handler's block lent on to be written.
// Internal: called by our crates alone, which show what each function requires.
#![tactic(auto)]

mod single;
mod tries;

pub use single::{begin, give_up, is_open, read, write};
pub use tries::attempt;
