// The bench program's answers: to one line, by the post kept so far, and to a piece of input, line by line. Document 01, 'Bench program'.
// Knows of input and output no more than slices.
#![tactic(auto)]

mod answers;
mod pieces;
mod posts;

pub use answers::Post;
pub use pieces::{ANSWER, Begun, Carried, LINE, Progress};
