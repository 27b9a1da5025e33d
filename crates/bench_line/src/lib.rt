// The bench program's language: one line parsed, one answer as text. Document 01, 'Bench program'. Knows nothing of the
// post, and of input and output no more than slices.
#![tactic(auto)]

mod answers;
mod digits;
mod fields;
mod lines;
mod numbers;

pub use answers::{Answer, write_answer};
pub use lines::{LONGEST, Line, parse};
