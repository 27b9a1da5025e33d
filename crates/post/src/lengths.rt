// How long the state, the input and the output of a post with some leads are.
ghost use Rattle.std.specs.Prelude.{◌≡◌};
ghost use Rattle.post.specs.Heads.{state_length, input_length, output_length};

use super::head::Head;
use lead_records::{InputRecord, OutputRecord, StateRecord};

// As many leads as a post may have.
pub const MOST_LEADS: u32 = 4;

// The lengths of its state and its output then.
pub const MOST_STATE: usize = Head::SIZE + StateRecord::SIZE * (MOST_LEADS as usize);

pub const MOST_OUTPUT: usize = OutputRecord::SIZE * (MOST_LEADS as usize);

// The head, which stands before the leads' states.
pub const HEAD_SIZE: usize = Head::SIZE;

// The power limit, which stands before the leads' inputs (document 01: allowance).
pub const LIMIT_SIZE: usize = 4;

// Kept: a function for each of the three. A generic one takes the two numbers that are all of its body.
pub fn state_length(leads: u8) -> usize
    ensures { result ≡ state_length leads }
{
    Head::SIZE + StateRecord::SIZE * usize::from(leads)
}

pub fn input_length(leads: u8) -> usize
    ensures { result ≡ input_length leads }
{
    LIMIT_SIZE + InputRecord::SIZE * usize::from(leads)
}

pub fn output_length(leads: u8) -> usize
    ensures { result ≡ output_length leads }
{
    OutputRecord::SIZE * usize::from(leads)
}
