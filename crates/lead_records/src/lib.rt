// One lead's bytes: its state (32), its input (104) and its output (24), and its part of a tick in between. Rests on lead, frames, readings, little_endian and common.
#![tactic(auto)]

mod inputs;
mod outputs;
mod states;
mod turns;

pub use inputs::InputRecord;
pub use outputs::OutputRecord;
pub use states::StateRecord;
pub use turns::Turn;
