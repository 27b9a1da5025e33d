// The post: one to four leads, and its two calls, which `post_c` hands to C. Document 01, 'The post's two calls'.
// Rests on the promises of `lead`, `lead_records`, `sharing`, `readings`, `setup_numbers`, `little_endian` and `common`.
#![tactic(auto)]

mod fresh;
mod head;
mod lengths;
mod names;
mod refusals;
mod ticks;
mod turns;
mod written;

ghost use Rattle.std.specs.Prelude.{◌≡◌};
ghost use Rattle.post.specs.Heads.{head_from};
ghost use Rattle.post.specs.Calls.{SetUp, setup_of, Ticked, tick_of};

use common::answered;
use fresh::try_setup;
pub use lengths::{
    HEAD_SIZE, LIMIT_SIZE, MOST_LEADS, MOST_OUTPUT, MOST_STATE, input_length, output_length,
    state_length,
};
use setup_numbers::{SetupErrors, SetupNumbers};
use ticks::try_tick;

// Kept: numbers, one parameter each, and slices of any length, as C calls these two functions (`post_c`).

// Writes a fresh state. The resistance is the cable's, as its float's bits; the errors are the meters', in tenths. Returns 0, or the
// number of the first question that gets a no, and then nothing has changed.
pub fn setup(
    leads: u32,
    rated_volts: u32,
    rated_amperes: u32,
    resistance: u32,
    volts_error: u32,
    amperes_error: u32,
    state: &mut [u8],
) -> u32
    ensures { ◌≡◌ {A = SetUp} (record { number = result; state = state.new })
        (setup_of (head_from (record {
          leads = leads;
          volts = rated_volts;
          amperes = rated_amperes;
          resistance = resistance;
          errors = record { volts = volts_error; amperes = amperes_error };
        }))
        state.old) }
{
    let numbers = SetupNumbers {
        leads,
        volts: rated_volts,
        amperes: rated_amperes,
        resistance,
        errors: SetupErrors {
            volts: volts_error,
            amperes: amperes_error,
        },
    };
    answered(try_setup(numbers, state))
}

// Carries a tick out: every lead's state and output are written. Returns 0, or the number of the first question that gets a no, and then
// nothing has changed.
pub fn tick(state: &mut [u8], input: &[u8], output: &mut [u8]) -> u32
    ensures { ◌≡◌ {A = Ticked} (record { number = result; state = state.new; output = output.new })
        (tick_of state.old input.now output.old) }
{
    answered(try_tick(state, input, output))
}
