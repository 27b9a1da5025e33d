// The calls of `post` for C: the same functions under the same names, with the same promises.
#![tactic(auto)]

ghost use Rattle.std.specs.Prelude.{◌≡◌};
ghost use Rattle.post.specs.Heads.{head_from};
ghost use Rattle.post.specs.Calls.{SetUp, setup_of, Ticked, tick_of};

// Kept: a number a parameter, as C calls this function.
// Writes a fresh state. The resistance is the cable's, as its float's bits; the errors are the meters', in tenths. Returns 0, or the
// number of the first question that gets a no, and then nothing has changed.
#[unsafe(no_mangle)]
pub extern "C" fn setup(
    leads: u32,
    rated_volts: u32,
    rated_amperes: u32,
    resistance: u32,
    volts_error: u32,
    amperes_error: u32,
    state: &mut [u8],
) -> u32
    ensures { ◌≡◌ {A = SetUp} (record { number = result; state = state.new })
        (setup_of (head_from (record {
          leads = leads;
          volts = rated_volts;
          amperes = rated_amperes;
          resistance = resistance;
          errors = record { volts = volts_error; amperes = amperes_error };
        }))
        state.old) }
{
    post::setup(
        leads,
        rated_volts,
        rated_amperes,
        resistance,
        volts_error,
        amperes_error,
        state,
    )
}

// Carries a tick out: every lead's state and output are written. Returns 0, or the number of the first question that gets a no, and then
// nothing has changed.
#[unsafe(no_mangle)]
pub extern "C" fn tick(state: &mut [u8], input: &[u8], output: &mut [u8]) -> u32
    ensures { ◌≡◌ {A = Ticked} (record { number = result; state = state.new; output = output.new })
        (tick_of state.old input.now output.old) }
{
    post::tick(state, input, output)
}
