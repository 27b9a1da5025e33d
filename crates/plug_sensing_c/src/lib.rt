// The call of `plug_sensing` for C: the same function under the same name, with the same promise.
#![tactic(auto)]

ghost use Rattle.std.specs.Prelude.{◌≡◌};
ghost use Rattle.plug_sensing.specs.Calls.{Answer, answer};

// Writes the plug bit, 1 for closed, and keeps the bool in the state, one byte that is 0 at first. Returns 0, or the number of the first
// question that gets a no, and then nothing has changed.
#[unsafe(no_mangle)]
pub extern "C" fn plug_sense(state: &mut [u8], millivolts: u32, plug: &mut [u8]) -> u32
    ensures { ◌≡◌ {A = Answer} (record { number = result; state = state.new; plug = plug.new })
        (answer state.old millivolts plug.old) }
{
    plug_sensing::plug_sense(state, millivolts, plug)
}
