// The plug of a lead with the system B coupler (GB/T): millivolts of detection point 1 in, a plug bit out, one bool kept. Document 02,
// 2026-07, with the figures of source document 000, Table B.2. It knows nothing of leads and posts: the host puts the bit into a lead's
// contacts. Rests on the promises of `common` and on definitions of `little_endian`.
#![tactic(auto, using(std::proofs::lemmas::Bool::Decides::nat_tests), unfolding(crate::specs::All::plug_rules))]

ghost use Rattle.std.specs.Prelude.{◌≡◌};
ghost use Rattle.std.proofs.Common.{rules};
ghost use Rattle.plug_sensing.specs.Sensing.{sensed};
ghost use Rattle.plug_sensing.specs.Calls.{Answer, answer, number};
ghost use Rattle.common.specs.Refusals.{number_of};

use common::{Numbered, answered, is_between, unless};

// The table's "Voltage 1", in millivolts, by its names; both ends belong to a range.
#[derive(Clone, Copy)]
pub struct Voltage1;

impl Voltage1 {
    // 12 V: unplugged. Nothing asks for this range: it is open, as all else is.
    pub const U1A_MIN: u32 = 11200;

    pub const U1A_MAX: u32 = 12800;

    // 6 V, the request's middle range: unplugged, or plugged in with the connector's switch S open.
    pub const U1B_MIN: u32 = 5200;

    pub const U1B_MAX: u32 = 6800;

    // 4 V, the request's lowest range: plugged in, S closed.
    pub const U1C_MIN: u32 = 3200;

    pub const U1C_MAX: u32 = 4800;
}

// The largest value that is taken, in millivolts.
pub const LARGEST_VALUE: u32 = 20000;

// Why the call is refused.
#[derive(Clone, Copy, Debug, PartialEq, Eq)]
pub enum Refusal {
    State = 6,
    Room = 8,
    Millivolts = 31,
}

impl Numbered for Refusal {
    ghost number = { number };

    fn number(self) -> u32 {
        self as u32
    }

    ghost never_0 = { Prim.search rules };
}

// What a value says: whether the plug is closed, and, for the value after it, whether this one lay in the lowest range.
#[derive(Clone, Copy)]
pub struct Sensed {
    pub closed: bool,
    pub lowest: bool,
}

// The rule. The bool given is that of the value before, false at first.
pub fn sense(was_lowest: bool, millivolts: u32) -> Sensed
    ensures { result ≡ sensed was_lowest millivolts }
{
    let is_lowest = is_between(Voltage1::U1C_MIN, Voltage1::U1C_MAX, millivolts);
    let is_middle = is_between(Voltage1::U1B_MIN, Voltage1::U1B_MAX, millivolts);
    Sensed {
        closed: is_lowest | (is_middle & was_lowest),
        lowest: is_lowest,
    }
}

// The call below, with its reason where it is refused.
fn tell_plug(state: &mut [u8], millivolts: u32, plug: &mut [u8]) -> Result<(), Refusal>
    ensures { ◌≡◌ {A = Answer} (record { number = number_of number result; state = state.new; plug = plug.new })
        (answer state.old millivolts plug.old) }
{
    unless(millivolts <= LARGEST_VALUE, Refusal::Millivolts)?;
    let state = state.as_mut_array::<1>().ok_or(Refusal::State)?;
    unless(state[0] <= 1, Refusal::State)?;
    let plug = plug.as_mut_array().ok_or(Refusal::Room)?;
    let sensed = sense(state[0] == 1, millivolts);
    *state = [u8::from(sensed.lowest)];
    *plug = [u8::from(sensed.closed)];
    Ok(())
}

// Writes the plug bit, 1 for closed, and keeps the bool in the state, one byte that is 0 at first. Returns 0, or the number of the first
// question that gets a no, and then nothing has changed.
// Kept: a number, and slices of any length, as C calls this function (`plug_sensing_c`).
pub fn plug_sense(state: &mut [u8], millivolts: u32, plug: &mut [u8]) -> u32
    ensures { ◌≡◌ {A = Answer} (record { number = result; state = state.new; plug = plug.new })
        (answer state.old millivolts plug.old) }
{
    answered(tell_plug(state, millivolts, plug))
}
