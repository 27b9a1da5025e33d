// The post's two calls, on buffers with room for as many leads as a post may have.
ghost use Rattle.std.specs.Prelude.{◌≡◌, ◌≤◌, min, max, length, take, drop};
ghost use Rattle.post.specs.Heads.{most_leads, state_length, input_length, output_length, head_from};
ghost use Rattle.post.specs.Calls.{SetUp, setup_of, Ticked, tick_of};
ghost use Rattle.bench_answers.specs.Rooms.{state_room, output_room};

use post::{MOST_LEADS, input_length, output_length, setup, state_length, tick};
use setup_numbers::SetupNumbers;

// At most as many leads as there is room for; setup refuses 0 and any number above.
pub(crate) fn leads_of(number: u32) -> u8
    ensures { result ≡ min number most_leads }
{
    number.min(MOST_LEADS) as u8
}

// Kept: the numbers that the post's two calls return, which C gets too (`setup_of`, `tick_of`).
// Setup on the beginning of the buffer, as much of it as that many leads ask for.
pub(crate) fn set_up(numbers: SetupNumbers, state: &mut [u8]) -> u32
    requires { length state.old ≡ state_room }
    ensures begun { ◌≡◌ {A = SetUp} (record { number = result; state = take (state_length (min numbers.leads most_leads)) state.new })
        (setup_of (head_from numbers) (take (state_length (min numbers.leads most_leads)) state.old)) }
    ensures rest { drop (state_length (min numbers.leads most_leads)) state.new
        ≡ drop (state_length (min numbers.leads most_leads)) state.old }
{
    let end = state_length(leads_of(numbers.leads));
    setup(
        numbers.leads,
        numbers.volts,
        numbers.amperes,
        numbers.resistance,
        numbers.errors.volts,
        numbers.errors.amperes,
        &mut state[..end],
    )
}

// A tick on the beginnings of the buffers. Of the input, missing final bytes are there as zeros; surplus ones are passed on.
pub(crate) fn tick_on(
    leads: u8,
    count: usize,
    state: &mut [u8],
    input: &[u8],
    output: &mut [u8],
) -> u32
    requires few { leads ≤ most_leads }
    requires rooms { (length state.old ≡ state_room) × (length output.old ≡ output_room) }
    ensures { ◌≡◌ {A = Ticked}
        (record { number = result; state = take (state_length leads) state.new; output = take (output_length leads) output.new })
        (tick_of (take (state_length leads) state.old) (take (max (input_length leads) count) input.now)
        (take (output_length leads) output.old)) }
{
    let end = state_length(leads);
    let length = input_length(leads).max(count).min(input.len());
    let shown = output_length(leads);
    tick(&mut state[..end], &input[..length], &mut output[..shown])
}
