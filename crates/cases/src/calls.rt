// The post's two calls. Every post here is of 500 V and 125 A, with exact meters.
use super::text::Hex;
use post::{setup, tick};
use std::io;

const RATED_VOLTS: u32 = 500;

const RATED_AMPERES: u32 = 125;

const METER_ERROR: u32 = 0;

pub(crate) fn set_up(leads: u32, resistance: u32, state: &mut [u8]) -> u32 {
    setup(
        leads,
        RATED_VOLTS,
        RATED_AMPERES,
        resistance,
        METER_ERROR,
        METER_ERROR,
        state,
    )
}

// Prints the answer to a tick, as the bench program does to one that is done.
pub(crate) fn print_tick(
    rt: &impl Print,
    state: &mut [u8],
    input: &[u8],
    output: &mut [u8],
) -> io::Result<()> {
    let number = tick(state, input, output);
    println!(rt; "{number}\t{}", Hex(output))
}
