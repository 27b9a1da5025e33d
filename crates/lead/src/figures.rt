// The figures of document 01's questions and moves and of document 02's requests.
use readings::Tenths;

#[derive(Clone, Copy)]
pub struct Figure;

impl Figure {
    // Question 17: so much above the rated amperes.
    pub const MORE_AMPERES: Tenths = Tenths(25);

    // The moves out of 4 and 9: 10 V.
    pub const DISCHARGED_VOLTS: Tenths = Tenths(10 * Tenths::PER_UNIT);

    // The move out of 7.
    pub const RESIDUAL_AMPERES: Tenths = Tenths(49);

    // Question 21 and the kept threshold, in volts.
    pub const LEAST_VOLTS: u16 = 50;

    // Question 19, in ticks.
    pub const SILENCE_END: u8 = 10;

    // The moves out of 7 and 8, in ticks.
    pub const RAMP_DOWN_END: u32 = 30;

    pub const WELD_CHECK_END: u32 = 40;

    // The want in 6 and in 7, in amperes a tick.
    pub const RAISE: u8 = 2;

    pub const FALL: u8 = 10;
}
