// Document 01's cable resistances: 3F000000, minus zero, NaN, and what stands beside them. Of each setup its number and the head's bytes for
// the resistance, which stay 0 where it is refused.
use super::calls::set_up;
use super::text::Hex;
use lead_records::StateRecord;
use post::HEAD_SIZE;
use std::io;

// 0.5, minus zero, 1, the next float above it, minus the smallest float, plus infinity, two NaNs.
const RESISTANCES: [u32; 8] = [
    0x3F000000, 0x80000000, 0x3F800000, 0x3F800001, 0x80000001, 0x7F800000, 0x7FC00000, 0xFFC00001,
];

// A post of one lead, and where its resistance stands.
const STATE: usize = HEAD_SIZE + StateRecord::SIZE;

const RESISTANCE: usize = 4;

pub(crate) fn resistances(rt: &impl Print) -> io::Result<()> {
    for resistance in RESISTANCES {
        let mut state = [0; STATE];
        let number = set_up(1, resistance, &mut state);
        println!(rt; "{number}\t{}", Hex(&state[RESISTANCE..RESISTANCE + 4]))?;
    }
    Ok(())
}
