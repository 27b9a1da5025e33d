// Document 01's whole case, through setup and tick: what its bench program prints for it.
use super::calls::{print_tick, set_up};
use lead_records::{InputRecord, OutputRecord, StateRecord};
use post::{HEAD_SIZE, LIMIT_SIZE};
use std::io;

// One lead, no cable resistance. Then the sizes of that post's state, input and output.
const LEADS: u32 = 1;

const RESISTANCE: u32 = 0;

const STATE: usize = HEAD_SIZE + StateRecord::SIZE;

const INPUT: usize = CONTACTS + InputRecord::SIZE;

const OUTPUT: usize = OutputRecord::SIZE;

// Where the contacts stand in the input, behind the power limit, and plug closed with start pressed.
const CONTACTS: usize = LIMIT_SIZE;

const PLUG_AND_START: u8 = 33;

pub(crate) fn whole_case(rt: &impl Print) -> io::Result<()> {
    let mut state = [0; STATE];
    let mut input = [0; INPUT];
    let mut output = [0; OUTPUT];
    input[CONTACTS] = PLUG_AND_START;
    println!(rt; "{}", set_up(LEADS, RESISTANCE, &mut state))?;
    print_tick(rt, &mut state, &input, &mut output)
}
