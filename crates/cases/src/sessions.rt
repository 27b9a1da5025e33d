// Two sessions of a post with two leads, tick by tick. Both cars say the same but for the battery, of at most 400 V and 200 V, and ask for 20 A
// each. The power, 5,000 W, is short: at the level of 2,500 W the one gets 6 A, the other 12. In the first session the stop button ends the
// charge, in the second the emergency button, and then the leads are started anew.
use super::calls::{print_tick, set_up};
use lead_records::{InputRecord, OutputRecord, StateRecord};
use post::{HEAD_SIZE, LIMIT_SIZE};
use std::io;

const LEADS: u32 = 2;

// 0.5 ohm.
const RESISTANCE: u32 = 0x3F000000;

// The sizes of that post's state, input and output, and where the leads' inputs begin.
const STATE: usize = HEAD_SIZE + 2 * StateRecord::SIZE;

const INPUT: usize = SECOND + InputRecord::SIZE;

const OUTPUT: usize = 2 * OutputRecord::SIZE;

const FIRST: usize = LIMIT_SIZE;

const SECOND: usize = FIRST + InputRecord::SIZE;

// In watts.
const LIMIT: u32 = 5000;

// For so many ticks: the contacts (1 plug, 2 permission, 4 lock, 8 emergency, 16 stop, 32 start), which readings are there (1 volts, 2 amperes,
// 4 ohms), the volts' bits, and the status that both cars send (1 enabled, 8 contactor open).
#[derive(Clone, Copy)]
struct Step {
    ticks: u8,
    contacts: u8,
    present: u8,
    volts: u32,
    status: u8,
}

impl Step {
    fn new(ticks: u8, contacts: u8, present: u8, volts: u32, status: u8) -> Step {
        Step {
            ticks,
            contacts,
            present,
            volts,
            status,
        }
    }
}

// 190 V and 100,000 ohms, as floats have them.
const VOLTS_190: u32 = 0x433E0000;

const OHMS: u32 = 0x47C35000;

// From the start to charging: started; permission; locked; insulation measured; discharged; contactor closed, and on.
fn begin() -> [Step; 6] {
    [
        Step::new(1, 0x21, 0, 0, 8),
        Step::new(1, 0x03, 0, 0, 9),
        Step::new(1, 0x07, 3, 0, 9),
        Step::new(1, 0x07, 7, VOLTS_190, 9),
        Step::new(1, 0x07, 3, 0, 9),
        Step::new(12, 0x07, 3, VOLTS_190, 1),
    ]
}

// The stop button; the contactor opens; discharged; unplugged.
fn end() -> [Step; 4] {
    [
        Step::new(4, 0x17, 3, VOLTS_190, 1),
        Step::new(1, 0x07, 3, VOLTS_190, 8),
        Step::new(1, 0x07, 3, 0, 8),
        Step::new(1, 0, 0, 0, 8),
    ]
}

// The emergency button; discharged; unplugged; started anew.
fn emergency() -> [Step; 4] {
    [
        Step::new(2, 0x0F, 3, VOLTS_190, 1),
        Step::new(1, 0x07, 3, 0, 8),
        Step::new(1, 0, 0, 0, 8),
        Step::new(1, 0x21, 0, 0, 8),
    ]
}

// What a car says, in three frames of identifier, length and data: its battery is of at most so many volts, it charges for 30 minutes, and it
// asks for 20 A at 190 V.
fn frames(status: u8, battery: u16) -> [[u8; 11]; 3] {
    let [low, high] = battery.to_le_bytes();
    [
        [0, 1, 8, 0, 0, 0, 0, low, high, 0, 0],
        [1, 1, 8, 0, 0xFF, 30, 0, 0, 0, 0, 0],
        [2, 1, 8, 0, 190, 0, 20, 0, status, 0, 0],
    ]
}

// One lead's input: the step's contacts and readings, no amperes, and the car's three frames.
fn lead_input(step: Step, battery: u16) -> [u8; InputRecord::SIZE] {
    let mut input = [0; InputRecord::SIZE];
    input[0] = step.contacts;
    input[1] = step.present;
    // The number of frames.
    input[2] = 3;
    input[4..8].copy_from_slice(&step.volts.to_le_bytes());
    input[12..16].copy_from_slice(&OHMS.to_le_bytes());
    input[16..49].copy_from_slice(frames(step.status, battery).as_flattened());
    input
}

fn post_input(step: Step) -> [u8; INPUT] {
    let mut input = [0; INPUT];
    input[..FIRST].copy_from_slice(&LIMIT.to_le_bytes());
    input[FIRST..SECOND].copy_from_slice(&lead_input(step, 400));
    input[SECOND..].copy_from_slice(&lead_input(step, 200));
    input
}

fn print_session(rt: &impl Print, ending: &[Step]) -> io::Result<()> {
    let mut state = [0; STATE];
    println!(rt; "{}", set_up(LEADS, RESISTANCE, &mut state))?;
    for &step in begin().iter().chain(ending) {
        let input = post_input(step);
        for _ in 0..step.ticks {
            print_tick(rt, &mut state, &input, &mut [0; OUTPUT])?;
        }
    }
    Ok(())
}

pub(crate) fn stopped(rt: &impl Print) -> io::Result<()> {
    print_session(rt, &end())
}

pub(crate) fn cut_off(rt: &impl Print) -> io::Result<()> {
    print_session(rt, &emergency())
}
