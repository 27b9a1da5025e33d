// What setup and tick ask before they do anything, in the order of asking.
ghost use Rattle.std.specs.Prelude.{◌≡◌, length};
ghost use Rattle.common.specs.Parts.{every};
ghost use Rattle.common.specs.Refusals.{number_of, refusal_of};
ghost use Rattle.lead_records.specs.States.{good_state};
ghost use Rattle.lead_records.specs.Inputs.{good_input};
ghost use Rattle.post.specs.Heads.{state_length, input_length, state_part, input_part};
ghost use Rattle.post.specs.Refusals.{number, good_post, input_rows, tick_rows};

use super::head::Head;
use super::lengths::{LIMIT_SIZE, input_length, output_length, state_length};
use super::names::Refusal;
use common::unless;
use lead_records::{InputRecord, StateRecord};

// Kept: that a state or an input is as long as its leads ask stands in the contracts of those that take it, here and in the modules beside.
// A type for it would borrow the state throughout a tick, which reads it first and writes it at the end.
fn are_good_states(head: Head, state: &[u8]) -> bool
    requires { length state.now ≡ state_length head.leads }
    ensures { result ≡ every head.leads (λ k. good_state head.ratings (state_part state.now k)) }
{
    let (records, _) = state[Head::SIZE..].as_chunks();
    records
        .iter()
        .all(|record| StateRecord::is_good(record, head.ratings))
}

fn is_good_post(state: &[u8]) -> bool
    ensures { result ≡ good_post state.now }
{
    if state.len() < Head::SIZE {
        return false;
    }
    let head = Head::read(state);
    head.is_good() && state.len() == state_length(head.leads) && are_good_states(head, state)
}

fn are_good_inputs(leads: u8, input: &[u8]) -> bool
    requires { length input.now ≡ input_length leads }
    ensures { result ≡ every leads (λ k. good_input (input_part input.now k)) }
{
    let (records, _) = input[LIMIT_SIZE..].as_chunks();
    records.iter().all(|record| InputRecord::is_good(record))
}

// The room is the output's length.
fn ask_input(leads: u8, input: &[u8], room: usize) -> Result<(), Refusal>
    ensures { number_of number result ≡ refusal_of (input_rows leads input.now room) }
{
    unless(input.len() == input_length(leads), Refusal::InputLength)?;
    unless(room == output_length(leads), Refusal::OutputLength)?;
    unless(are_good_inputs(leads, input), Refusal::Input)
}

pub(crate) fn ask_tick(state: &[u8], input: &[u8], room: usize) -> Result<(), Refusal>
    ensures { number_of number result ≡ refusal_of (tick_rows state.now input.now room) }
{
    unless(is_good_post(state), Refusal::State)?;
    let head = Head::read(state);
    ask_input(head.leads, input, room)
}
