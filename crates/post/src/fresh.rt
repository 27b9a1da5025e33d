// Setup, and what it leaves: a fresh post's state.
ghost use Rattle.std.specs.Prelude.{◌≡◌, ◌++◌, length, take};
ghost use Rattle.common.specs.Parts.{joined};
ghost use Rattle.common.specs.Refusals.{number_of};
ghost use Rattle.lead.specs.Leads.{fresh};
ghost use Rattle.lead_records.specs.States.{encode};
ghost use Rattle.post.specs.Heads.{head_size, state_length, head_from};
ghost use Rattle.post.specs.Rules.{post_bytes};
ghost use Rattle.post.specs.Refusals.{number};
ghost use Rattle.post.specs.Calls.{SetUp, setup_of};

use super::head::Head;
use super::lengths::state_length;
use super::names::Refusal;
use common::unless;
use lead::Lead;
use lead_records::StateRecord;
use setup_numbers::SetupNumbers;

// A fresh lead's record at each place behind the head.
fn write_fresh_leads(leads: u8, state: &mut [u8])
    requires { length state.old ≡ state_length leads }
    ensures { state.new ≡ take head_size state.old ++ joined leads (λ k. encode fresh) }
{
    let kept = StateRecord::bytes(Lead::fresh());
    // Kept: the place from the number. Of what `chunks_exact_mut` lent, a proof knows afterwards the length and no byte.
    for i in 0..usize::from(leads) {
        let at = Head::SIZE + StateRecord::SIZE * i;
        state[at..at + StateRecord::SIZE].copy_from_slice(&kept);
    }
}

fn write_fresh(head: Head, state: &mut [u8])
    requires { length state.old ≡ state_length head.leads }
    ensures { state.new ≡ post_bytes head (λ k. fresh) }
{
    state[..Head::SIZE].copy_from_slice(&head.bytes());
    write_fresh_leads(head.leads, state);
}

pub(crate) fn try_setup(numbers: SetupNumbers, state: &mut [u8]) -> Result<(), Refusal>
    ensures { ◌≡◌ {A = SetUp} (record { number = number_of number result; state = state.new })
        (setup_of (head_from numbers) state.old) }
{
    let head = Head::try_from(numbers)?;
    unless(
        state.len() == state_length(head.leads),
        Refusal::StateLength,
    )?;
    write_fresh(head, state);
    Ok(())
}
