// What a tick leaves: the leads' records of state and of output.
ghost use Rattle.std.specs.Prelude.{◌≡◌, ◌++◌, ◌≤◌, length, get_or, take};
ghost use Rattle.common.specs.Parts.{joined};
ghost use Rattle.sharing.specs.Level.{places};
ghost use Rattle.lead_records.specs.States.{encode};
ghost use Rattle.post.specs.Heads.{head_size, state_length, output_length};
ghost use Rattle.lead_records.specs.Turns.{empty_turn, commanded_turn, turn_shown};

use super::head::Head;
use lead_records::{OutputRecord, StateRecord, Turn};
use sharing::PLACES;

// The turns' leads with their commands at the level: each one's records of state and output. The output shows
// what the level lets the lead offer, too. The state's head stays as it is.
pub(crate) fn write_leads(
    head: Head,
    level: u32,
    turns: [Turn; PLACES],
    state: &mut [u8],
    output: &mut [u8],
)
    requires { (head.leads ≤ places) × (length state.old ≡ state_length head.leads) × (length output.old ≡ output_length head.leads) }
    ensures state_after { state.new ≡ take head_size state.old
        ++ joined head.leads (λ k. encode (commanded_turn head.ratings level (get_or turns k empty_turn)).lead) }
    ensures output_after { output.new
        ≡ joined head.leads (λ k. turn_shown head.ratings level (commanded_turn head.ratings level (get_or turns k empty_turn))) }
{
    let leads = usize::from(head.leads);
    // Kept: the places from the number. Of what `chunks_exact_mut` lent, a proof knows afterwards the length and no byte.
    for i in 0..leads {
        let at = Head::SIZE + StateRecord::SIZE * i;
        let to = OutputRecord::SIZE * i;
        let turn = turns[i].command(head.ratings, level);
        let kept = StateRecord::bytes(turn.lead);
        state[at..at + StateRecord::SIZE].copy_from_slice(&kept);
        OutputRecord::write(
            head.ratings,
            level,
            turn,
            &mut output[to..to + OutputRecord::SIZE],
        );
    }
}
