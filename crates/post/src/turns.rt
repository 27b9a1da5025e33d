// The leads' parts of a tick: each lead decides by itself, then the power limit is divided among them.
ghost use Rattle.std.specs.Prelude.{◌≡◌, true, ℕ, ◌≤◌, length, get_or};
ghost use Rattle.readings.specs.Readings.{allowed_resistance};
ghost use Rattle.sharing.specs.Level.{places, want_of};
ghost use Rattle.lead.specs.Power.{wanted_watts};
ghost use Rattle.post.specs.Heads.{state_length, input_length};
ghost use Rattle.post.specs.Rules.{tick_input};
ghost use Rattle.post.specs.Calls.{leads_of};
ghost use Rattle.lead_records.specs.Turns.{empty_turn};
ghost use Rattle.post.specs.Turns.{turn_at, among};

use super::head::Head;
use super::lengths::LIMIT_SIZE;
use lead_records::Turn;
use sharing::PLACES;

// Every lead's turn, and what it wants.
// Kept: two arrays, as `sharing::level` takes the wants as one; a want in each turn would have to be copied out for it.
#[derive(Clone, Copy)]
pub struct Decided {
    pub turns: [Turn; PLACES],
    pub wants: [u32; PLACES],
}

// Places past the post's leads stay empty and want nothing.
pub(crate) fn decide_all(head: Head, state: &[u8], input: &[u8]) -> Decided
    requires posts { (head.leads ≤ places) × (allowed_resistance head.ratings.resistance ≡ true) }
    requires lengths { (length state.now ≡ state_length head.leads) × (length input.now ≡ input_length head.leads) }
    ensures turns { (k : ℕ) → get_or result.turns k empty_turn
        ≡ among head.leads (turn_at head (tick_input input.now) (leads_of state.now)) k }
    ensures wants { (k : ℕ) → want_of result.wants k ≡ wanted_watts head.ratings (get_or result.turns k empty_turn).lead }
{
    let mut turns = [Turn::empty(); PLACES];
    let mut wants = [0u32; PLACES];
    let (states, _) = state[Head::SIZE..].as_chunks();
    let (inputs, _) = input[LIMIT_SIZE..].as_chunks();
    for (i, record) in states.iter().enumerate() {
        let turn = Turn::decided(head.ratings, record, &inputs[i]);
        wants[i] = turn.wanted_watts(head.ratings);
        turns[i] = turn;
    }
    Decided { turns, wants }
}
