// A lead's part of a tick, as it is held until state and output are written.
ghost use Rattle.std.specs.Prelude.{◌≡◌, true};
ghost use Rattle.readings.specs.Readings.{allowed_resistance};
ghost use Rattle.lead.specs.Power.{wanted_watts};
ghost use Rattle.lead_records.specs.States.{decode};
ghost use Rattle.lead_records.specs.Inputs.{input_of};
ghost use Rattle.lead_records.specs.Turns.{empty_turn, decided_turn, commanded_turn};

use super::inputs::InputRecord;
use super::states::StateRecord;
use lead::{Lead, Ratings};
use readings::Measured;

// A lead after its own decision, and what its output will show of its input: the lock contact and the meter's reading.
#[derive(Clone, Copy)]
pub struct Turn {
    pub lead: Lead,
    pub lock: bool,
    pub reading: Option<Measured>,
}

impl Turn {
    // For a place that no lead of the post has: a fresh lead without a reading.
    pub fn empty() -> Turn
        ensures { result ≡ empty_turn }
    {
        Turn {
            lead: Lead::fresh(),
            lock: false,
            reading: None,
        }
    }

    // From a lead's records of state and input.
    #[tactic(auto, unfolding(crate::specs::Turns::decided_turn))]
    pub fn decided(
        ratings: Ratings,
        state: &[u8; StateRecord::SIZE],
        input: &[u8; InputRecord::SIZE],
    ) -> Turn
        requires { allowed_resistance ratings.resistance ≡ true }
        ensures { result ≡ decided_turn ratings (decode state.now)
            (input_of input.now ratings.resistance) }
    {
        let input = InputRecord::read(input, ratings.resistance);
        Turn {
            lead: StateRecord::read(state).decide(ratings, input),
            lock: input.contacts.lock,
            reading: input.reading,
        }
    }

    pub fn wanted_watts(self, ratings: Ratings) -> u32
        ensures { result ≡ wanted_watts ratings self.lead }
    {
        self.lead.wanted_watts(ratings)
    }

    #[tactic(auto, unfolding(crate::specs::Turns::commanded_turn))]
    pub fn command(self, ratings: Ratings, level: u32) -> Turn
        ensures { result ≡ commanded_turn ratings level self }
    {
        Turn {
            lead: self.lead.command(ratings, level),
            ..self
        }
    }
}
