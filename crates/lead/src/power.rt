// What a lead wants of the post's power, the command that a level gives it, the energy that this adds, and what is offered to the car.
ghost use Rattle.std.specs.Prelude.{◌≡◌, ◌*◌, ◌/◌, min};
ghost use Rattle.lead.specs.Power.{wanted, wanted_watts, offered, commanded};

use super::figures::Figure;
use super::names::Phase;
use super::state::{Lead, Ratings};

fn watts(amperes: u8, volts: u16) -> u32
    ensures { result ≡ amperes * volts }
{
    u32::from(amperes) * u32::from(volts)
}

// As many of these amperes as the level carries, in whole ones.
fn carried(amperes: u8, volts: u16, level: u32) -> u8
    ensures { result ≡ min (amperes * volts) level / volts }
{
    if volts == 0 {
        return 0;
    }
    let all = watts(amperes, volts);
    if all <= level {
        return amperes;
    }
    (level / u32::from(volts)) as u8
}

// Kept: ratings and level go side by side here and above: setup fixes the one, each tick the other, and a struct of both would be made for a call.
impl Lead {
    #[tactic(auto, unfolding(crate::specs::Power::wanted))]
    fn wanted(self, ratings: Ratings) -> u8
        ensures { result ≡ wanted ratings self }
    {
        let phase = self.stage.phase;
        if phase == Phase::CHARGING {
            let request = self.car.status.value.request;
            let raised = self.command.saturating_add(Figure::RAISE);
            return request.min(ratings.amperes).min(raised);
        }
        if phase == Phase::RAMP_DOWN {
            return self.command.saturating_sub(Figure::FALL);
        }
        0
    }

    // By the phase after the tick.
    #[tactic(auto, unfolding(crate::specs::Power::wanted_watts))]
    pub fn wanted_watts(self, ratings: Ratings) -> u32
        ensures { result ≡ wanted_watts ratings self }
    {
        watts(self.wanted(ratings), self.threshold)
    }

    // At the level that the post has worked out from every lead's want.
    #[tactic(auto, unfolding(crate::specs::Power::commanded, crate::specs::Power::wanted_watts, crate::specs::Power::energy_after))]
    pub fn command(mut self, ratings: Ratings, level: u32) -> Lead
        ensures { result ≡ commanded ratings level self }
    {
        let command = carried(self.wanted(ratings), self.threshold, level);
        let added = watts(command, self.threshold);
        self.energy = self.energy.saturating_add(u64::from(added));
        self.command = command;
        self
    }

    // In amperes, by the phase after the tick: while charging, as much of the rating as the level carries.
    #[tactic(auto, using(crate::proofs::Watts::carried_is), unfolding(crate::specs::Power::offered))]
    pub fn offered(self, ratings: Ratings, level: u32) -> u8
        ensures { result ≡ offered ratings level self }
    {
        if self.stage.phase != Phase::CHARGING {
            return ratings.amperes;
        }
        carried(ratings.amperes, self.threshold, level)
    }
}
