// What a tick asks of a lead's state.
ghost use Rattle.std.specs.Prelude.{◌≡◌};
ghost use Rattle.lead.specs.Good.{good_threshold, good_lead};

use super::figures::Figure;
use super::names::{Phase, Reason};
use super::state::{Lead, Ratings};

impl Lead {
    #[tactic(auto, unfolding(crate::specs::Good::good_threshold))]
    fn has_good_threshold(self, rated: u16) -> bool
        ensures { result ≡ good_threshold rated self.stage.phase self.threshold }
    {
        let threshold = self.threshold;
        let kept = self.stage.is_between(Phase::LOCKING, Phase::RAMP_DOWN);
        let in_range = (Figure::LEAST_VOLTS <= threshold) & (threshold <= rated);
        ((threshold == 0) | in_range)
            & ((self.stage.phase != Phase::HANDSHAKE) | (threshold == 0))
            & (!kept | (threshold != 0))
    }

    #[tactic(auto, unfolding(crate::specs::Good::good_lead))]
    pub fn is_good(self, ratings: Ratings) -> bool
        ensures { result ≡ good_lead ratings self }
    {
        let phase = self.stage.phase;
        let reason = self.stage.reason;
        let powered = self.stage.is_between(Phase::CHARGING, Phase::RAMP_DOWN);
        let known = (Reason::EMERGENCY_BUTTON <= reason) & (reason <= Reason::CHARGING_TIME_OVER);
        (phase <= Phase::ENDED)
            & ((reason == Reason::NONE) | known)
            & ((self.command <= ratings.amperes) & (powered | (self.command == 0)))
            & self.has_good_threshold(ratings.volts)
    }
}
