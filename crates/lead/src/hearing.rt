// Taking a tick's frames. What a frame said remains until the next of its kind.
ghost use Rattle.std.specs.Prelude.{◌≡◌};
ghost use Rattle.lead.specs.Hearing.{hear_known, silence_after, hear_car, hear};

use super::names::Phase;
use super::state::{Car, HeardLead, Input, Known, Lead, Stage};
use frames::VehicleStatus;

impl<T: Copy> Known<T> {
    #[tactic(auto, unfolding(crate::specs::Hearing::hear_known))]
    fn hear(self, frame: Option<T>) -> Known<T>
        ensures { result ≡ hear_known frame self }
    {
        match frame {
            Some(value) => Known { seen: true, value },
            None => self,
        }
    }
}

// Ticks without an H'102, at most 255.
#[tactic(auto, unfolding(crate::specs::Hearing::silence_after))]
fn silence_after(frame: Option<VehicleStatus>, silence: u8) -> u8
    ensures { result ≡ silence_after frame silence }
{
    match frame {
        Some(_) => 0,
        None => silence.saturating_add(1),
    }
}

impl Car {
    #[tactic(auto, unfolding(crate::specs::Hearing::hear_car))]
    fn hear(mut self, stage: Stage, input: Input) -> Car
        ensures { result ≡ hear_car stage.phase input self }
    {
        if !stage.is_between(Phase::HANDSHAKE, Phase::WELD_CHECK) {
            return self;
        }
        self.status = self.status.hear(input.frames.status);
        self.silence = silence_after(input.frames.status, self.silence);
        if stage.phase != Phase::HANDSHAKE {
            return self;
        }
        self.battery = self.battery.hear(input.frames.battery);
        self.time = self.time.hear(input.frames.time);
        self
    }
}

impl Lead {
    #[tactic(auto, unfolding(crate::specs::Hearing::hear))]
    pub(crate) fn hear(mut self, input: Input) -> HeardLead
        ensures { result ≡ hear input self }
    {
        self.car = self.car.hear(self.stage, input);
        HeardLead { lead: self }
    }
}
