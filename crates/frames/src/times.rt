// The charging time of H'101 and the remaining time of H'109, in their units. Only the conversions here join the units.
ghost use Rattle.std.specs.Prelude.{◌≡◌, ◌-◌, ◌<◌};
ghost use Rattle.frames.specs.Times.{in_minutes, charging_ticks, remaining_time, ticks_of_tens, ticks_of_minutes, tens_of_ticks, minutes_of_ticks};

#[derive(Clone, Copy, PartialEq, Eq)]
pub struct TensOfSeconds(pub u8);

#[derive(Clone, Copy)]
pub struct Minutes(pub u8);

// Ticks of a tenth of a second, the post's control cycle.
#[derive(Clone, Copy)]
pub struct Ticks(pub u32);

// Two bytes: tens of seconds, or H'FF there and the minutes.
// Kept: both bytes, and no enum of the two units, since a lead's state has them as they came (`time_in`).
#[derive(Clone, Copy)]
pub struct ChargingTime {
    pub tens: TensOfSeconds,
    pub minutes: Minutes,
}

impl TensOfSeconds {
    // No time, but the mark that the minutes count.
    const SEE_MINUTES: TensOfSeconds = TensOfSeconds(0xff);

    // Kept: a named conversion for each unit, here and below, and no `From`: "only named conversions join them" (document 01).
    fn ticks(self) -> Ticks
        ensures { result.0 ≡ ticks_of_tens self.0 }
    {
        Ticks(100 * u32::from(self.0))
    }
}

impl Minutes {
    fn ticks(self) -> Ticks
        ensures { result.0 ≡ ticks_of_minutes self.0 }
    {
        Ticks(600 * u32::from(self.0))
    }
}

impl Ticks {
    // At least 0.
    fn less(self, elapsed: Ticks) -> Ticks
        ensures { result.0 ≡ self.0 - elapsed.0 }
    {
        Ticks(self.0.saturating_sub(elapsed.0))
    }

    // Rounded down.
    fn tens_of_seconds(self) -> TensOfSeconds
        requires { self.0 < 25600 }
        ensures { result.0 ≡ tens_of_ticks self.0 }
    {
        TensOfSeconds((self.0 / 100) as u8)
    }

    // Rounded down.
    fn minutes(self) -> Minutes
        requires { self.0 < 153600 }
        ensures { result.0 ≡ minutes_of_ticks self.0 }
    {
        Minutes((self.0 / 600) as u8)
    }
}

impl ChargingTime {
    fn is_in_minutes(self) -> bool
        ensures { result ≡ in_minutes self }
    {
        self.tens == TensOfSeconds::SEE_MINUTES
    }

    #[tactic(auto, unfolding(crate::specs::Times::charging_ticks))]
    pub fn ticks(self) -> Ticks
        ensures { result.0 ≡ charging_ticks self }
    {
        if self.is_in_minutes() {
            self.minutes.ticks()
        } else {
            self.tens.ticks()
        }
    }

    // What is left of it, in the unit that the car chose.
    #[tactic(auto, unfolding(crate::specs::Times::remaining_time, crate::specs::Times::charging_ticks))]
    pub fn remaining(self, elapsed: Ticks) -> ChargingTime
        ensures { result ≡ remaining_time self elapsed.0 }
    {
        let left = self.ticks().less(elapsed);
        if self.is_in_minutes() {
            return ChargingTime {
                tens: TensOfSeconds::SEE_MINUTES,
                minutes: left.minutes(),
            };
        }
        ChargingTime {
            tens: left.tens_of_seconds(),
            minutes: Minutes(0),
        }
    }
}
