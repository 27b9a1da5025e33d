// The nineteen stop questions, and the first no.
ghost use Rattle.std.specs.Prelude.{◌≡◌, Ok, Err, is_some, cond, not, ◌&&◌, leb, get_or};
ghost use Rattle.common.specs.Tests.{between};
ghost use Rattle.readings.specs.Readings.{at_most};
ghost use Rattle.lead.specs.Figures.{most_volts, most_amperes, least_volts, discharged_volts, residual_amperes};
ghost use Rattle.lead.specs.Questions.{meter_of, unless_bad, revokes, threshold_now, ticks_allowed, view_of, once, opened_reason, ask, reason_of};

use super::figures::Figure;
use super::names::{Phase, Reason};
use super::state::{Car, Contacts, HeardLead, Input, Ratings, Stage};
use Stop::{Ordinary, Urgent};
use frames::{VehicleSignals, VehicleStatus};
use readings::{Measured, MeterErrors, Tenths, UpperEnd, is_insulated};

// What is judged of a good reading: the upper ends of its volts and amperes.
#[derive(Clone, Copy)]
pub struct Meter {
    pub volts: UpperEnd,
    pub amperes: UpperEnd,
}

// What the questions and the moves look at beside the lead's own numbers: contacts, meter, what the bits of the newest H'102 say,
// whether this tick's own has enabled clear, rated amperes, the threshold voltage (worked out in phase 1, kept in the later ones),
// whether an insulation resistance is present and high enough, the ticks allowed in the phase, and the charging time in ticks.
#[derive(Clone, Copy)]
pub struct View {
    pub contacts: Contacts,
    pub meter: Option<Meter>,
    pub signals: VehicleSignals,
    pub revoked: bool,
    pub rated: u8,
    pub threshold: u16,
    pub present: bool,
    pub insulated: bool,
    pub allowed: u32,
    pub time: u32,
}

// A stop, with its reason.
#[derive(Clone, Copy, Debug, PartialEq, Eq)]
pub enum Stop {
    Urgent(u8),
    Ordinary(u8),
}

// The reason that a tick's verdict gives.
pub(crate) fn reason_of(verdict: Result<(), Stop>) -> u8
    ensures { result ≡ reason_of verdict }
{
    match verdict {
        Ok(()) => Reason::NONE,
        Err(Urgent(reason) | Ordinary(reason)) => reason,
    }
}

impl Meter {
    fn from_reading(errors: MeterErrors, reading: Option<Measured>) -> Option<Meter>
        ensures { result ≡ meter_of errors reading }
    {
        let Measured { volts, amperes } = reading?;
        Some(Meter {
            volts: volts.upper_end(errors.volts),
            amperes: amperes.upper_end(errors.amperes),
        })
    }

    // For the moves out of 4 and 9.
    pub(crate) fn is_discharged(self) -> bool
        ensures { result ≡ at_most self.volts discharged_volts }
    {
        self.volts.is_at_most(Figure::DISCHARGED_VOLTS)
    }

    // For the move out of 7.
    pub(crate) fn is_ramped_down(self) -> bool
        ensures { result ≡ at_most self.amperes residual_amperes }
    {
        self.amperes.is_at_most(Figure::RESIDUAL_AMPERES)
    }
}

// A bad reading passes questions 16 and 17: in the phases in which they are asked, question 15 has stopped it.
impl View {
    // Question 16.
    fn is_voltage_allowed(self) -> bool
        ensures { result ≡ unless_bad (λ meter. at_most meter.volts (most_volts self.threshold)) self.meter }
    {
        self.meter
            .is_none_or(|meter| meter.volts.is_at_most_units(self.threshold))
    }

    // Question 17.
    fn is_current_allowed(self) -> bool
        ensures { result ≡ unless_bad (λ meter. at_most meter.amperes (most_amperes self.rated)) self.meter }
    {
        let rated = Tenths::PER_UNIT * u16::from(self.rated);
        let most = Tenths(rated + Figure::MORE_AMPERES.0);
        self.meter
            .is_none_or(|meter| meter.amperes.is_at_most(most))
    }

    // Question 21.
    fn is_compatible(self, car: Car) -> bool
        ensures { result ≡ once (car.battery.seen && car.status.seen)
            (leb least_volts car.battery.value && leb least_volts car.status.value.target && leb car.status.value.target self.threshold) }
    {
        let target = car.status.value.target;
        let in_range = (Figure::LEAST_VOLTS <= car.battery.value)
            & (Figure::LEAST_VOLTS <= target)
            & (target <= self.threshold);
        !(car.battery.seen & car.status.seen) | in_range
    }
}

// Whether an H'102 counts in this tick, and has enabled clear (2026-06).
fn is_revoking(frame: Option<VehicleStatus>) -> bool
    ensures { result ≡ revokes frame }
{
    frame.is_some_and(|status| !status.signals().enabled)
}

// Question 28, by phase.
// Kept: a table of the document under its phase numbers. No step is run by it.
fn ticks_allowed(phase: u8) -> u32
    ensures { result ≡ get_or ticks_allowed phase 0 }
{
    match phase {
        1 => 100,
        2 => 20,
        3 => 150,
        4 => 50,
        5 => 100,
        _ => 0,
    }
}

impl Stage {
    // A question that is asked in these phases: the stop, where the answer is no.
    fn question(self, first: u8, last: u8, yes: bool, stop: Stop) -> Result<(), Stop>
        ensures { result ≡ cond (between first last self.phase && not yes) (Err stop) (Ok tt) }
    {
        if self.is_between(first, last) & !yes {
            return Err(stop);
        }
        Ok(())
    }

    // The reason that question 14's no gives: that of 23 where the car's message of this tick says no too (2026-06).
    fn opened_reason(self, revoked: bool) -> u8
        ensures { result ≡ opened_reason self.phase revoked }
    {
        if self.is_between(2, 6) & revoked {
            return Reason::NOT_ENABLED;
        }
        Reason::PERMISSION_OPEN
    }
}

impl HeardLead {
    fn threshold_now(self, ratings: Ratings) -> u16
        ensures { result ≡ threshold_now ratings self }
    {
        if self.lead.stage.phase == Phase::HANDSHAKE {
            return ratings.volts.min(self.lead.car.battery.value);
        }
        self.lead.threshold
    }

    #[tactic(auto, unfolding(crate::specs::Questions::view_of))]
    pub(crate) fn view(self, ratings: Ratings, input: Input) -> View
        ensures { result ≡ view_of ratings input self }
    {
        let car = self.lead.car;
        let threshold = self.threshold_now(ratings);
        View {
            contacts: input.contacts,
            meter: Meter::from_reading(ratings.errors, input.reading),
            signals: car.status.value.signals(),
            revoked: is_revoking(input.frames.status),
            rated: ratings.amperes,
            threshold,
            present: input.insulation.is_some(),
            insulated: is_insulated(threshold, input.insulation),
            allowed: ticks_allowed(self.lead.stage.phase),
            time: car.time.value.ticks().0,
        }
    }

    // All questions, row by row as the document has them; the first no is the stop.
    pub(crate) fn ask(self, view: View) -> Result<(), Stop>
        ensures { result ≡ ask view self }
    {
        let stage = self.lead.stage;
        let car = self.lead.car;
        let contacts = view.contacts;
        let signals = view.signals;
        stage.question(1, 8, !contacts.emergency, Urgent(Reason::EMERGENCY_BUTTON))?;
        stage.question(1, 8, contacts.plug, Urgent(Reason::UNPLUGGED))?;
        stage.question(1, 8, !contacts.leakage, Urgent(Reason::GROUND_FAULT))?;
        let opened = stage.opened_reason(view.revoked);
        stage.question(2, 7, contacts.permission, Urgent(opened))?;
        stage.question(3, 7, view.meter.is_some(), Urgent(Reason::BAD_READING))?;
        stage.question(5, 7, view.is_voltage_allowed(), Urgent(Reason::OVERVOLTAGE))?;
        stage.question(5, 7, view.is_current_allowed(), Urgent(Reason::OVERCURRENT))?;
        stage.question(3, 7, contacts.lock, Urgent(Reason::UNLOCKED))?;
        let heard = car.silence < Figure::SILENCE_END;
        stage.question(2, 6, heard, Ordinary(Reason::CAR_SILENT))?;
        stage.question(1, 6, signals.clear, Ordinary(Reason::CAR_FAULT))?;
        let compatible = view.is_compatible(car);
        stage.question(1, 6, compatible, Ordinary(Reason::INCOMPATIBLE_VOLTAGE))?;
        stage.question(1, 6, signals.parked, Ordinary(Reason::NOT_IN_PARK))?;
        stage.question(2, 6, signals.enabled, Ordinary(Reason::NOT_ENABLED))?;
        stage.question(1, 6, !signals.stop, Ordinary(Reason::STOP_REQUEST))?;
        stage.question(6, 6, signals.closed, Ordinary(Reason::CONTACTOR_OPEN))?;
        stage.question(1, 6, !contacts.stop, Ordinary(Reason::STOP_BUTTON))?;
        stage.question(3, 3, view.insulated, Ordinary(Reason::LOW_INSULATION))?;
        let in_time = stage.age < view.allowed;
        stage.question(1, 5, in_time, Ordinary(Reason::PHASE_TIMEOUT))?;
        let not_over = stage.age < view.time;
        stage.question(6, 6, not_over, Ordinary(Reason::CHARGING_TIME_OVER))
    }
}
