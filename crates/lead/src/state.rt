// What a lead remembers, what setup fixed for it, and what it is given in a tick.
ghost use Rattle.std.specs.Prelude.{◌≡◌};
ghost use Rattle.common.specs.Tests.{between};
ghost use Rattle.lead.specs.Leads.{blank, fresh};

use super::names::{Phase, Reason};
use common::is_between;
use frames::{ChargingTime, HeardFrames, Minutes, TensOfSeconds, VehicleStatus};
use readings::{Measured, MeterErrors};

// Rated volts and amperes, the cable resistance as its float's bits, and the meters' errors.
#[derive(Clone, Copy)]
pub struct Ratings {
    pub volts: u16,
    pub amperes: u8,
    pub resistance: u32,
    pub errors: MeterErrors,
}

// Energy is what was commanded since the start, in watt-ticks; command is in amperes; the threshold voltage is 0 until it is kept.
// Kept: that 0 and no `Option`, as any two bytes are read for it and given back (`decode`, `good_threshold`).
#[derive(Clone, Copy)]
pub struct Lead {
    pub stage: Stage,
    pub energy: u64,
    pub command: u8,
    pub threshold: u16,
    pub car: Car,
}

// A lead that has heard the tick's frames: what questions and moves look at.
#[derive(Clone, Copy)]
pub struct HeardLead {
    pub lead: Lead,
}

// Where the conversation stands: the phase, the stop reason that is shown, and the earlier ticks in the phase.
#[derive(Clone, Copy)]
pub struct Stage {
    pub phase: u8,
    pub reason: u8,
    pub age: u32,
}

// What the car's frames said, H'100 with its maximum battery voltage in volts, H'101 and H'102, and for how many ticks no H'102 has come.
#[derive(Clone, Copy)]
pub struct Car {
    pub battery: Known<u16>,
    pub time: Known<ChargingTime>,
    pub status: Known<VehicleStatus>,
    pub silence: u8,
}

// What a kind of frame said, and whether one was heard since the start.
// Kept: a flag beside a value, as a state handed in with the flag clear and a value in its bytes keeps that value: `decode_encode` and
// `encode_decode` of lead_records, and `StateRecord::read`, which takes any 32 bytes.
#[derive(Clone, Copy)]
pub struct Known<T> {
    pub seen: bool,
    pub value: T,
}

// Closed or pressed. `permission` is the charge permission, `leakage` the ground fault (document 01: leak trip).
#[derive(Clone, Copy)]
pub struct Contacts {
    pub plug: bool,
    pub permission: bool,
    pub lock: bool,
    pub emergency: bool,
    pub stop: bool,
    pub start: bool,
    pub leakage: bool,
}

// A tick's input: contacts, the meter's volts and amperes judged, insulation resistance in ohms, and the frames that count.
#[derive(Clone, Copy)]
pub struct Input {
    pub contacts: Contacts,
    pub reading: Option<Measured>,
    pub insulation: Option<f32>,
    pub frames: HeardFrames,
}

impl Stage {
    // The phase is one of these, ends included.
    pub fn is_between(self, first: u8, last: u8) -> bool
        ensures { result ≡ between first last self.phase }
    {
        is_between(u32::from(first), u32::from(last), u32::from(self.phase))
    }
}

impl Lead {
    // A lead that remembers nothing, in some phase.
    pub(crate) fn blank(phase: u8) -> Lead
        ensures { result ≡ blank phase }
    {
        Lead {
            stage: Stage {
                phase,
                reason: Reason::NONE,
                age: 0,
            },
            energy: 0,
            command: 0,
            threshold: 0,
            car: Car {
                battery: Known {
                    seen: false,
                    value: 0,
                },
                time: Known {
                    seen: false,
                    value: ChargingTime {
                        tens: TensOfSeconds(0),
                        minutes: Minutes(0),
                    },
                },
                status: Known {
                    seen: false,
                    value: VehicleStatus {
                        target: 0,
                        request: 0,
                        faults: 0,
                        flags: 0,
                    },
                },
                silence: 0,
            },
        }
    }

    // As setup leaves it.
    pub fn fresh() -> Lead
        ensures { result ≡ fresh }
    {
        Lead::blank(Phase::IDLE)
    }
}
