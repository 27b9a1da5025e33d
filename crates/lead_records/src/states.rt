// A lead's state as bytes.
ghost use Rattle.std.specs.Prelude.{◌≡◌, drop};
ghost use Rattle.lead.specs.Leads.{fresh, with_car};
ghost use Rattle.lead_records.specs.States.{spare_from, decode, seen_byte, encode, all_zero, good_state};

use frames::{ChargingTime, Minutes, TensOfSeconds, VehicleStatus};
use lead::{Car, Known, Lead, Ratings, Stage};
use little_endian::{flag, u16_at, u16_bytes, u32_at, u32_bytes, u64_at, u64_bytes};

// The state's size, the places in it, and the weights in its byte of frames seen.
#[derive(Clone, Copy)]
pub struct StateRecord;

impl StateRecord {
    pub const SIZE: usize = 32;

    const PHASE: usize = 0;

    const REASON: usize = 1;

    const COMMAND: usize = 2;

    const REQUEST: usize = 3;

    const FAULTS: usize = 4;

    const FLAGS: usize = 5;

    const SILENCE: usize = 6;

    const SEEN: usize = 7;

    const THRESHOLD: usize = 8;

    const MAXIMUM: usize = 10;

    const TARGET: usize = 12;

    const TENS: usize = 14;

    const MINUTES: usize = 15;

    const AGE: usize = 16;

    const ENERGY: usize = 20;

    // Bytes from here on are spare.
    const SPARE: usize = 28;

    // H'100, H'101, H'102.
    const SEEN_BATTERY: u8 = 1;

    const SEEN_TIME: u8 = 2;

    const SEEN_STATUS: u8 = 4;

    const SEEN_MOST: u8 = 7;

    #[tactic(auto, unfolding(crate::specs::States::decode))]
    pub fn read(bytes: &[u8; StateRecord::SIZE]) -> Lead
        ensures { result ≡ decode bytes.now }
    {
        Lead {
            stage: Stage {
                phase: bytes[StateRecord::PHASE],
                reason: bytes[StateRecord::REASON],
                age: u32_at(bytes, StateRecord::AGE),
            },
            energy: u64_at(bytes, StateRecord::ENERGY),
            command: bytes[StateRecord::COMMAND],
            threshold: u16_at(bytes, StateRecord::THRESHOLD),
            car: StateRecord::read_car(bytes),
        }
    }

    #[tactic(auto, unfolding(crate::specs::States::decode))]
    fn read_car(bytes: &[u8; StateRecord::SIZE]) -> Car
        ensures { result ≡ (decode bytes.now).car }
    {
        let seen = bytes[StateRecord::SEEN];
        Car {
            battery: Known {
                seen: seen / StateRecord::SEEN_BATTERY % 2 == 1,
                value: u16_at(bytes, StateRecord::MAXIMUM),
            },
            time: Known {
                seen: seen / StateRecord::SEEN_TIME % 2 == 1,
                value: ChargingTime {
                    tens: TensOfSeconds(bytes[StateRecord::TENS]),
                    minutes: Minutes(bytes[StateRecord::MINUTES]),
                },
            },
            status: Known {
                seen: seen / StateRecord::SEEN_STATUS % 2 == 1,
                value: VehicleStatus {
                    target: u16_at(bytes, StateRecord::TARGET),
                    request: bytes[StateRecord::REQUEST],
                    faults: bytes[StateRecord::FAULTS],
                    flags: bytes[StateRecord::FLAGS],
                },
            },
            silence: bytes[StateRecord::SILENCE],
        }
    }

    pub fn bytes(lead: Lead) -> [u8; StateRecord::SIZE]
        ensures { result ≡ encode lead }
    {
        let stage = lead.stage;
        let mut bytes = StateRecord::car_bytes(lead.car);
        bytes[StateRecord::PHASE] = stage.phase;
        bytes[StateRecord::REASON] = stage.reason;
        bytes[StateRecord::COMMAND] = lead.command;
        bytes[StateRecord::THRESHOLD..StateRecord::MAXIMUM].copy_from_slice(&u16_bytes(
            lead.threshold,
        ));
        bytes[StateRecord::AGE..StateRecord::ENERGY].copy_from_slice(&u32_bytes(stage.age));
        bytes[StateRecord::ENERGY..StateRecord::SPARE].copy_from_slice(&u64_bytes(lead.energy));
        bytes
    }

    // The bytes of a lead that is fresh but for what it knows of the car.
    #[tactic(auto, unfolding(crate::specs::States::encode))]
    fn car_bytes(car: Car) -> [u8; StateRecord::SIZE]
        ensures { result ≡ encode (with_car car fresh) }
    {
        let status = car.status.value;
        let time = car.time.value;
        let mut bytes = [0u8; StateRecord::SIZE];
        bytes[StateRecord::REQUEST] = status.request;
        bytes[StateRecord::FAULTS] = status.faults;
        bytes[StateRecord::FLAGS] = status.flags;
        bytes[StateRecord::SILENCE] = car.silence;
        bytes[StateRecord::SEEN] = StateRecord::seen(car);
        bytes[StateRecord::MAXIMUM..StateRecord::TARGET].copy_from_slice(&u16_bytes(
            car.battery.value,
        ));
        bytes[StateRecord::TARGET..StateRecord::TENS].copy_from_slice(&u16_bytes(status.target));
        bytes[StateRecord::TENS] = time.tens.0;
        bytes[StateRecord::MINUTES] = time.minutes.0;
        bytes
    }

    fn seen(car: Car) -> u8
        ensures { result ≡ seen_byte car }
    {
        flag(car.battery.seen, StateRecord::SEEN_BATTERY)
            + flag(car.time.seen, StateRecord::SEEN_TIME)
            + flag(car.status.seen, StateRecord::SEEN_STATUS)
    }

    // A lead's part of refusal 6.
    #[tactic(auto, unfolding(crate::specs::States::good_state))]
    pub fn is_good(bytes: &[u8; StateRecord::SIZE], ratings: Ratings) -> bool
        ensures { result ≡ good_state ratings bytes.now }
    {
        let lead = StateRecord::read(bytes);
        (bytes[StateRecord::SEEN] <= StateRecord::SEEN_MOST)
            & is_spare_zero(bytes)
            & lead.is_good(ratings)
    }
}

// The four spare bytes, as one number.
fn is_spare_zero(bytes: &[u8; StateRecord::SIZE]) -> bool
    ensures { result ≡ all_zero (drop spare_from bytes.now) }
{
    u32_at(bytes, StateRecord::SPARE) == 0
}
