// The frames that a car sends, H'100, H'101 and H'102: where their values stand in a record.
ghost use Rattle.std.specs.Prelude.{◌≡◌};
ghost use Rattle.frames.specs.Heard.{battery_in, time_in, status_in, signals_of};

use super::records::FrameRecord;
use super::times::{ChargingTime, Minutes, TensOfSeconds};
use little_endian::u16_at;

// H'100: maximum battery voltage, in volts.
pub(crate) struct BatteryFrame;

// H'101: maximum charging time.
pub(crate) struct TimeFrame;

// H'102: the vehicle's status.
pub(crate) struct StatusFrame;

// Target voltage, requested amperes, and the two bytes of bits as they came.
#[derive(Clone, Copy)]
pub struct VehicleStatus {
    pub target: u16,
    pub request: u8,
    pub faults: u8,
    pub flags: u8,
}

// What the bits say: faults and system fault clear, charging enabled, in park, contactor closed, stop requested.
#[derive(Clone, Copy)]
pub struct VehicleSignals {
    pub clear: bool,
    pub enabled: bool,
    pub parked: bool,
    pub closed: bool,
    pub stop: bool,
}

impl BatteryFrame {
    pub(crate) const IDENTIFIER: u16 = 0x100;

    const MAXIMUM_VOLTAGE: usize = 4;

    pub(crate) fn read(frame: &[u8; FrameRecord::SIZE]) -> u16
        ensures { result ≡ battery_in frame.now }
    {
        u16_at(frame, FrameRecord::DATA + BatteryFrame::MAXIMUM_VOLTAGE)
    }
}

impl TimeFrame {
    pub(crate) const IDENTIFIER: u16 = 0x101;

    const TENS_OF_SECONDS: usize = 1;

    const MINUTES: usize = 2;

    pub(crate) fn read(frame: &[u8; FrameRecord::SIZE]) -> ChargingTime
        ensures { result ≡ time_in frame.now }
    {
        ChargingTime {
            tens: TensOfSeconds(frame[FrameRecord::DATA + TimeFrame::TENS_OF_SECONDS]),
            minutes: Minutes(frame[FrameRecord::DATA + TimeFrame::MINUTES]),
        }
    }
}

impl StatusFrame {
    pub(crate) const IDENTIFIER: u16 = 0x102;

    const TARGET_VOLTAGE: usize = 1;

    const REQUESTED_AMPERES: usize = 3;

    const FAULTS: usize = 4;

    const STATUS: usize = 5;

    pub(crate) fn read(frame: &[u8; FrameRecord::SIZE]) -> VehicleStatus
        ensures { result ≡ status_in frame.now }
    {
        VehicleStatus {
            target: u16_at(frame, FrameRecord::DATA + StatusFrame::TARGET_VOLTAGE),
            request: frame[FrameRecord::DATA + StatusFrame::REQUESTED_AMPERES],
            faults: frame[FrameRecord::DATA + StatusFrame::FAULTS],
            flags: frame[FrameRecord::DATA + StatusFrame::STATUS],
        }
    }
}

impl VehicleStatus {
    // The lowest bit of the faults byte that is no fault: bits 0 to 4 are.
    const PAST_FAULTS: u8 = 32;

    const ENABLED: u8 = 1;

    const NOT_IN_PARK: u8 = 2;

    const SYSTEM_FAULT: u8 = 4;

    const CONTACTOR_OPEN: u8 = 8;

    const STOP_REQUEST: u8 = 16;

    #[tactic(auto, unfolding(crate::specs::Heard::signals_of))]
    pub fn signals(self) -> VehicleSignals
        ensures { result ≡ signals_of self }
    {
        let faults = self.faults;
        let flags = self.flags;
        VehicleSignals {
            clear: (faults % VehicleStatus::PAST_FAULTS == 0)
                & !(flags / VehicleStatus::SYSTEM_FAULT % 2 == 1),
            enabled: flags / VehicleStatus::ENABLED % 2 == 1,
            parked: !(flags / VehicleStatus::NOT_IN_PARK % 2 == 1),
            closed: !(flags / VehicleStatus::CONTACTOR_OPEN % 2 == 1),
            stop: flags / VehicleStatus::STOP_REQUEST % 2 == 1,
        }
    }
}
