// The frames that the post sends: H'108 and H'109, eight data bytes each.
ghost use Rattle.std.specs.Prelude.{◌≡◌};
ghost use Rattle.frames.specs.Sent.{flags_byte, offer_bytes, report_bytes};

use super::times::ChargingTime;
use little_endian::{flag, u16_bytes};

// H'108: rated volts, the amperes on offer, and the threshold voltage (0 before it is kept).
#[derive(Clone, Copy)]
pub struct Offer {
    pub volts: u16,
    pub amperes: u8,
    pub threshold: u16,
}

// H'109: volts at the connector and amperes, the charger's flags and the remaining time.
#[derive(Clone, Copy)]
pub struct Report {
    pub volts: u16,
    pub amperes: u16,
    pub flags: ChargerFlags,
    pub remaining: ChargingTime,
}

// Table A.32's names: charger status, charger malfunction, connector lock, battery incompatibility,
// charging system malfunction, charging stop control.
#[derive(Clone, Copy)]
pub struct ChargerFlags {
    pub charging: bool,
    pub malfunction: bool,
    pub locked: bool,
    pub incompatible: bool,
    pub system: bool,
    pub stopped: bool,
}

impl Offer {
    // Byte 0: welding detection is done.
    const SUPPORTED: u8 = 1;

    #[tactic(auto, unfolding(crate::specs::Sent::offer_bytes))]
    pub fn bytes(self) -> [u8; 8]
        ensures { result ≡ offer_bytes self }
    {
        let [volts_low, volts_high] = u16_bytes(self.volts);
        let [threshold_low, threshold_high] = u16_bytes(self.threshold);
        [
            Offer::SUPPORTED,
            volts_low,
            volts_high,
            self.amperes,
            threshold_low,
            threshold_high,
            0, // The last two bytes are 0.
            0,
        ]
    }
}

impl ChargerFlags {
    // Weights in byte 5 of H'109.
    const CHARGING: u8 = 1;

    const MALFUNCTION: u8 = 2;

    const LOCKED: u8 = 4;

    const INCOMPATIBLE: u8 = 8;

    const SYSTEM: u8 = 16;

    const STOPPED: u8 = 32;

    #[tactic(auto, unfolding(crate::specs::Sent::flags_byte))]
    fn byte(self) -> u8
        ensures { result ≡ flags_byte self }
    {
        flag(self.charging, ChargerFlags::CHARGING)
            + flag(self.malfunction, ChargerFlags::MALFUNCTION)
            + flag(self.locked, ChargerFlags::LOCKED)
            + flag(self.incompatible, ChargerFlags::INCOMPATIBLE)
            + flag(self.system, ChargerFlags::SYSTEM)
            + flag(self.stopped, ChargerFlags::STOPPED)
    }
}

impl Report {
    const PROTOCOL_NUMBER: u8 = 2;

    #[tactic(auto, unfolding(crate::specs::Sent::report_bytes))]
    pub fn bytes(self) -> [u8; 8]
        ensures { result ≡ report_bytes self }
    {
        let [volts_low, volts_high] = u16_bytes(self.volts);
        [
            Report::PROTOCOL_NUMBER,
            volts_low,
            volts_high,
            // At most what one byte holds.
            self.amperes.min(255) as u8,
            0,
            self.flags.byte(),
            self.remaining.tens.0,
            self.remaining.minutes.0,
        ]
    }
}
