// A lead's output as bytes: what it shows after a tick, and the two frames that the post sends.
ghost use Rattle.std.specs.Prelude.{◌≡◌, ◌++◌, length};
ghost use Rattle.frames.specs.Sent.{offer_bytes, report_bytes};
ghost use Rattle.lead_records.specs.Outputs.{output_size, frames_size, switches, test_volts, offer_of, flags_of, remaining_of, shown_reading, report_of, while_sending, output_of};

use super::turns::Turn;
use frames::{ChargerFlags, ChargingTime, Minutes, Offer, Report, TensOfSeconds, Ticks};
use lead::{Lead, Phase, Ratings, Reason, Stage};
use little_endian::u16_bytes;
use readings::Measured;

// The output's size, the places in it, and the weights in its byte of switches.
#[derive(Clone, Copy)]
pub struct OutputRecord;

// Volts and amperes as H'109 shows them, whole.
#[derive(Clone, Copy)]
struct ShownReading {
    volts: u16,
    amperes: u16,
}

impl OutputRecord {
    pub const SIZE: usize = 24;

    // The two frames.
    const OFFER: usize = 8;

    const REPORT: usize = 16;

    // The relays d1 and d2, the lock, and whether frames are to be sent.
    const D1: u8 = 1;

    const D2: u8 = 2;

    const LOCK: u8 = 4;

    const FRAMES: u8 = 8;

    // Kept: a table of the document under its phase numbers. No step is run by it.
    #[tactic(auto, unfolding(crate::specs::Outputs::switches))]
    fn switches(phase: u8) -> u8
        ensures { result ≡ switches phase }
    {
        match phase {
            1 => OutputRecord::D1 + OutputRecord::FRAMES,
            2..=4 => OutputRecord::D1 + OutputRecord::LOCK + OutputRecord::FRAMES,
            5..=8 => OutputRecord::D1
                + OutputRecord::D2
                + OutputRecord::LOCK
                + OutputRecord::FRAMES,
            9 => OutputRecord::LOCK + OutputRecord::FRAMES,
            _ => 0,
        }
    }

    #[tactic(auto, unfolding(crate::specs::Outputs::test_volts))]
    fn test_volts(lead: Lead) -> u16
        ensures { result ≡ test_volts lead }
    {
        if lead.stage.phase == Phase::INSULATION_TEST {
            return lead.threshold;
        }
        0
    }

    #[tactic(auto, unfolding(crate::specs::Outputs::flags_of))]
    fn flags(lock: bool, stage: Stage) -> ChargerFlags
        ensures { result ≡ flags_of lock stage.phase stage.reason }
    {
        let reason = stage.reason;
        let charging = stage.is_between(Phase::CHARGING, Phase::RAMP_DOWN);
        let stopped = stage.phase != Phase::CHARGING;
        // Most leads show no reason, and then none of its three flags.
        if reason == Reason::NONE {
            return ChargerFlags {
                charging,
                malfunction: false,
                locked: lock,
                incompatible: false,
                system: false,
                stopped,
            };
        }
        ChargerFlags {
            charging,
            malfunction: (reason == Reason::GROUND_FAULT)
                | ((Reason::BAD_READING <= reason) & (reason <= Reason::UNLOCKED))
                | (reason == Reason::LOW_INSULATION),
            locked: lock,
            incompatible: reason == Reason::INCOMPATIBLE_VOLTAGE,
            system: (reason == Reason::CAR_SILENT) | (reason == Reason::PHASE_TIMEOUT),
            stopped,
        }
    }

    #[tactic(auto, unfolding(crate::specs::Outputs::remaining_of))]
    fn remaining(lead: Lead) -> ChargingTime
        ensures { result ≡ remaining_of lead }
    {
        let stage = lead.stage;
        let time = lead.car.time.value;
        if stage.phase == Phase::CHARGING {
            return time.remaining(Ticks(stage.age));
        }
        if stage.is_between(Phase::LOCKING, Phase::CHARGING) {
            return time.remaining(Ticks(0));
        }
        ChargingTime {
            tens: TensOfSeconds(0),
            minutes: Minutes(0),
        }
    }

    fn shown_reading(reading: Option<Measured>) -> ShownReading
        ensures { result ≡ shown_reading reading }
    {
        match reading {
            Some(Measured { volts, amperes }) => ShownReading {
                volts: volts.whole_units(),
                amperes: amperes.whole_units(),
            },
            None => ShownReading {
                volts: 0,
                amperes: 0,
            },
        }
    }

    // H'108, at the tick's level.
    fn offer(ratings: Ratings, level: u32, lead: Lead) -> [u8; 8]
        ensures { result ≡ offer_bytes (offer_of ratings level lead) }
    {
        let offer = Offer {
            volts: ratings.volts,
            amperes: lead.offered(ratings, level),
            threshold: lead.threshold,
        };
        offer.bytes()
    }

    // H'109.
    #[tactic(auto, unfolding(crate::specs::Outputs::report_of))]
    fn report(turn: Turn) -> [u8; 8]
        ensures { result ≡ report_bytes (report_of turn.lock turn.reading turn.lead) }
    {
        let lead = turn.lead;
        let shown = OutputRecord::shown_reading(turn.reading);
        let report = Report {
            volts: shown.volts,
            amperes: shown.amperes,
            flags: OutputRecord::flags(turn.lock, lead.stage),
            remaining: OutputRecord::remaining(lead),
        };
        report.bytes()
    }

    // H'108 and H'109, zeros where none is sent.
    fn write_frames(ratings: Ratings, level: u32, turn: Turn, frames: &mut [u8])
        requires { length frames.old ≡ frames_size }
        ensures { frames.new ≡ while_sending turn.lead.stage.phase (offer_bytes (offer_of ratings level turn.lead))
            ++ while_sending turn.lead.stage.phase (report_bytes (report_of turn.lock turn.reading turn.lead)) }
    {
        let sending = turn
            .lead
            .stage
            .is_between(Phase::HANDSHAKE, Phase::FINAL_DISCHARGE);
        if sending {
            let offer = OutputRecord::offer(ratings, level, turn.lead);
            let report = OutputRecord::report(turn);
            frames[..OutputRecord::REPORT - OutputRecord::OFFER].copy_from_slice(&offer);
            frames[OutputRecord::REPORT - OutputRecord::OFFER..].copy_from_slice(&report);
            return;
        }
        frames.copy_from_slice(&[0u8; OutputRecord::SIZE - OutputRecord::OFFER]);
    }

    // Of a turn whose lead has its command, at the tick's level.
    // Kept: a slice and its length, as with `put` of receiver: a part of a lent slice that is made an array leaves no fact of the whole.
    pub fn write(ratings: Ratings, level: u32, turn: Turn, output: &mut [u8])
        requires { length output.old ≡ output_size }
        ensures { output.new ≡ output_of ratings level turn.lock turn.reading turn.lead }
    {
        let lead = turn.lead;
        let phase = lead.stage.phase;
        let [test_low, test_high] = u16_bytes(OutputRecord::test_volts(lead));
        // The last two are 0.
        let shown = [
            phase,
            lead.stage.reason,
            lead.command,
            OutputRecord::switches(phase),
            test_low,
            test_high,
            0,
            0,
        ];
        output[..OutputRecord::OFFER].copy_from_slice(&shown);
        OutputRecord::write_frames(ratings, level, turn, &mut output[OutputRecord::OFFER..]);
    }
}
