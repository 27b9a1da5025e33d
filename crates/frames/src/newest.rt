// The frames of a tick that count: of each kind the newest, found in one pass over the records.
ghost use Rattle.std.specs.Prelude.{◌≡◌, Some, cond};
ghost use Rattle.frames.specs.Records.{is_frame};
ghost use Rattle.frames.specs.Heard.{battery_in, time_in, status_in, newest_frames};

use super::heard::{BatteryFrame, StatusFrame, TimeFrame, VehicleStatus};
use super::records::FrameRecord;
use super::times::ChargingTime;
use little_endian::u16_at;

// What H'100, H'101 and H'102 said; None where none counted.
#[derive(Clone, Copy)]
pub struct HeardFrames {
    pub battery: Option<u16>,
    pub time: Option<ChargingTime>,
    pub status: Option<VehicleStatus>,
}

impl HeardFrames {
    // Kept: a count beside the records, since the input has room for eight and says how many of them count (`newest_frames`).
    pub fn newest(records: &[u8], count: u8) -> HeardFrames
        ensures { result ≡ newest_frames count records.now }
    {
        let mut heard = HeardFrames {
            battery: None,
            time: None,
            status: None,
        };
        let (frames, _) = records.as_chunks();
        for frame in frames.iter().take(usize::from(count)) {
            heard = heard.with(frame);
        }
        heard
    }

    // The same with a further record, which is the newest of its kind.
    #[tactic(auto, unfolding(crate::specs::Records::is_frame))]
    fn with(self, frame: &[u8; FrameRecord::SIZE]) -> HeardFrames
        ensures battery { result.battery ≡ cond (is_frame 0x100 frame.now) (Some (battery_in frame.now)) self.battery }
        ensures time { result.time ≡ cond (is_frame 0x101 frame.now) (Some (time_in frame.now)) self.time }
        ensures status { result.status ≡ cond (is_frame 0x102 frame.now) (Some (status_in frame.now)) self.status }
    {
        if frame[FrameRecord::LENGTH] != FrameRecord::DATA_SIZE {
            return self;
        }
        match u16_at(frame, FrameRecord::IDENTIFIER) {
            BatteryFrame::IDENTIFIER => HeardFrames {
                battery: Some(BatteryFrame::read(frame)),
                ..self
            },
            TimeFrame::IDENTIFIER => HeardFrames {
                time: Some(TimeFrame::read(frame)),
                ..self
            },
            StatusFrame::IDENTIFIER => HeardFrames {
                status: Some(StatusFrame::read(frame)),
                ..self
            },
            _ => self,
        }
    }
}
