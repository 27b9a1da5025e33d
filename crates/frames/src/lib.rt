// CAN frames of document 01, 'Frames', laid out as IEEE 2030.1.1 does (source document 001, Tables A.31 and A.32):
// the three that a car sends, read, and the two that the post sends, as bytes. Rests on little_endian and common.
#![tactic(auto)]

mod heard;
mod newest;
mod records;
mod sent;
mod times;

pub use heard::{VehicleSignals, VehicleStatus};
pub use newest::HeardFrames;
pub use records::FrameRecord;
pub use sent::{ChargerFlags, Offer, Report};
pub use times::{ChargingTime, Minutes, TensOfSeconds, Ticks};
