// One lead: its conversation with the car, tick by tick, the amperes that it wants, and the energy that it counts. By value: bytes stand in lead_records.
// Rests on readings, frames and common, and knows nothing of other leads.
#![tactic(auto)]

mod figures;
mod good;
mod hearing;
mod moves;
mod names;
mod power;
mod questions;
mod state;

pub use names::{Phase, Reason};
pub use questions::{Meter, Stop, View};
pub use state::{Car, Contacts, HeardLead, Input, Known, Lead, Ratings, Stage};
