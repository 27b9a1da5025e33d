// The head of a post's state, and what setup asks of it.
ghost use Rattle.std.specs.Prelude.{◌≡◌, ◌≤◌, length};
ghost use Rattle.common.specs.Refusals.{number_of, refusal_of};
ghost use Rattle.post.specs.Heads.{head_size, head_from, head_of, head_bytes};
ghost use Rattle.post.specs.Refusals.{number, head_rows, good_head, HeadTaken};

use super::lengths::MOST_LEADS;
use super::names::Refusal;
use common::{is_between, unless};
use lead::Ratings;
use little_endian::{u16_at, u16_bytes, u32_at, u32_bytes};
use readings::{MeterErrors, is_allowed_resistance};
use setup_numbers::{SetupErrors, SetupNumbers};

// How many leads there are, and what setup fixed for all of them.
#[derive(Clone, Copy)]
pub struct Head {
    pub leads: u8,
    pub ratings: Ratings,
}

impl Head {
    pub const SIZE: usize = 10;

    const LEADS: usize = 0;

    const AMPERES: usize = 1;

    const VOLTS: usize = 2;

    const RESISTANCE: usize = 4;

    const VOLTS_ERROR: usize = 8;

    const AMPERES_ERROR: usize = 9;

    pub(crate) fn read(state: &[u8]) -> Head
        requires { head_size ≤ length state.now }
        ensures { result ≡ head_of state.now }
    {
        Head {
            leads: state[Head::LEADS],
            ratings: Ratings {
                volts: u16_at(state, Head::VOLTS),
                amperes: state[Head::AMPERES],
                resistance: u32_at(state, Head::RESISTANCE),
                errors: MeterErrors {
                    volts: state[Head::VOLTS_ERROR],
                    amperes: state[Head::AMPERES_ERROR],
                },
            },
        }
    }

    pub(crate) fn bytes(self) -> [u8; Head::SIZE]
        ensures { result ≡ head_bytes self }
    {
        let ratings = self.ratings;
        let mut bytes = [0u8; Head::SIZE];
        bytes[Head::LEADS] = self.leads;
        bytes[Head::AMPERES] = ratings.amperes;
        bytes[Head::VOLTS..Head::RESISTANCE].copy_from_slice(&u16_bytes(ratings.volts));
        bytes[Head::RESISTANCE..Head::VOLTS_ERROR].copy_from_slice(&u32_bytes(ratings.resistance));
        bytes[Head::VOLTS_ERROR] = ratings.errors.volts;
        bytes[Head::AMPERES_ERROR] = ratings.errors.amperes;
        bytes
    }

    // Whether setup takes its numbers.
    pub(crate) fn is_good(self) -> bool
        ensures { result ≡ good_head self }
    {
        ask_head(SetupNumbers::from(self)).is_ok()
    }
}

impl From<Head> for SetupNumbers {
    ghost from_gives = { λ head numbers. head_from numbers ≡ head };

    fn from(head: Head) -> SetupNumbers {
        let ratings = head.ratings;
        SetupNumbers {
            leads: u32::from(head.leads),
            volts: u32::from(ratings.volts),
            amperes: u32::from(ratings.amperes),
            resistance: ratings.resistance,
            errors: SetupErrors {
                volts: u32::from(ratings.errors.volts),
                amperes: u32::from(ratings.errors.amperes),
            },
        }
    }
}

impl TryFrom<SetupNumbers> for Head {
    type Error = Refusal;

    ghost try_from_gives = { HeadTaken };

    fn try_from(numbers: SetupNumbers) -> Result<Head, Refusal> {
        ask_head(numbers)?;
        Ok(Head {
            leads: numbers.leads as u8,
            ratings: Ratings {
                volts: numbers.volts as u16,
                amperes: numbers.amperes as u8,
                resistance: numbers.resistance,
                errors: MeterErrors {
                    volts: numbers.errors.volts as u8,
                    amperes: numbers.errors.amperes as u8,
                },
            },
        })
    }
}

// The most that a meter may be off, in tenths.
const MOST_ERROR: u32 = 50;

// Setup's questions but the last.
fn ask_head(numbers: SetupNumbers) -> Result<(), Refusal>
    ensures { number_of number result ≡ refusal_of (head_rows (head_from numbers)) }
{
    unless(is_between(1, MOST_LEADS, numbers.leads), Refusal::Leads)?;
    unless(is_between(50, 500, numbers.volts), Refusal::RatedVolts)?;
    unless(is_between(1, 200, numbers.amperes), Refusal::RatedAmperes)?;
    unless(
        is_allowed_resistance(numbers.resistance),
        Refusal::CableResistance,
    )?;
    unless(
        (numbers.errors.volts <= MOST_ERROR) & (numbers.errors.amperes <= MOST_ERROR),
        Refusal::MeterError,
    )
}
