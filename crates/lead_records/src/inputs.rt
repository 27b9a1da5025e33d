// A lead's input as bytes.
ghost use Rattle.std.specs.Prelude.{◌≡◌, true};
ghost use Rattle.readings.specs.Readings.{allowed_resistance};
ghost use Rattle.lead_records.specs.Inputs.{contacts_of, input_of, good_input};

use frames::HeardFrames;
use lead::{Contacts, Input};
use readings::{judge, reading_from};

// The input's size, the places in it, and the weights in its bytes of bits.
#[derive(Clone, Copy)]
pub struct InputRecord;

impl InputRecord {
    pub const SIZE: usize = 104;

    const CONTACTS: usize = 0;

    const PRESENT: usize = 1;

    const COUNT: usize = 2;

    const ZERO: usize = 3;

    const VOLTS: usize = 4;

    const AMPERES: usize = 8;

    const INSULATION: usize = 12;

    const FRAMES: usize = 16;

    const PLUG: u8 = 1;

    const PERMISSION: u8 = 2;

    const LOCK: u8 = 4;

    const EMERGENCY: u8 = 8;

    const STOP: u8 = 16;

    const START: u8 = 32;

    const LEAKAGE: u8 = 64;

    const CONTACTS_MOST: u8 = 127;

    const PRESENT_VOLTS: u8 = 1;

    const PRESENT_AMPERES: u8 = 2;

    const PRESENT_INSULATION: u8 = 4;

    const PRESENT_MOST: u8 = 7;

    const COUNT_MOST: u8 = 8;

    fn contacts(byte: u8) -> Contacts
        ensures { result ≡ contacts_of byte }
    {
        Contacts {
            plug: byte / InputRecord::PLUG % 2 == 1,
            permission: byte / InputRecord::PERMISSION % 2 == 1,
            lock: byte / InputRecord::LOCK % 2 == 1,
            emergency: byte / InputRecord::EMERGENCY % 2 == 1,
            stop: byte / InputRecord::STOP % 2 == 1,
            start: byte / InputRecord::START % 2 == 1,
            leakage: byte / InputRecord::LEAKAGE % 2 == 1,
        }
    }

    // The resistance is the cable's, as its float's bits.
    pub fn read(bytes: &[u8; InputRecord::SIZE], resistance: u32) -> Input
        requires { allowed_resistance resistance ≡ true }
        ensures { result ≡ input_of bytes.now resistance }
    {
        let present = bytes[InputRecord::PRESENT];
        let count = bytes[InputRecord::COUNT];
        let has_volts = present / InputRecord::PRESENT_VOLTS % 2 == 1;
        let has_amperes = present / InputRecord::PRESENT_AMPERES % 2 == 1;
        let has_insulation = present / InputRecord::PRESENT_INSULATION % 2 == 1;
        let volts = reading_from(&bytes[InputRecord::VOLTS..InputRecord::AMPERES], has_volts);
        let amperes = reading_from(
            &bytes[InputRecord::AMPERES..InputRecord::INSULATION],
            has_amperes,
        );
        Input {
            contacts: InputRecord::contacts(bytes[InputRecord::CONTACTS]),
            reading: judge(volts, amperes, resistance),
            insulation: reading_from(
                &bytes[InputRecord::INSULATION..InputRecord::FRAMES],
                has_insulation,
            ),
            frames: HeardFrames::newest(&bytes[InputRecord::FRAMES..], count),
        }
    }

    // A lead's part of refusal 9.
    #[tactic(auto, unfolding(crate::specs::Inputs::good_input))]
    pub fn is_good(bytes: &[u8; InputRecord::SIZE]) -> bool
        ensures { result ≡ good_input bytes.now }
    {
        (bytes[InputRecord::CONTACTS] <= InputRecord::CONTACTS_MOST)
            & (bytes[InputRecord::PRESENT] <= InputRecord::PRESENT_MOST)
            & (bytes[InputRecord::COUNT] <= InputRecord::COUNT_MOST)
            & (bytes[InputRecord::ZERO] == 0)
    }
}
