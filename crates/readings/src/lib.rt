// The meter board's readings: document 01, 'Readings', as requests 2026-04 and 2026-08 amend it, and question 27.
// Rests on little_endian and common.
// Floats end here: the layers above see tenths, and hold a float only as a reading that they hand back.
#![tactic(auto)]

mod floats;

ghost use Rattle.std.specs.Prelude.{◌≡◌, true, length};
ghost use Rattle.little_endian.specs.Numbers.{u32_at};
ghost use Rattle.readings.specs.Value.{within};
ghost use Rattle.readings.specs.Readings.{reading_of, connector_volts, in_range, in_tenths, judged_measurement, judged_of, of_units, at_most, upper_end, whole_units, insulated, allowed_resistance};

use floats::{float_of, is_within, least_tenth};

// What the correction takes: the resistance is the cable's.
#[derive(Clone, Copy)]
struct Measurement {
    volts: f32,
    amperes: f32,
    resistance: f32,
}

// Tenths of a volt or an ampere (2026-04). Whole volts and amperes are plain numbers.
#[derive(Clone, Copy)]
pub struct Tenths(pub u16);

// A good reading: the volts at the connector and the amperes.
#[derive(Clone, Copy)]
pub struct Measured {
    pub volts: Tenths,
    pub amperes: Tenths,
}

// How far off each meter may be, in tenths (2026-08).
#[derive(Clone, Copy)]
pub struct MeterErrors {
    pub volts: u8,
    pub amperes: u8,
}

// The largest value, in tenths, that a reading stands for by its meter's error (2026-08). It may not fit two bytes.
#[derive(Clone, Copy)]
pub struct UpperEnd(pub u32);

// One value of the meter board, from the float's four bytes: `None` is a missing reading, whose present bit is clear in the input.
pub fn reading_from(bytes: &[u8], present: bool) -> Option<f32>
    requires { length bytes.now ≡ 4 }
    ensures { result ≡ reading_of present (u32_at bytes.now 0) }
{
    if present {
        Some(float_of(little_endian::u32_at(bytes, 0)))
    } else {
        None
    }
}

impl Tenths {
    // So many to a volt and to an ampere.
    pub const PER_UNIT: u16 = 10;

    // By the error of the meter, in tenths.
    pub fn upper_end(self, error: u8) -> UpperEnd
        ensures { result ≡ upper_end (record { tenths = self; error = error }) }
    {
        UpperEnd(u32::from(self.0) + u32::from(error))
    }

    // Whole volts or amperes, rounded up.
    pub fn whole_units(self) -> u16
        ensures { result ≡ whole_units self }
    {
        self.0.div_ceil(Tenths::PER_UNIT)
    }
}

// What is judged of a reading: where the upper end passes, each value does that the reading stands for.
impl UpperEnd {
    pub fn is_at_most(self, most: Tenths) -> bool
        ensures { result ≡ at_most self most }
    {
        // Kept, here and below: an upper end and what it is compared with are two types, which no derived order compares.
        self.0 <= u32::from(most.0)
    }

    // The limit is in whole volts or amperes. In tenths it may not fit two bytes.
    pub fn is_at_most_units(self, units: u16) -> bool
        ensures { result ≡ at_most self (of_units units) }
    {
        self.0 <= u32::from(Tenths::PER_UNIT) * u32::from(units)
    }
}

impl Measurement {
    fn connector_volts(self) -> f32
        ensures { result ≡ connector_volts self }
    {
        let drop = self.resistance * self.amperes;
        let volts = self.volts - drop;
        // Kept: of 0 and minus zero `f32::max` may give either, and the rule `connector_volts` says which.
        if volts < 0.0 { 0.0 } else { volts }
    }

    fn is_in_range(self) -> bool
        ensures { result ≡ in_range self }
    {
        is_within(self.volts, 1000) & is_within(self.amperes, 400)
    }

    fn in_tenths(self) -> Measured
        requires { (in_range self ≡ true) × (within 1 self.resistance ≡ true) }
        ensures { result ≡ in_tenths self }
    {
        Measured {
            volts: least_tenth(self.connector_volts()),
            amperes: least_tenth(self.amperes),
        }
    }

    fn judged(self) -> Option<Measured>
        requires { within 1 self.resistance ≡ true }
        ensures { result ≡ judged_measurement self }
    {
        if self.is_in_range() {
            Some(self.in_tenths())
        } else {
            None
        }
    }
}

// Kept: that the resistance is allowed stands in this contract and in those above it, as a head has any four bytes for it (`head_of`), of which
// refusals 4 and 6 ask first.
// `None` is a bad reading. The resistance is the cable's, as the float's bits that setup is given and the state keeps.
pub fn judge(volts: Option<f32>, amperes: Option<f32>, resistance: u32) -> Option<Measured>
    requires { allowed_resistance resistance ≡ true }
    ensures { result ≡ judged_of volts amperes resistance }
{
    let m = Measurement {
        volts: volts?,
        amperes: amperes?,
        resistance: float_of(resistance),
    };
    m.judged()
}

// Question 27, of the insulation resistance in ohms.
pub fn is_insulated(threshold: u16, insulation: Option<f32>) -> bool
    ensures { result ≡ insulated threshold insulation }
{
    let least = (100 * u32::from(threshold)) as f32;
    insulation.is_none_or(|ohms| least <= ohms)
}

// Setup's question 4, asked of the float's bits.
pub fn is_allowed_resistance(resistance: u32) -> bool
    ensures { result ≡ allowed_resistance resistance }
{
    is_within(float_of(resistance), 1)
}
