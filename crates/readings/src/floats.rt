// Floats by their bits: from bits, in a range, and the least whole tenth not below.
ghost use Rattle.std.specs.Prelude.{◌≡◌, true};
ghost use Rattle.std.specs.Float.{binary32};
ghost use Rattle.std.specs.Float.Ieee.{of_bits};
ghost use Rattle.readings.specs.Value.{within, least};
ghost use Rattle.readings.specs.Readings.{tenths};

use super::Tenths;

// `from_bits` takes no pattern of a NaN: each becomes the one NaN.
pub(crate) fn float_of(bits: u32) -> f32
    ensures { result ≡ of_bits binary32 bits }
{
    if 0x7f80_0000 < bits % 0x8000_0000 {
        f32::NAN
    } else {
        f32::from_bits(bits)
    }
}

pub(crate) fn is_within(x: f32, top: u16) -> bool
    ensures { result ≡ within top x }
{
    // Kept: `contains` of a range is no plainer, and asks `partial_cmp`, up to three comparisons for each end.
    (0.0 <= x) & (x <= f32::from(top))
}

// Bits below these, which are those of 1 / 128, stand for less than a tenth.
const BITS_OF_A_128TH: u32 = 120 * 0x80_0000;

// By the exponent and fraction fields: ten times the value is worked out exactly, in whole numbers.
pub(crate) fn least_tenth(x: f32) -> Tenths
    requires { within 1000 x ≡ true }
    ensures { result ≡ tenths (least x) }
{
    let bits = x.to_bits();
    let magnitude = bits % 0x8000_0000;
    if magnitude < BITS_OF_A_128TH {
        return if magnitude == 0 { Tenths(0) } else { Tenths(1) };
    }
    let exponent = magnitude / 0x80_0000;
    let significand = 0x80_0000 + bits % 0x80_0000;
    let tenths = u32::from(Tenths::PER_UNIT) * significand;
    Tenths(tenths.div_ceil(1 << (150 - exponent)) as u16)
}
