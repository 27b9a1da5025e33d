// What several crates use and no paper speaks of: tests on numbers, records of one size in a list of bytes, what a call asks before it
// does anything, and digits and fields of a text. Most of it is rules and laws. Rests on nothing.
#![tactic(auto)]

mod refusals;

ghost use Rattle.std.specs.Prelude.{◌≡◌, ◌≤◌};
ghost use Rattle.common.specs.Tests.{between};
ghost use Rattle.common.specs.Texts.{digit_value, number_in};

pub use refusals::{Numbered, answered, unless};

// Kept: two comparisons, as the rule `between` has them; `contains` of a range is no plainer, and asks `partial_cmp` for each end.
pub fn is_between(first: u32, last: u32, number: u32) -> bool
    ensures { result ≡ between first last number }
{
    (first <= number) & (number <= last)
}

// The value of a hex digit in either case, 16 for a character that is none.
// Kept: 16 and no `Option`, as the definition `digit_value` has it, with which every base is compared.
pub fn digit_value(character: u8) -> u8
    ensures { result ≡ digit_value character }
{
    match character {
        b'0'..=b'9' => character - b'0',
        b'A'..=b'F' => character - b'A' + 10,
        b'a'..=b'f' => character - b'a' + 10,
        _ => 16,
    }
}

// Digits of a base, and the number that they say, if it is at most that much. No digits at all say 0.
pub fn number_in(digits: &[u8], base: u8, most: u32) -> Option<u32>
    requires { base ≤ 16 }
    ensures { result ≡ number_in base most digits.now }
{
    let mut value: u64 = 0;
    for &character in digits {
        let digit = digit_value(character);
        if base <= digit {
            return None;
        }
        value = u64::from(base) * value + u64::from(digit);
        if u64::from(most) < value {
            return None;
        }
    }
    Some(value as u32)
}
