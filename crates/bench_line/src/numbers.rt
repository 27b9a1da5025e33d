// Fields that are numbers, and hex in pairs of digits.
ghost use Rattle.std.specs.Prelude.{◌≡◌, true, length, get_or};
ghost use Rattle.std.specs.List.{list_all};
ghost use Rattle.common.specs.Texts.{is_digit};
ghost use Rattle.bench_line.specs.Digits.{decimal_of, bits_of, is_pairs, bytes_of, padded};

use common::{digit_value, number_in};

pub(crate) fn decimal(field: &[u8]) -> Option<u32>
    ensures { result ≡ decimal_of field.now }
{
    if field.is_empty() {
        return None;
    }
    number_in(field, 10, 65535)
}

pub(crate) fn bits(field: &[u8]) -> Option<u32>
    ensures { result ≡ bits_of field.now }
{
    if field.len() != 8 {
        return None;
    }
    number_in(field, 16, u32::MAX)
}

// The library's test, not `digit_value`, by whose value each character would be asked once more: a tick of four leads took 1.7 times as long.
fn are_digits(hex: &[u8]) -> bool
    ensures { result ≡ list_all (λ c. is_digit 16 c) hex.now }
{
    hex.iter().all(|c| c.is_ascii_hexdigit())
}

pub(crate) fn are_pairs(hex: &[u8]) -> bool
    ensures { result ≡ is_pairs hex.now }
{
    hex.len() % 2 == 0 && are_digits(hex)
}

// The byte of the pair with that number, 0 where there is none.
fn byte_at(hex: &[u8], pair: usize) -> u8
    requires { is_pairs hex.now ≡ true }
    ensures { result ≡ get_or (bytes_of hex.now) pair 0 }
{
    if hex.len() / 2 <= pair {
        return 0;
    }
    let at = 2 * pair;
    16 * digit_value(hex[at]) + digit_value(hex[at + 1])
}

// The bytes that the hex says, 0 behind them.
pub(crate) fn write_bytes(hex: &[u8], input: &mut [u8])
    requires { is_pairs hex.now ≡ true }
    ensures { input.new ≡ padded (length input.old) (bytes_of hex.now) }
{
    for (pair, byte) in input.iter_mut().enumerate() {
        *byte = byte_at(hex, pair);
    }
}
