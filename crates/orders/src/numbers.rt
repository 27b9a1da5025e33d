// Numbers in a text, each up to the tab or the line feed that ends its field. A text is gone through once: of a line that is no order nothing
// is looked at behind the field that shows it, and of a field nothing behind a character that no number has or a digit too many.
ghost use Rattle.std.specs.Prelude.{◌≡◌, ◌≤◌, length, IfSome};
ghost use Rattle.orders.specs.Numbers.{is_plain};
ghost use Rattle.orders.specs.Scans.{is_mark, digits_from, number_at};

use common::digit_value;

pub(crate) const TAB: u8 = b'\t';

pub(crate) const LINE_FEED: u8 = b'\n';

// Whether a field ends here.
#[tactic(auto, unfolding(crate::specs::Scans::is_mark))]
fn is_mark(character: u8) -> bool
    ensures { result ≡ is_mark character }
{
    (character == TAB) | (character == LINE_FEED)
}

// Decimal digits, also none, up to the end of their field: the number that they say, and how many they are.
// Kept: this is not `number_in` of `common`, which takes a field that was cut out before, so that a long line would be gone through to its end.
fn digits(text: &[u8]) -> Option<(u32, usize)>
    ensures { result ≡ digits_from 0 0 text.now }
{
    let mut value: u64 = 0;
    for (i, &character) in text.iter().enumerate() {
        let digit = digit_value(character);
        if 9 < digit {
            if is_mark(character) {
                return Some((value as u32, i));
            }
            return None;
        }
        value = 10 * value + u64::from(digit);
        if u64::from(u32::MAX) < value {
            return None;
        }
    }
    Some((value as u32, text.len()))
}

// Whether there is a character, and the first one is no needless zero.
fn is_plain(field: &[u8]) -> bool
    ensures { result ≡ is_plain field.now }
{
    match field {
        [] | [b'0', _, ..] => false,
        _ => true,
    }
}

// The number whose field begins a text, and the field's length.
pub(crate) fn number(text: &[u8]) -> Option<(u32, usize)>
    ensures number { result ≡ number_at text.now }
    ensures inside { IfSome result (λ x. x.1 ≤ length text.now) }
{
    let (value, length) = digits(text)?;
    if !is_plain(&text[..length]) {
        return None;
    }
    Some((value, length))
}
