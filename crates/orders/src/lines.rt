// A line of a text: an order, tab-parted.
ghost use Rattle.std.specs.Prelude.{◌≡◌};
ghost use Rattle.orders.specs.Scans.{seen, tabbed_read, ended_read, order_read};

use super::numbers::{LINE_FEED, TAB, number};
use super::places::Order;

// A number that a tab ends, and the text behind the tab.
fn tabbed(text: &[u8]) -> Option<(u32, &[u8])>
    ensures { seen result ≡ tabbed_read text.now }
{
    let (value, length) = number(text)?;
    let (&mark, rest) = text[length..].split_first()?;
    if mark != TAB {
        return None;
    }
    Some((value, rest))
}

// A number behind which the line ends, and the text behind the line.
fn ended(text: &[u8]) -> Option<(u32, &[u8])>
    ensures { seen result ≡ ended_read text.now }
{
    let (value, length) = number(text)?;
    let behind = &text[length..];
    let Some((&mark, rest)) = behind.split_first() else {
        return Some((value, behind));
    };
    if mark != LINE_FEED {
        return None;
    }
    Some((value, rest))
}

// The order that a text's first line is, and the text behind the line.
pub(crate) fn first_order(text: &[u8]) -> Option<(Order, &[u8])>
    ensures { seen result ≡ order_read text.now }
{
    let (number, rest) = tabbed(text)?;
    let (first, rest) = tabbed(rest)?;
    let (last, rest) = tabbed(rest)?;
    let (watts, rest) = ended(rest)?;
    if last < first {
        return None;
    }
    let order = Order {
        number,
        first,
        last,
        watts,
    };
    Some((order, rest))
}
