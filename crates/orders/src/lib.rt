// Allowance orders of the site's energy desk: their text, the 1,024 bytes in which the host lends them to a tick, and the watts that a tick
// uses. Document 02, 2026-09. It knows nothing of leads. Rests on the promises of `common` and `little_endian`.
#![tactic(auto)]

mod allowances;
mod kept;
mod lines;
mod numbers;
mod places;
mod refusals;
mod texts;

ghost use Rattle.std.specs.Prelude.{◌≡◌};
ghost use Rattle.common.specs.Refusals.{number_of};
ghost use Rattle.orders.specs.Refusals.{number};
ghost use Rattle.orders.specs.Texts.{Taken, taken_of, refused_line_of};

pub use allowances::allowance;
use common::{answered, unless};
use kept::Kept;
pub use places::{ORDERS_LENGTH, no_orders};
use refusals::Refusal;
use texts::read_text;

// Kept: numbers, and slices of any length, as C calls `take_orders` and `refused_line` (`orders_c`).

// Replaces the orders in force by those of a text. Returns 0, or the number of the first question that gets a no, and then nothing has
// changed.
pub fn take_orders(text: &[u8], orders: &mut [u8]) -> u32
    ensures { ◌≡◌ {A = Taken} (record { number = result; orders = orders.new })
        (taken_of text.now orders.old) }
{
    answered(replace_orders(text, orders))
}

// The text is read into places of its own, so that a refused one leaves nothing half replaced.
#[tactic(auto, using(crate::proofs::Reading::taken_short, crate::proofs::Reading::taken_refused))]
fn replace_orders(text: &[u8], orders: &mut [u8]) -> Result<(), Refusal>
    ensures { ◌≡◌ {A = Taken} (record { number = number_of number result; orders = orders.new })
        (taken_of text.now orders.old) }
{
    unless(orders.len() == ORDERS_LENGTH, Refusal::OrdersLength)?;
    let mut kept = Kept::new();
    let outcome = read_text(text, &mut kept);
    outcome?;
    orders.copy_from_slice(kept.bytes());
    Ok(())
}

// The line, counted from 1, at which a text is refused; 0 for an accepted text.
pub fn refused_line(text: &[u8]) -> u32
    ensures { result ≡ refused_line_of text.now }
{
    match read_text(text, &mut Kept::new()) {
        Ok(()) => 0,
        Err(refused) => refused.line,
    }
}
