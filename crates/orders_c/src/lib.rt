// The calls of `orders` for C: the same functions under the same names, with the same promises.
#![tactic(auto)]

ghost use Rattle.std.specs.Prelude.{◌≡◌};
ghost use Rattle.orders.specs.Texts.{Taken, taken_of, refused_line_of};

// Replaces the orders in force by those of a text. Returns 0, or the number of the first question that gets a no, and then nothing has
// changed.
#[unsafe(no_mangle)]
pub extern "C" fn take_orders(text: &[u8], orders: &mut [u8]) -> u32
    ensures { ◌≡◌ {A = Taken} (record { number = result; orders = orders.new })
        (taken_of text.now orders.old) }
{
    orders::take_orders(text, orders)
}

// The line, counted from 1, at which a text is refused; 0 for an accepted text.
#[unsafe(no_mangle)]
pub extern "C" fn refused_line(text: &[u8]) -> u32
    ensures { result ≡ refused_line_of text.now }
{
    orders::refused_line(text)
}
