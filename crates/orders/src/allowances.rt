// The allowance of a tick.
ghost use Rattle.std.specs.Prelude.{◌≡◌};
ghost use Rattle.orders.specs.Allowances.{covers, chosen, allowance_of};

use super::places::Order;

// The watts that count so far, and the least order number that would count instead.
// Kept: 0 where no order counts yet; `chosen` is said of it, and an Option of both would ask the same question twice.
#[derive(Clone, Copy)]
pub struct Choice {
    pub least: u64,
    pub watts: u32,
}

// The order's ticks have 32 bits, the tick's number has 64.
#[tactic(auto, unfolding(crate::specs::Allowances::covers))]
fn covers_tick(order: Order, tick: u64) -> bool
    ensures { result ≡ covers tick order }
{
    (u64::from(order.first) <= tick) & (tick <= u64::from(order.last))
}

impl Choice {
    #[tactic(auto, unfolding(crate::specs::Allowances::chosen))]
    fn after(self, order: Order, tick: u64) -> Choice
        ensures { result ≡ chosen tick self order }
    {
        let number = u64::from(order.number);
        if covers_tick(order, tick) && self.least <= number {
            Choice {
                least: number + 1,
                watts: order.watts,
            }
        } else {
            self
        }
    }
}

// The watts of the covering order with the highest number, and those of the tick's input where no order covers it. Bytes of any length are
// taken as their whole places.
pub fn allowance(orders: &[u8], tick: u64, watts: u32) -> u32
    ensures { result ≡ allowance_of orders.now tick watts }
{
    let (places, _) = orders.as_chunks();
    let choice = places
        .iter()
        .fold(Choice { least: 0, watts }, |choice, place| {
            choice.after(Order::read(place), tick)
        });
    choice.watts
}
