// The orders of the lines that have been read, in the text's order, each in the place in which the host lends it.
ghost use Rattle.std.specs.Prelude.{◌≡◌, ◌-◌, ◌<◌, ◌≤◌, List, [], ◌∷◌, ◌++◌, length, take, drop, map, replicate};
ghost use Rattle.orders.specs.Places.{place_count, unused, order_in, order_bytes, orders_bytes, is_used};
ghost use Rattle.orders.specs.declared.places.Order.{Order};

use super::places::{Order, PLACE_COUNT};
use std::marker::Model;

// The places behind the orders are unused.
// Kept: a count beside an array; a rule of the project (no heap, fixed memory) needs it.
#[derive(Drop)]
pub(crate) struct Kept {
    places: [[u8; Order::SIZE]; PLACE_COUNT],
    count: usize,
}

impl Model for Kept {
    ghost Value = { List Order };

    ghost view = { λ k. map order_in (take k.count k.places) };

    ghost invariant = { λ k. (length k.places ≡ place_count) × (k.count ≤ place_count)
        × (take k.count k.places ≡ map order_bytes (map order_in (take k.count k.places)))
        × (drop k.count k.places ≡ replicate (place_count - k.count) (order_bytes unused)) };
}

impl Kept {
    pub(crate) fn new() -> Kept
        ensures { result ≡ [] }
    {
        Kept {
            places: [Order::unused().bytes(); PLACE_COUNT],
            count: 0,
        }
    }

    pub(crate) fn len(&self) -> usize
        ensures len { result ≡ length self.now }
        ensures few { result ≤ place_count }
    {
        self.count
    }

    // Whether one of the orders has the number. Every order is compared, by `fold`: a way out at the first, as `any` has it, costs more at
    // each, and in a text that is accepted none has the number.
    pub(crate) fn is_used(&self, number: u32) -> bool
        ensures { result ≡ is_used number self.now }
    {
        self.places[..self.count].iter().fold(
            false,
            |used, place| used | (Order::read(place).number == number),
        )
    }

    pub(crate) fn push(&mut self, order: Order)
        requires { length self.old < place_count }
        ensures { self.new ≡ self.old ++ order ∷ [] }
    {
        self.places[self.count] = order.bytes();
        self.count += 1;
    }

    // Every place, one after the other.
    pub(crate) fn bytes(&self) -> &[u8]
        ensures { result.now ≡ orders_bytes place_count self.now }
    {
        self.places.as_flattened()
    }
}
