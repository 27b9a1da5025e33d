// An order, and the place of 16 bytes in which the host lends it.
ghost use Rattle.std.specs.Prelude.{◌≡◌};
ghost use Rattle.orders.specs.Places.{unused, order_in, order_bytes, no_orders};

use super::kept::Kept;
use little_endian::{u32_at, u32_bytes};

// Both ticks belong to those that it covers. The number is the order's, not a tick's.
#[derive(Clone, Copy, Debug, PartialEq, Eq)]
pub struct Order {
    pub number: u32,
    pub first: u32,
    pub last: u32,
    pub watts: u32,
}

// How many orders there may be, and the bytes of as many places.
pub(crate) const PLACE_COUNT: usize = 64;

pub const ORDERS_LENGTH: usize = Order::SIZE * PLACE_COUNT;

impl Order {
    pub(crate) const SIZE: usize = 16;

    // Where its numbers stand in a place.
    const NUMBER: usize = 0;

    const FIRST: usize = 4;

    const LAST: usize = 8;

    const WATTS: usize = 12;

    // First after last, so that it covers nothing.
    pub(crate) fn unused() -> Order
        ensures { result ≡ unused }
    {
        Order {
            number: 0,
            first: 1,
            last: 0,
            watts: 0,
        }
    }

    pub(crate) fn read(place: &[u8; Order::SIZE]) -> Order
        ensures { result ≡ order_in place.now }
    {
        Order {
            number: u32_at(place, Order::NUMBER),
            first: u32_at(place, Order::FIRST),
            last: u32_at(place, Order::LAST),
            watts: u32_at(place, Order::WATTS),
        }
    }

    pub(crate) fn bytes(self) -> [u8; Order::SIZE]
        ensures { result ≡ order_bytes self }
    {
        let numbers = [
            u32_bytes(self.number),
            u32_bytes(self.first),
            u32_bytes(self.last),
            u32_bytes(self.watts),
        ];
        let mut place = [0u8; Order::SIZE];
        place.copy_from_slice(numbers.as_flattened());
        place
    }
}

// For ticks without orders.
pub fn no_orders() -> [u8; ORDERS_LENGTH]
    ensures { result ≡ no_orders }
{
    let mut orders = [0u8; ORDERS_LENGTH];
    orders.copy_from_slice(Kept::new().bytes());
    orders
}
