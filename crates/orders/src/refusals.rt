// Why a text is turned away. Document 02, 2026-09.
ghost use Rattle.std.proofs.Common.{rules};
ghost use Rattle.orders.specs.Refusals.{number};

use common::Numbered;

#[derive(Clone, Copy, Debug, PartialEq, Eq)]
pub enum Refusal {
    // Asked before any line, and by a tick too.
    OrdersLength = 43,

    // Of each line, in the order of asking.
    Line65 = 35,
    LineForm = 33,
    NumberUsed = 34,
}

impl Numbered for Refusal {
    ghost number = { number };

    fn number(self) -> u32 {
        self as u32
    }

    ghost never_0 = { Prim.search rules };
}
