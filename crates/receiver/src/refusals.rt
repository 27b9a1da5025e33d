// Why a call is refused.
ghost use Rattle.std.proofs.Common.{rules};
ghost use Rattle.receiver.specs.Calls.{number};

use common::Numbered;

#[derive(Clone, Copy, Debug, PartialEq, Eq)]
pub enum Refusal {
    Receiver = 6,
    Frame = 7,
    Room = 8,
    Register = 30,
}

impl Numbered for Refusal {
    ghost number = { number };

    fn number(self) -> u32 {
        self as u32
    }

    ghost never_0 = { Prim.search rules };
}
