// Why setup or tick is refused. The host gets the number.
ghost use Rattle.std.proofs.Common.{rules};
ghost use Rattle.post.specs.Refusals.{number};

use common::Numbered;

#[derive(Clone, Copy, Debug, PartialEq, Eq)]
pub enum Refusal {
    // Setup's, in the order of asking.
    Leads = 1,
    RatedVolts = 2,
    RatedAmperes = 3,
    CableResistance = 4,
    MeterError = 32,
    StateLength = 5,
    // Tick's.
    State = 6,
    InputLength = 7,
    OutputLength = 8,
    Input = 9,
}

impl Numbered for Refusal {
    ghost number = { number };

    fn number(self) -> u32 {
        self as u32
    }

    ghost never_0 = { Prim.search rules };
}
