// What a call asks before it does anything, and the number that it returns.
ghost use Rattle.std.specs.Prelude.{ℕ, ◌≡◌, ◌<◌};
ghost use Rattle.common.specs.Refusals.{number_of, unless};

// A reason to refuse a call. The host gets its number, which is never 0.
pub trait Numbered: Copy {
    ghost number: { Self → ℕ };

    fn number(self) -> u32
        ensures { result ≡ number self };

    ghost never_0: { (refusal : Self) → 0 < number refusal };
}

// The number that a call returns: its refusal's, 0 where it is done.
pub fn answered<R: Numbered>(outcome: Result<(), R>) -> u32
    ensures { result ≡ number_of R.number outcome }
{
    match outcome {
        Ok(()) => 0,
        Err(refusal) => refusal.number(),
    }
}

// A question that a call asks, in a row with its refusal.
pub fn unless<R: Copy>(met: bool, refusal: R) -> Result<(), R>
    ensures { result ≡ unless met refusal }
{
    if met { Ok(()) } else { Err(refusal) }
}
