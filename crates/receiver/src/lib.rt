// The receive chip of the new board: registers as bytes, eight mailboxes used in turn, and the calls of the C host. Document 02, 2026-02.
// It knows frames as 11 bytes. Rests on the promises of `little_endian` and `common`.
#![tactic(auto)]

mod calls;
mod chip;
mod places;
mod refusals;
mod status;

ghost use Rattle.std.specs.Prelude.{◌≡◌, []};
ghost use Rattle.receiver.specs.Calls.{Answer, answer, power_up, read, write, arrive, drain, line};

use common::answered;

// Every call returns 0, or the number of the first question that gets a no, and then nothing has changed.
// Kept: numbers, and slices of any length, as C calls these functions (`receiver_c`).

// Makes every register 0, and the first mailbox next.
pub fn receiver_power_up(receiver: &mut [u8]) -> u32
    ensures { ◌≡◌ {A = Answer} (record { number = result; receiver = receiver.new; lent = [] })
        (answer receiver.old power_up) }
{
    answered(calls::power_up(receiver))
}

// Reads a register.
pub fn receiver_read(receiver: &[u8], number: u32, value: &mut [u8]) -> u32
    ensures { ◌≡◌ {A = Answer} (record { number = result; receiver = receiver.now; lent = value.new })
        (answer receiver.now (read number value.old)) }
{
    answered(calls::read(receiver, number, value))
}

// Writes a register.
pub fn receiver_write(receiver: &mut [u8], number: u32, value: u8) -> u32
    ensures { ◌≡◌ {A = Answer} (record { number = result; receiver = receiver.new; lent = [] })
        (answer receiver.old (write number value)) }
{
    answered(calls::write(receiver, number, value))
}

// A frame arrives: it fills the turn's mailbox, or is lost where that one is full.
pub fn receiver_arrive(receiver: &mut [u8], frame: &[u8]) -> u32
    ensures { ◌≡◌ {A = Answer} (record { number = result; receiver = receiver.new; lent = [] })
        (answer receiver.old (arrive frame.now)) }
{
    answered(calls::arrive(receiver, frame))
}

// Hands the frame held longest on and empties its mailbox; with none held nothing changes.
pub fn receiver_drain(receiver: &mut [u8], frame: &mut [u8]) -> u32
    ensures { ◌≡◌ {A = Answer} (record { number = result; receiver = receiver.new; lent = frame.new })
        (answer receiver.old (drain frame.old)) }
{
    answered(calls::drain(receiver, frame))
}

// Tells the interrupt line: 1 where it is up, else 0.
pub fn receiver_line(receiver: &[u8], level: &mut [u8]) -> u32
    ensures { ◌≡◌ {A = Answer} (record { number = result; receiver = receiver.now; lent = level.new })
        (answer receiver.now (line level.old)) }
{
    answered(calls::line(receiver, level))
}
