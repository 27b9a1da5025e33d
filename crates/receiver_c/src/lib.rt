// The six calls of `receiver` for C: the same functions under the same names, with the same promises.
#![tactic(auto)]

ghost use Rattle.std.specs.Prelude.{◌≡◌, []};
ghost use Rattle.receiver.specs.Calls.{Answer, answer, power_up, read, write, arrive, drain, line};

// Every call returns 0, or the number of the first question that gets a no, and then nothing has changed.

// Makes every register 0, and the first mailbox next.
#[unsafe(no_mangle)]
pub extern "C" fn receiver_power_up(receiver: &mut [u8]) -> u32
    ensures { ◌≡◌ {A = Answer} (record { number = result; receiver = receiver.new; lent = [] })
        (answer receiver.old power_up) }
{
    receiver::receiver_power_up(receiver)
}

// Reads a register.
#[unsafe(no_mangle)]
pub extern "C" fn receiver_read(receiver: &[u8], number: u32, value: &mut [u8]) -> u32
    ensures { ◌≡◌ {A = Answer} (record { number = result; receiver = receiver.now; lent = value.new })
        (answer receiver.now (read number value.old)) }
{
    receiver::receiver_read(receiver, number, value)
}

// Writes a register.
#[unsafe(no_mangle)]
pub extern "C" fn receiver_write(receiver: &mut [u8], number: u32, value: u8) -> u32
    ensures { ◌≡◌ {A = Answer} (record { number = result; receiver = receiver.new; lent = [] })
        (answer receiver.old (write number value)) }
{
    receiver::receiver_write(receiver, number, value)
}

// A frame arrives: it fills the turn's mailbox, or is lost where that one is full.
#[unsafe(no_mangle)]
pub extern "C" fn receiver_arrive(receiver: &mut [u8], frame: &[u8]) -> u32
    ensures { ◌≡◌ {A = Answer} (record { number = result; receiver = receiver.new; lent = [] })
        (answer receiver.old (arrive frame.now)) }
{
    receiver::receiver_arrive(receiver, frame)
}

// Hands the frame held longest on and empties its mailbox; with none held nothing changes.
#[unsafe(no_mangle)]
pub extern "C" fn receiver_drain(receiver: &mut [u8], frame: &mut [u8]) -> u32
    ensures { ◌≡◌ {A = Answer} (record { number = result; receiver = receiver.new; lent = frame.new })
        (answer receiver.old (drain frame.old)) }
{
    receiver::receiver_drain(receiver, frame)
}

// Tells the interrupt line: 1 where it is up, else 0.
#[unsafe(no_mangle)]
pub extern "C" fn receiver_line(receiver: &[u8], level: &mut [u8]) -> u32
    ensures { ◌≡◌ {A = Answer} (record { number = result; receiver = receiver.now; lent = level.new })
        (answer receiver.now (line level.old)) }
{
    receiver::receiver_line(receiver, level)
}
