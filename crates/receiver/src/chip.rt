// What the chip does at each call, on a receiver of 93 bytes.
#![tactic(auto, using(std::proofs::lemmas::Bool::Decides::nat_tests), unfolding(crate::specs::All::chip_rules))]

ghost use Rattle.std.specs.Prelude.{◌≡◌, ◌≤◌, length};
ghost use Rattle.receiver.specs.Registers.{last_register, frame_size};
ghost use Rattle.receiver.specs.Chip.{powered_up, value_read, arrived, written, drained, drained_frame, is_up};

use super::places::{FRAME_SIZE, Frame, MAILBOX_COUNT, RECEIVER_SIZE, Receiver, Register, TURN};
use super::status::{is_full, longest_held, with_full, without, without_one};

pub(crate) fn power_up(receiver: &mut Receiver)
    ensures { receiver.new ≡ powered_up }
{
    *receiver = [0; RECEIVER_SIZE];
}

pub(crate) fn value_read(receiver: &Receiver, number: u32) -> u8
    requires { number ≤ last_register }
    ensures { result ≡ value_read receiver.now number }
{
    match number as usize {
        Register::ACKNOWLEDGE => 0,
        at => receiver[at],
    }
}

// Kept: a `match` on the register's number, as the request has a sentence for each register that is written.
pub(crate) fn write(receiver: &mut Receiver, number: u32, value: u8)
    ensures { receiver.new ≡ written receiver.old number value }
{
    match number as usize {
        Register::ACKNOWLEDGE => {
            receiver[Register::STATUS] = without(receiver[Register::STATUS], value);
        }
        Register::MASK => receiver[Register::MASK] = value,
        Register::OVERRUN => receiver[Register::OVERRUN] = 0,
        _ => {}
    }
}

// A frame into a mailbox, by value: from slice to slice it would go byte by byte, as they might overlap for all that the compiler knows.
// Kept: a slice and its length. With `&mut receiver[a..b]` made an array in `arrive` itself, what the receiver ends as was not proved.
fn put(mailbox: &mut [u8], frame: &Frame)
    requires { length mailbox.old ≡ frame_size }
    ensures { mailbox.new ≡ frame.now }
{
    *mailbox.as_mut_array().unwrap() = *frame;
}

pub(crate) fn arrive(receiver: &mut Receiver, frame: &Frame)
    ensures { receiver.new ≡ arrived receiver.old frame.now }
{
    let status = receiver[Register::STATUS];
    let turn = receiver[TURN] % MAILBOX_COUNT;
    if is_full(status, turn) {
        receiver[Register::OVERRUN] = 1;
        return;
    }
    let at = Register::MAILBOXES + FRAME_SIZE * usize::from(turn);
    put(&mut receiver[at..at + FRAME_SIZE], frame);
    receiver[Register::STATUS] = with_full(status, turn);
    receiver[TURN] = (turn + 1) % MAILBOX_COUNT;
}

pub(crate) fn drain(receiver: &mut Receiver, frame: &mut Frame)
    ensures { (receiver.new ≡ drained receiver.old)
        × (frame.new ≡ drained_frame receiver.old frame.old) }
{
    let status = receiver[Register::STATUS];
    if let Some(mailbox) = longest_held(status, receiver[TURN] % MAILBOX_COUNT) {
        let at = Register::MAILBOXES + FRAME_SIZE * usize::from(mailbox);
        *frame = receiver[at..at + FRAME_SIZE].try_into().unwrap();
        receiver[Register::STATUS] = without_one(status, mailbox);
    }
}

// Whether the interrupt line is up.
pub(crate) fn is_up(receiver: &Receiver) -> bool
    ensures { result ≡ is_up receiver.now }
{
    receiver[Register::STATUS] & receiver[Register::MASK] != 0
}
