// The calls of the C host: what each asks, in the order of asking, and what it does then. A refusal changes nothing.
#![tactic(auto, using(std::proofs::lemmas::Bool::Decides::nat_tests), unfolding(crate::specs::All::call_rules))]

ghost use Rattle.std.specs.Prelude.{◌≡◌, []};
ghost use Rattle.receiver.specs.Calls.{Answer, answer, told, power_up, read, write, arrive, drain, line};

use super::chip;
use super::places::Register;
use super::refusals::Refusal;
use common::unless;

pub(crate) fn power_up(receiver: &mut [u8]) -> Result<(), Refusal>
    ensures { ◌≡◌ {A = Answer} (record { number = told result; receiver = receiver.new; lent = [] })
        (answer receiver.old power_up) }
{
    let receiver = receiver.as_mut_array().ok_or(Refusal::Receiver)?;
    chip::power_up(receiver);
    Ok(())
}

pub(crate) fn read(receiver: &[u8], number: u32, value: &mut [u8]) -> Result<(), Refusal>
    ensures { ◌≡◌ {A = Answer} (record { number = told result; receiver = receiver.now; lent = value.new })
        (answer receiver.now (read number value.old)) }
{
    unless(number <= Register::LAST, Refusal::Register)?;
    let receiver = receiver.as_array().ok_or(Refusal::Receiver)?;
    let value = value.as_mut_array().ok_or(Refusal::Room)?;
    *value = [chip::value_read(receiver, number)];
    Ok(())
}

pub(crate) fn write(receiver: &mut [u8], number: u32, value: u8) -> Result<(), Refusal>
    ensures { ◌≡◌ {A = Answer} (record { number = told result; receiver = receiver.new; lent = [] })
        (answer receiver.old (write number value)) }
{
    unless(number <= Register::LAST, Refusal::Register)?;
    let receiver = receiver.as_mut_array().ok_or(Refusal::Receiver)?;
    chip::write(receiver, number, value);
    Ok(())
}

pub(crate) fn arrive(receiver: &mut [u8], frame: &[u8]) -> Result<(), Refusal>
    ensures { ◌≡◌ {A = Answer} (record { number = told result; receiver = receiver.new; lent = [] })
        (answer receiver.old (arrive frame.now)) }
{
    let receiver = receiver.as_mut_array().ok_or(Refusal::Receiver)?;
    let frame = frame.as_array().ok_or(Refusal::Frame)?;
    chip::arrive(receiver, frame);
    Ok(())
}

pub(crate) fn drain(receiver: &mut [u8], frame: &mut [u8]) -> Result<(), Refusal>
    ensures { ◌≡◌ {A = Answer} (record { number = told result; receiver = receiver.new; lent = frame.new })
        (answer receiver.old (drain frame.old)) }
{
    let receiver = receiver.as_mut_array().ok_or(Refusal::Receiver)?;
    let frame = frame.as_mut_array().ok_or(Refusal::Room)?;
    chip::drain(receiver, frame);
    Ok(())
}

pub(crate) fn line(receiver: &[u8], level: &mut [u8]) -> Result<(), Refusal>
    ensures { ◌≡◌ {A = Answer} (record { number = told result; receiver = receiver.now; lent = level.new })
        (answer receiver.now (line level.old)) }
{
    let receiver = receiver.as_array().ok_or(Refusal::Receiver)?;
    let level = level.as_mut_array().ok_or(Refusal::Room)?;
    *level = [u8::from(chip::is_up(receiver))];
    Ok(())
}
