// Answers as text.
ghost use Rattle.std.specs.Prelude.{◌≡◌};
ghost use Rattle.bench_line.specs.Answers.{answer_text, returned_text, done_text, Written, written_of};

use super::digits::digit;
use super::fields::TAB;

const LINE_FEED: u8 = b'\n';

#[derive(Clone, Copy)]
pub enum Answer<'a> {
    // `?`
    Unknown,
    // The number that a setup returned, or a tick that was refused.
    Returned(u8),
    // A tick that was done, with its output.
    Done(&'a [u8]),
}

fn write_characters(characters: &[u8], text: &mut [u8]) -> usize
    ensures { ◌≡◌ {A = Written} (record { count = result; text = text.new }) (written_of characters.now text.old) }
{
    let count = characters.len();
    if text.len() < count {
        return 0;
    }
    text[..count].copy_from_slice(characters);
    count
}

// Kept: three rows of digits are plainer than the library's text of a number, which would be in a buffer of its own first.
fn write_number(number: u8, text: &mut [u8]) -> usize
    ensures { ◌≡◌ {A = Written} (record { count = result; text = text.new }) (written_of (returned_text number) text.old) }
{
    let last = digit(number % 10);
    if number < 10 {
        return write_characters(&[last, LINE_FEED], text);
    }
    if number < 100 {
        return write_characters(&[digit(number / 10), last, LINE_FEED], text);
    }
    let tens = digit(number / 10 % 10);
    write_characters(&[digit(number / 100), tens, last, LINE_FEED], text)
}

fn write_done(output: &[u8], text: &mut [u8]) -> usize
    ensures { ◌≡◌ {A = Written} (record { count = result; text = text.new })
        (written_of (done_text output.now) text.old) }
{
    if text.len() < 3 || (text.len() - 3) / 2 < output.len() {
        return 0;
    }
    text[0] = b'0';
    text[1] = TAB;
    // Kept: places by number, since of a text that `chunks_exact_mut` lent in parts a proof knows no character.
    for (i, &byte) in output.iter().enumerate() {
        text[2 * i + 2] = digit(byte / 16);
        text[2 * i + 3] = digit(byte % 16);
    }
    let end = 2 * output.len() + 2;
    text[end] = LINE_FEED;
    end + 1
}

// An answer's line over the beginning of the text; one that does not fit is not written. Returns how many characters were.
// Kept: 0 for one that does not fit, as the definition `written_of` has it.
pub fn write_answer(answer: Answer<'_>, text: &mut [u8]) -> usize
    ensures { ◌≡◌ {A = Written} (record { count = result; text = text.new })
        (written_of (answer_text answer.entry) text.old) }
{
    match answer {
        Answer::Unknown => write_characters(b"?\n", text),
        Answer::Returned(number) => write_number(number, text),
        Answer::Done(output) => write_done(output, text),
    }
}
