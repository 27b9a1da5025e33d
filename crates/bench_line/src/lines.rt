// What a line says.
ghost use Rattle.std.specs.Prelude.{◌≡◌};
ghost use Rattle.common.specs.Texts.{fields_of};
ghost use Rattle.bench_line.specs.Lines.{setup_line, Parsed, tick_line, parsed_of};

use super::fields::part;
use super::numbers::{are_pairs, bits, decimal, write_bytes};
use setup_numbers::{SetupErrors, SetupNumbers};

// The most characters of a line, without its line feed.
pub const LONGEST: usize = 1000;

#[derive(Clone, Copy)]
pub enum Line {
    Setup(SetupNumbers),
    // How many bytes of input the line has.
    Tick(usize),
}

// Each field is read before the next is looked for, so that a line ends at its first field that is no number.
fn setup_line(fields: &[u8]) -> Option<Line>
    ensures { result ≡ setup_line (fields_of fields.now) }
{
    let (field, fields) = part(fields)?;
    let leads = decimal(field)?;
    let (field, fields) = part(fields)?;
    let volts = decimal(field)?;
    let (field, fields) = part(fields)?;
    let amperes = decimal(field)?;
    let (field, fields) = part(fields)?;
    let resistance = bits(field)?;
    let (field, last) = part(fields)?;
    let numbers = SetupNumbers {
        leads,
        volts,
        amperes,
        resistance,
        errors: SetupErrors {
            volts: decimal(field)?,
            amperes: decimal(last)?,
        },
    };
    Some(Line::Setup(numbers))
}

fn tick_line(fields: &[u8], input: &mut [u8]) -> Option<Line>
    ensures { ◌≡◌ {A = Parsed} (record { line = result; input = input.new })
        (tick_line (fields_of fields.now) input.old) }
{
    if !are_pairs(fields) {
        return None;
    }
    write_bytes(fields, input);
    Some(Line::Tick(fields.len() / 2))
}

// A line without its line feed; `None` where the answer to it is `?`. A tick's bytes are in the buffer then, missing ones 0; any other line
// leaves it as it was.
pub fn parse(line: &[u8], input: &mut [u8]) -> Option<Line>
    ensures { ◌≡◌ {A = Parsed} (record { line = result; input = input.new })
        (parsed_of line.now input.old) }
{
    if LONGEST < line.len() {
        return None;
    }
    let (word, fields) = part(line)?;
    if word == b"tick".as_slice() {
        return tick_line(fields, input);
    }
    if word == b"setup".as_slice() {
        return setup_line(fields);
    }
    None
}
