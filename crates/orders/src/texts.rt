// A whole text.
ghost use Rattle.std.specs.Prelude.{◌≡◌, ◌+◌, ◌<◌, length};
ghost use Rattle.orders.specs.Lines.{lines_of};
ghost use Rattle.orders.specs.Texts.{Refused, read_from};
ghost use Rattle.orders.specs.Refusals.{number};
ghost use Rattle.orders.specs.Scans.{first_line, Adds, order_alone, AddsFirst, refused_at, answer_in};

use super::kept::Kept;
use super::lines::first_order;
use super::places::{Order, PLACE_COUNT};
use super::refusals::Refusal;
use common::unless;

// A refused text: why, and at which line, counted from 1.
#[derive(Clone, Copy, Debug, PartialEq, Eq)]
pub(crate) struct RefusedLine {
    pub refusal: Refusal,
    pub line: u32,
}

impl From<RefusedLine> for Refusal {
    ghost from_gives = { λ refused refusal. refusal ≡ refused.refusal };

    fn from(refused: RefusedLine) -> Refusal {
        refused.refusal
    }
}

// The order of a text's first line behind the orders kept, and the text behind the line.
fn order_behind<'a>(kept: &Kept, text: &'a [u8]) -> Result<(Order, &'a [u8]), Refusal>
    requires { 0 < length text.now }
    ensures line { Adds (λ refusal. Refused (number refusal) (length kept.now + 1)) kept.now (first_line text.now) (order_alone result) }
    ensures text { AddsFirst (λ refusal. Refused (number refusal) (length kept.now + 1)) kept.now text.now result }
{
    unless(kept.len() < PLACE_COUNT, Refusal::Line65)?;
    let (order, rest) = first_order(text).ok_or(Refusal::LineForm)?;
    unless(!kept.is_used(order.number), Refusal::NumberUsed)?;
    Ok((order, rest))
}

// The same, and the line at which the text is refused.
fn next_order<'a>(kept: &Kept, text: &'a [u8]) -> Result<(Order, &'a [u8]), RefusedLine>
    requires { 0 < length text.now }
    ensures line { Adds refused_at kept.now (first_line text.now) (order_alone result) }
    ensures text { AddsFirst refused_at kept.now text.now result }
{
    order_behind(kept, text).map_err(|refusal| RefusedLine {
        refusal,
        line: kept.len() as u32 + 1,
    })
}

// Reads a text line by line, each order behind those kept. What is kept after a refusal counts for nothing.
pub(crate) fn read_text(text: &[u8], kept: &mut Kept) -> Result<(), RefusedLine>
    ensures { answer_in kept.new result ≡ read_from kept.old (lines_of text.now) }
{
    let mut rest = text;
    // Kept: this is not a `for`, since each turn goes on by what a line took.
    while !rest.is_empty() {
        let (order, behind) = next_order(kept, rest)?;
        kept.push(order);
        rest = behind;
    }
    Ok(())
}
