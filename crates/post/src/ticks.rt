// A tick of the post.
ghost use Rattle.std.specs.Prelude.{◌≡◌, length};
ghost use Rattle.common.specs.Refusals.{number_of, refusal_of};
ghost use Rattle.post.specs.Heads.{head_of};
ghost use Rattle.post.specs.Rules.{tick_input, shown_after};
ghost use Rattle.post.specs.Refusals.{number, tick_rows};
ghost use Rattle.post.specs.Calls.{leads_of, state_after, Ticked, tick_of};

use super::head::Head;
use super::names::Refusal;
use super::refusals::ask_tick;
use super::turns::decide_all;
use super::written::write_leads;
use little_endian::u32_at;
use sharing::level;

// Where the power limit stands in the input.
const LIMIT: usize = 0;

// A tick that nothing refuses: the leads decide, share the power limit, and are written.
fn carry_out(state: &mut [u8], input: &[u8], output: &mut [u8])
    requires { refusal_of (tick_rows state.old input.now (length output.old)) ≡ 0 }
    ensures state_after { state.new ≡ state_after state.old (tick_input input.now) }
    ensures output_after { output.new
        ≡ shown_after (head_of state.old) (tick_input input.now) (leads_of state.old) }
{
    let head = Head::read(state);
    let limit = u32_at(input, LIMIT);
    let decided = decide_all(head, state, input);
    let turns = decided.turns;
    let wants = decided.wants;
    write_leads(head, level(wants, limit), turns, state, output);
}

pub(crate) fn try_tick(state: &mut [u8], input: &[u8], output: &mut [u8]) -> Result<(), Refusal>
    ensures { ◌≡◌ {A = Ticked} (record { number = number_of number result; state = state.new; output = output.new })
        (tick_of state.old input.now output.old) }
{
    ask_tick(state, input, output.len())?;
    carry_out(state, input, output);
    Ok(())
}
