// Sharing a power limit out: document 01, 'Dividing the allowance', in the way that request 2026-03 asks for. Wants and the limit are in
// watts. Rests on nothing.
#![tactic(auto)]

ghost use Rattle.std.specs.Prelude.{List, ◌≡◌, ℕ, ◌+◌, ◌<◌};
ghost use Rattle.sharing.specs.Level.{places, want_of, level_of};
ghost use Rattle.sharing.specs.Way.{in_order, carried_after, step_of, way, level_found};
ghost use Rattle.sharing.specs.declared.Step.TheVariants.{Met};

// As many as may want power at once; a place that nobody has wants 0.
pub const PLACES: usize = 4;

// Smallest first.
fn in_order(mut wants: [u32; PLACES]) -> [u32; PLACES]
    ensures { result ≡ in_order wants }
{
    wants.sort_unstable();
    wants
}

// What a step comes to.
// Kept: an enum of its own. Way.antt and the claims of 2026-03 (`carried_along`) speak of `Met`, with the want that it meets, and of `Last`.
#[derive(Clone, Copy)]
enum Step {
    // It meets a want in full, and carries on what is left. Only the claims look at which want it is.
    Met { want: u32, carried: u32 },
    // It is the last, and gives the level.
    Last { level: u32 },
}

// A want is met where an equal part of the watts carried, for each who is not yet met, reaches it; else the part is the level. Whatever wants
// and limit it is a step of: if this want comes after n others, and what comes in is the limit less those, then what goes on is the limit less
// these n + 1.
#[tactic(auto, using(crate::proofs::Steps::carried_less), unfolding(crate::specs::Way::step_of))]
fn take_step(want: u32, unmet: u32, carried: u32) -> Step
    requires { 0 < unmet }
    ensures step { result ≡ step_of want unmet carried }
    ensures carries_on { (order : List ℕ) (n limit met left : ℕ)
        → want ≡ want_of order n → carried ≡ carried_after n order limit → result ≡ Met met left → left ≡ carried_after (n + 1) order limit }
{
    let part = carried / unmet;
    if part < want {
        return Step::Last { level: part };
    }
    let left = carried - want;
    Step::Met {
        want,
        carried: left,
    }
}

// One step a place at most, and none where nothing is wanted. Places that want nothing stand in front, so those not yet met are the place
// whose turn it is and all behind it.
fn found(order: [u32; PLACES], limit: u32) -> u32
    ensures { result ≡ level_found (way order limit) limit }
{
    let mut carried = limit;
    for (place, &want) in order.iter().enumerate() {
        if want > 0 {
            match take_step(want, (PLACES - place) as u32, carried) {
                Step::Met { carried: left, .. } => carried = left,
                Step::Last { level } => return level,
            }
        }
    }
    limit
}

// The wants are met from the smallest up, as long as an equal part of what is left is enough.
#[tactic(auto, using(crate::proofs::Way::way_level))]
pub fn level(wants: [u32; PLACES], limit: u32) -> u32
    ensures { result ≡ level_of places (want_of wants) limit }
{
    found(in_order(wants), limit)
}
