// Moves, and where a stop leads: a lead's tick but for its command and the energy that this adds.
ghost use Rattle.std.specs.Prelude.{◌≡◌};
ghost use Rattle.lead.specs.Moves.{may_move, exits_of, next_phase, reason_after, age_after, go_on, advance, decide};

use super::figures::Figure;
use super::names::{Phase, Reason};
use super::questions::{Meter, Stop, View, reason_of};
use super::state::{HeardLead, Input, Lead, Ratings, Stage};

impl HeardLead {
    // What the move out of each phase wants; 6 has none. A bad reading passes the limits of 4 and 7, and not that of 9, which wants a good one.
    // Kept: a `match` with a row for each phase, as the document has them; closures in a table would be the same rows, and looked up by index.
    #[tactic(auto, unfolding(crate::specs::Moves::may_move, crate::specs::Moves::moves))]
    fn may_move(self, view: View) -> bool
        ensures { result ≡ may_move view self }
    {
        let contacts = view.contacts;
        let meter = view.meter;
        let signals = view.signals;
        let lead = self.lead;
        let car = lead.car;
        let phase = lead.stage.phase;
        let age = lead.stage.age;
        match phase {
            0 => contacts.start & contacts.plug & !contacts.emergency,
            1 => {
                car.battery.seen
                    & car.time.seen
                    & car.status.seen
                    & contacts.permission
                    & signals.enabled
            }
            2 => contacts.lock,
            3 => view.present,
            4 => meter.is_none_or(Meter::is_discharged),
            5 => signals.closed,
            6 => false,
            7 => {
                ((lead.command == 0) & meter.is_none_or(Meter::is_ramped_down))
                    | (Figure::RAMP_DOWN_END <= age)
            }
            8 => !signals.closed | (Figure::WELD_CHECK_END <= age),
            9 => meter.is_some_and(Meter::is_discharged),
            10 => !contacts.plug,
            _ => false,
        }
    }

    // A lead that is not started: its threshold is kept on the move to 2, outside 6 and 7 its command is 0.
    #[tactic(auto, unfolding(crate::specs::Moves::go_on))]
    fn go_on(self, view: View, verdict: Result<(), Stop>, phase: u8) -> Lead
        ensures { result ≡ go_on view verdict phase self }
    {
        let mut lead = self.lead;
        let before = lead.stage;
        lead.stage = Stage {
            phase,
            reason: before.reason_after(verdict),
            age: before.age_after(phase),
        };
        if (before.phase == Phase::HANDSHAKE) & (phase == Phase::LOCKING) {
            lead.threshold = view.threshold;
        }
        if !lead.stage.is_between(Phase::CHARGING, Phase::RAMP_DOWN) {
            lead.command = 0;
        }
        lead
    }

    #[tactic(auto, unfolding(crate::specs::Moves::advance))]
    fn advance(self, view: View, verdict: Result<(), Stop>) -> Lead
        ensures { result ≡ advance view verdict self }
    {
        let before = self.lead.stage.phase;
        let phase = next_phase(before, verdict, self.may_move(view));
        if (before == Phase::IDLE) & (phase == Phase::HANDSHAKE) {
            return Lead::blank(Phase::HANDSHAKE);
        }
        self.go_on(view, verdict, phase)
    }
}

impl Lead {
    // A tick but for the command and the energy that this adds.
    #[tactic(auto, unfolding(crate::specs::Moves::decide))]
    pub fn decide(self, ratings: Ratings, input: Input) -> Lead
        ensures { result ≡ decide ratings input self }
    {
        let heard = self.hear(input);
        let view = heard.view(ratings, input);
        heard.advance(view, heard.ask(view))
    }
}

// Where a phase leads: by its move, by an urgent stop, by another. It stays where it has none; past 10 there is no phase, and 0 stands.
#[derive(Clone, Copy)]
struct Exits(u8, u8, u8);

// Kept: a table of the document under its phase numbers. No step is run by it.
fn exits_of(phase: u8) -> Exits
    ensures { result ≡ exits_of phase }
{
    match phase {
        0 => Exits(1, 0, 0),
        1 => Exits(2, 10, 10),
        2 => Exits(3, 9, 8),
        3 => Exits(4, 9, 8),
        4 => Exits(5, 9, 8),
        5 => Exits(6, 9, 8),
        6 => Exits(6, 9, 7),
        7 => Exits(8, 9, 7),
        8 => Exits(9, 9, 8),
        9 => Exits(10, 9, 9),
        10 => Exits(0, 10, 10),
        _ => Exits(0, 0, 0),
    }
}

// The phase after the tick.
#[tactic(auto, unfolding(crate::specs::Moves::next_phase))]
fn next_phase(phase: u8, verdict: Result<(), Stop>, may: bool) -> u8
    ensures { result ≡ next_phase phase verdict may }
{
    let to = exits_of(phase);
    match verdict {
        Ok(()) => { if may { to.0 } else { phase } }
        Err(Stop::Urgent(_)) => to.1,
        Err(Stop::Ordinary(_)) => to.2,
    }
}

impl Stage {
    // In phases 7 and 8 the reason that was recorded first remains.
    #[tactic(auto, unfolding(crate::specs::Moves::reason_after))]
    fn reason_after(self, verdict: Result<(), Stop>) -> u8
        ensures { result ≡ reason_after self.phase self.reason verdict }
    {
        let recorded = self.is_between(Phase::RAMP_DOWN, Phase::WELD_CHECK);
        let reason = reason_of(verdict);
        if recorded | (reason == Reason::NONE) {
            self.reason
        } else {
            reason
        }
    }

    // A move or a stop begins anew.
    #[tactic(auto, unfolding(crate::specs::Moves::age_after))]
    fn age_after(self, phase: u8) -> u32
        ensures { result ≡ age_after self.phase phase self.age }
    {
        if self.phase == phase {
            self.age.saturating_add(1)
        } else {
            0
        }
    }
}
