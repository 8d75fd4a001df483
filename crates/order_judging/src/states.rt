//! Whether a state ends, is stuck or rests differently from the sequential machine.

ghost use Rattle.std.specs.Prelude.{◌≡◌, ◌↔◌, IsTrue};
ghost use Rattle.cf_bind.specs.declared.packet.Fetch.{Fetch};
ghost use Rattle.theory_orders.specs.Wrong.{IsStuckWrongly, RestsRunning};
ghost use Rattle.order_judging.specs.Judgements.{EndsApart, RestsApart};

use cf_bind::{Fetch, Move};
use mem_changes::Changes;
use order_machine::Waypoint;
use order_model::Situation;

/// Whether the program ended differently from the machine's next step, or with other registers or memory.
pub(crate) fn ends_apart(place: &Waypoint, s: &Situation, changes: &Changes) -> bool
    ensures { IsTrue result ↔ EndsApart place.now s.now.ending s.now.regs changes.now }
{
    match s.ending() {
        Some(end) => !place.ends_as(end, s.regs(), changes),
        None => false,
    }
}

/// Whether the processor is drained, and fetch runs.
fn rests_running(s: &Situation) -> bool
    ensures { IsTrue result ↔ RestsRunning s.now }
{
    match s.fetch() {
        Fetch::Running(_) => s.is_drained(),
        Fetch::Waiting => false,
    }
}

/// Whether no move leads on, although the program has not ended, and the processor is not drained with fetch running.
pub(crate) fn is_stuck(s: &Situation, moves: &[Move]) -> bool
    ensures { IsTrue result ↔ IsStuckWrongly moves.now s.now }
{
    moves.is_empty() && s.ending().is_none() && !rests_running(s)
}

/// Whether the processor is drained without an end, and its state differs from the machine's.
pub(crate) fn rests_apart(place: &Waypoint, s: &Situation, changes: &Changes) -> bool
    ensures { IsTrue result ↔ RestsApart place.now s.now changes.now }
{
    s.is_drained() && s.ending().is_none() && !place.rests_as(s.fetch(), s.regs(), changes)
}
