//! Counting a move.

ghost use Rattle.std.specs.Prelude.{◌≡◌};
ghost use Rattle.cf_run.specs.Made.{CanCount, counted_event, is_meeting as meets, is_killed as kills, is_died as dies};

use cf_bind::Move;
use cf_core::Event;
use cf_report::Tally;

/// Counts a move that was made, with its event.
#[inline(always)]
pub fn count(tally: &mut Tally, mv: Move, event: &Event)
    requires { CanCount tally.old }
    ensures { tally.new ≡ counted_event tally.old mv event.now }
{
    tally.moves += 1;
    if matches!(mv, Move::Meet(_)) {
        tally.meets += 1;
    }
    if matches!(event, Event::Killed) {
        tally.kills += 1;
    }
    if matches!(event, Event::Died) {
        tally.dead += 1;
    }
}
