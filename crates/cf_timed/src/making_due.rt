//! Making the moves that are due at one time, one after another, where no Issue can come between them.

ghost use Rattle.std.specs.Prelude.{◌≡◌, ◌<◌, ◌≤◌, Some, false, slice_get, true};
ghost use Rattle.cf_index.specs.Order.{kind_place};
ghost use Rattle.cf_timed.specs.Arrivals.{LeadsTimed, timed_at};
ghost use Rattle.cf_timed.specs.Clocks.{clocked};
ghost use Rattle.cf_timed.specs.DueMoves.{AreDue, without_first};
ghost use Rattle.cf_timed.specs.MakingDue.{IsMakingDue, KeepsDue, MakesFirst};

use crate::clock::Clock;
use crate::due_moves::DueMoves;
use cf_bind::Move;
use cf_core::Core;
use cf_report::Tally;
use cf_run::count;
use cf_sched::Pace;

/// A kind of move that is made often, or any of the others.
// What makes a move has a copy for each of these, and each copy has one caller: with more it would be too large to be inlined.
struct OfClimb;

struct OfFall;

struct OfMeet;

struct OfOthers;

/// Makes and records the first of the kept moves, if it is still due. Nothing enters at the bottom or leaves by it.
#[inline(always)]
fn make_still_due<Kind>(
    core: &mut Core,
    clock: &mut Clock,
    mv: Move,
    pace: &Pace,
    limit: u64,
    kept: &DueMoves,
    tally: &mut Tally,
)
    requires after { 1 ≤ kind_place mv }
    requires before { kind_place mv ≤ 10 }
    requires first { Some mv ≡ slice_get kept.now.moves 0 }
    requires making { IsMakingDue limit pace.now (timed_at core.old clock.old tally.old) kept.now }
    ensures { MakesFirst limit pace.now (timed_at core.old clock.old tally.old) (timed_at core.new clock.new tally.new)
        (without_first kept.now) }
{
    let (_pace, _limit, _layout) = (pace, limit, core.layout());
    let time = kept.time();
    if clock.reach_kept(&mv) < time {
        let event = core.make_inside(mv);
        count(tally, mv, &event);
        clock.stamp(mv, time);
    }
}

/// The same by a call.
#[inline(never)]
fn make_other_still_due(
    core: &mut Core,
    clock: &mut Clock,
    mv: &Move,
    pace: &Pace,
    limit: u64,
    kept: &DueMoves,
    tally: &mut Tally,
)
    requires after { 1 ≤ kind_place mv.now }
    requires before { kind_place mv.now ≤ 10 }
    requires first { Some mv.now ≡ slice_get kept.now.moves 0 }
    requires making { IsMakingDue limit pace.now (timed_at core.old clock.old tally.old) kept.now }
    ensures { MakesFirst limit pace.now (timed_at core.old clock.old tally.old) (timed_at core.new clock.new tally.new)
        (without_first kept.now) }
{
    make_still_due::<OfOthers>(core, clock, *mv, pace, limit, kept, tally);
}

/// Makes and records the first of the kept moves, if it is still due. If it is and something enters at the bottom or leaves by it,
/// nothing is made, and the answer is false.
// The kinds that are made most often are named one by one, so that the compiler goes to the code of a kind by one jump.
#[inline(always)]
fn make_first(
    core: &mut Core,
    clock: &mut Clock,
    mv: &Move,
    pace: &Pace,
    limit: u64,
    kept: &DueMoves,
    tally: &mut Tally,
) -> bool
    requires first { Some mv.now ≡ slice_get kept.now.moves 0 }
    requires making { IsMakingDue limit pace.now (timed_at core.old clock.old tally.old) kept.now }
    ensures made { result ≡ true →
        MakesFirst limit pace.now (timed_at core.old clock.old tally.old) (timed_at core.new clock.new tally.new) (without_first kept.now) }
    ensures still { result ≡ false → timed_at core.new clock.new tally.new ≡ timed_at core.old clock.old tally.old }
{
    match *mv {
        Move::Climb(i) => {
            make_still_due::<OfClimb>(core, clock, Move::Climb(i), pace, limit, kept, tally)
        }
        Move::Fall(i) => {
            make_still_due::<OfFall>(core, clock, Move::Fall(i), pace, limit, kept, tally)
        }
        Move::Meet(i) => {
            make_still_due::<OfMeet>(core, clock, Move::Meet(i), pace, limit, kept, tally)
        }
        Move::Emit
        | Move::Execute(_)
        | Move::Send(_)
        | Move::Launch(_)
        | Move::Slide(_, _)
        | Move::Access
        | Move::Recover(_) => make_other_still_due(core, clock, mv, pace, limit, kept, tally),
        Move::Issue(_) | Move::Leave | Move::Exit | Move::Serve => {
            if clock.reach_kept(mv) < kept.time() {
                return false;
            }
        }
    }
    true
}

/// Makes and records the kept moves that are still due, one after another, as long as nothing enters at the bottom or leaves by
/// them, and leaves them out. The answer is whether some were made and none is left.
#[inline(always)]
fn make_kept_moves(
    core: &mut Core,
    clock: &mut Clock,
    pace: &Pace,
    limit: u64,
    kept: &mut DueMoves,
    tally: &mut Tally,
) -> bool
    requires making { IsMakingDue limit pace.now (timed_at core.old clock.old tally.old) kept.old }
    ensures keeps { KeepsDue limit pace.now (timed_at core.new clock.new tally.new) kept.new }
    ensures leads { LeadsTimed limit pace.now (timed_at core.old clock.old tally.old) (timed_at core.new clock.new tally.new) }
    ensures some { result ≡ true → tally.old.moves < tally.new.moves }
{
    let before = tally.moves;
    while let Some(mv) = kept.first() {
        if !make_first(core, clock, mv, pace, limit, &*kept, tally) {
            return false;
        }
        kept.skip();
    }
    before < tally.moves
}

/// Does the same, unless an Issue may come between them: then no move is made, and the answer is false.
#[inline(always)]
fn make_if_no_issue(
    core: &mut Core,
    clock: &mut Clock,
    pace: &Pace,
    limit: u64,
    kept: &mut DueMoves,
    tally: &mut Tally,
) -> bool
    requires keeps { KeepsDue limit pace.now (timed_at core.old clock.old tally.old) kept.old }
    ensures keeps { KeepsDue limit pace.now (timed_at core.new clock.new tally.new) kept.new }
    ensures leads { LeadsTimed limit pace.now (timed_at core.old clock.old tally.old) (timed_at core.new clock.new tally.new) }
    ensures some { result ≡ true → tally.old.moves < tally.new.moves }
{
    clock.offers_no_issue(core, pace.held(), kept.time())
        && make_kept_moves(core, clock, pace, limit, kept, tally)
}

/// Looks for the moves that are due, if none is kept.
#[inline(always)]
fn look_if_none(core: &Core, clock: &Clock, kept: &mut DueMoves)
    requires due { AreDue core.now.plan (clocked clock.now core.now.state) kept.old }
    ensures due { AreDue core.now.plan (clocked clock.now core.now.state) kept.new }
{
    if kept.first().is_none() {
        clock.look(core, kept);
    }
}

/// Makes and records the moves that are due, one after another, and those that are due after them, as long as no Issue can come
/// between them and nothing enters at the bottom or leaves by them.
// A call, so that it has the registers for itself.
#[inline(never)]
pub(crate) fn make_due_moves(
    core: &mut Core,
    clock: &mut Clock,
    pace: &Pace,
    limit: u64,
    kept: &mut DueMoves,
    tally: &mut Tally,
)
    requires keeps { KeepsDue limit pace.now (timed_at core.old clock.old tally.old) kept.old }
    ensures keeps { KeepsDue limit pace.now (timed_at core.new clock.new tally.new) kept.new }
    ensures leads { LeadsTimed limit pace.now (timed_at core.old clock.old tally.old) (timed_at core.new clock.new tally.new) }
{
    look_if_none(core, clock, kept);
    while make_if_no_issue(core, clock, pace, limit, kept, tally) {
        clock.look(core, kept);
    }
}
