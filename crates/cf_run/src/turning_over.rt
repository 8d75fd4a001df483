//! A round of the rule: a sweep over the stages, then the moves by which something leaves, and then an Issue, or again
//! whichever move comes first.
#![tactic(auto, using(crate::proofs::Turning::goes_on_from, crate::proofs::Turning::goes_on_so, crate::proofs::Turning::no_turns, crate::proofs::Turning::sweeps_on))]

ghost use Rattle.std.specs.Prelude.{◌≡◌, ◌≢◌, ◌<◌, ◌≤◌, ◌+◌, Some, false, true};
ghost use Rattle.cf_bind.specs.declared.moves.Move.TheVariants as mv;
ghost use Rattle.cf_index.specs.declared.pipe_ends.AtTop.TheVariants as at;
ghost use Rattle.cf_index.specs.Allowed.{is_allowed};
ghost use Rattle.cf_index.specs.Order.{kind_place};
ghost use Rattle.cf_index.specs.PickedFrom.{at_top, from_access, from_emit, from_end, from_exit, from_leave, from_serve, outward_on};
ghost use Rattle.cf_run.specs.Sweeps.{IsSweeping, PicksFrom, PicksNext, SweepsFrom, SweepsOn, SweepsTo, rule_at, silent};

use crate::counting::count;
use crate::finished::over;
use crate::sweep::{make_picked, make_within, sweep_kind, sweep_once, sweep_stages};
use cf_bind::Move;
use cf_core::Core;
use cf_index::{AccessKind, AtTop, Candidates, RecoverKind};
use cf_report::Tally;
use cf_sched::Pace;

/// Where a part of a round ends: the last pick of the rule; and whether the next part goes on from there. If it does not,
/// the next pick is to be looked for among all moves.
#[derive(Clone, Copy)]
pub(crate) struct PartEnd {
    pub(crate) last: Move,
    pub(crate) goes_on: bool,
}

/// Makes the Slide that the rule picks, if it picks one. No other Slide is then made in this round.
#[inline(always)]
fn take_slide(core: &mut Core, last: Move, pace: &Pace, limit: u64, tally: &mut Tally) -> PartEnd
    requires from { SweepsFrom limit outward_on (rule_at core.old (Some last) pace.now tally.old) }
    ensures swept { SweepsTo limit silent (rule_at core.old (Some last) pace.now tally.old)
        (rule_at core.new (Some result.last) pace.now tally.new) }
    ensures from { result.goes_on ≡ true → SweepsFrom limit from_access (rule_at core.new (Some result.last) pace.now tally.new) }
{
    match Candidates::first_slide(core) {
        Some(mv) => {
            make_within(core, last, mv, pace, limit, tally);
            PartEnd {
                last: mv,
                goes_on: !Candidates::slides_after(core, mv),
            }
        }
        None => PartEnd {
            last,
            goes_on: true,
        },
    }
}

/// Makes an Issue, which the rule picks.
// The instruction is in the lowest stage then. So the processor is not drained, no Issue is offered, and the next round begins.
#[inline(always)]
fn take_issue(core: &mut Core, last: Move, mv: Move, pace: &mut Pace, limit: u64, tally: &mut Tally)
    requires issue { kind_place mv ≡ 0 }
    requires ready { IsSweeping limit (rule_at core.old (Some last) pace.old tally.old) }
    requires picked { PicksNext pace.old core.old (Some last) mv }
    ensures on { SweepsOn limit from_emit (rule_at core.old (Some last) pace.old tally.old)
        (rule_at core.new (Some mv) pace.new tally.new) }
    ensures counted { tally.new.moves ≡ tally.old.moves + 1 }
{
    let (_last, _layout) = (last, core.layout());
    let event = core.make_inside(mv);
    count(tally, mv, &event);
    pace.saw(mv, &event, false);
}

/// Makes the Issue that the rule picks if no other move comes after its last pick, if it picks one, and answers whether the
/// next round goes on from there. There is none if no move was made since this many were counted.
#[inline(always)]
fn start_over(
    core: &mut Core,
    last: Move,
    made: u64,
    pace: &mut Pace,
    limit: u64,
    tally: &mut Tally,
) -> PartEnd
    requires made { made ≤ tally.old.moves }
    requires from { SweepsFrom limit from_end (rule_at core.old (Some last) pace.old tally.old) }
    ensures swept { SweepsTo limit silent (rule_at core.old (Some last) pace.old tally.old)
        (rule_at core.new (Some result.last) pace.new tally.new) }
    ensures from { result.goes_on ≡ true → SweepsFrom limit from_emit (rule_at core.new (Some result.last) pace.new tally.new) }
    ensures more { result.goes_on ≡ true → made < tally.new.moves }
{
    if matches!(last, Move::Issue(_)) || tally.moves == made {
        return PartEnd {
            last,
            goes_on: false,
        };
    }
    match Candidates::next_issue(core, pace.rule(), pace.held()) {
        Some(mv) => {
            take_issue(core, last, mv, pace, limit, tally);
            PartEnd {
                last: mv,
                goes_on: true,
            }
        }
        None => PartEnd {
            last,
            goes_on: true,
        },
    }
}

/// Makes the moves of operations that the rule picks one after another: a Slide, Access and all Recovers.
#[inline(always)]
fn sweep_sidings(core: &mut Core, last: Move, pace: &Pace, limit: u64, tally: &mut Tally) -> PartEnd
    requires from { SweepsFrom limit outward_on (rule_at core.old (Some last) pace.now tally.old) }
    ensures swept { SweepsTo limit silent (rule_at core.old (Some last) pace.now tally.old)
        (rule_at core.new (Some result.last) pace.now tally.new) }
    ensures from { result.goes_on ≡ true → SweepsFrom limit from_leave (rule_at core.new (Some result.last) pace.now tally.new) }
{
    let slid = take_slide(core, last, pace, limit, tally);
    if !slid.goes_on {
        return slid;
    }
    let accessed = sweep_once::<AccessKind>(core, slid.last, pace, limit, tally);
    let recovered = sweep_kind::<RecoverKind>(core, accessed, pace, limit, tally);
    PartEnd {
        last: recovered,
        goes_on: true,
    }
}

/// The same; nothing is looked for if no siding has an operation.
#[inline(always)]
fn pass_sidings(core: &mut Core, last: Move, pace: &Pace, limit: u64, tally: &mut Tally) -> PartEnd
    requires from { SweepsFrom limit outward_on (rule_at core.old (Some last) pace.now tally.old) }
    ensures swept { SweepsTo limit silent (rule_at core.old (Some last) pace.now tally.old)
        (rule_at core.new (Some result.last) pace.now tally.new) }
    ensures from { result.goes_on ≡ true → SweepsFrom limit from_leave (rule_at core.new (Some result.last) pace.now tally.new) }
{
    if Candidates::sidings_empty(core) {
        return PartEnd {
            last,
            goes_on: true,
        };
    }
    sweep_sidings(core, last, pace, limit, tally)
}

/// Makes Leave, which the rule picks, and asks whether the run is over then: no other move of a round ends a run.
#[inline(always)]
fn take_leave(
    core: &mut Core,
    last: Move,
    pace: &mut Pace,
    limit: u64,
    tally: &mut Tally,
) -> PartEnd
    requires ready { IsSweeping limit (rule_at core.old (Some last) pace.old tally.old) }
    requires picked { PicksNext pace.old core.old (Some last) mv.Leave }
    ensures swept { SweepsTo limit silent (rule_at core.old (Some last) pace.old tally.old)
        (rule_at core.new (Some result.last) pace.new tally.new) }
    ensures from { result.goes_on ≡ true → SweepsFrom limit from_exit (rule_at core.new (Some result.last) pace.new tally.new) }
    ensures serve { is_allowed core.new.plan core.new.state mv.Serve ≡ false }
{
    make_picked(core, last, Move::Leave, pace, limit, tally);
    PartEnd {
        last: Move::Leave,
        goes_on: over(core, limit).is_none(),
    }
}

/// Makes Leave, if this is what the instruction of the highest stage can do: the rule picks it then.
#[inline(always)]
fn pass_leave(
    core: &mut Core,
    last: Move,
    top: AtTop,
    pace: &mut Pace,
    limit: u64,
    tally: &mut Tally,
) -> PartEnd
    requires top { top ≡ at_top core.old.plan core.old.state }
    requires from { SweepsFrom limit from_leave (rule_at core.old (Some last) pace.old tally.old) }
    ensures swept { SweepsTo limit silent (rule_at core.old (Some last) pace.old tally.old)
        (rule_at core.new (Some result.last) pace.new tally.new) }
    ensures from { result.goes_on ≡ true → SweepsFrom limit from_exit (rule_at core.new (Some result.last) pace.new tally.new) }
    ensures serve { top ≢ at.Serves → is_allowed core.new.plan core.new.state mv.Serve ≡ false }
{
    match top {
        AtTop::Leaves => take_leave(core, last, pace, limit, tally),
        AtTop::Serves | AtTop::Stays => PartEnd {
            last,
            goes_on: true,
        },
    }
}

/// Makes Exit, if the rule picks it, and answers its last pick.
#[inline(always)]
fn sweep_exit(core: &mut Core, last: Move, pace: &mut Pace, limit: u64, tally: &mut Tally) -> Move
    requires from { SweepsFrom limit from_exit (rule_at core.old (Some last) pace.old tally.old) }
    ensures on { SweepsOn limit from_serve (rule_at core.old (Some last) pace.old tally.old)
        (rule_at core.new (Some result) pace.new tally.new) }
    ensures serve { is_allowed core.new.plan core.new.state mv.Serve ≡ is_allowed core.old.plan core.old.state mv.Serve }
{
    if !Candidates::may_exit(core) {
        return last;
    }
    make_picked(core, last, Move::Exit, pace, limit, tally);
    Move::Exit
}

/// Makes Exit, if the rule picks it. If the instruction of the highest stage can be served, the next pick is to be looked for
/// among all moves, and otherwise none is left in this round.
#[inline(always)]
fn take_exit(
    core: &mut Core,
    last: Move,
    top: AtTop,
    pace: &mut Pace,
    limit: u64,
    tally: &mut Tally,
) -> PartEnd
    requires serve { top ≢ at.Serves → is_allowed core.old.plan core.old.state mv.Serve ≡ false }
    requires from { SweepsFrom limit from_exit (rule_at core.old (Some last) pace.old tally.old) }
    ensures swept { SweepsTo limit silent (rule_at core.old (Some last) pace.old tally.old)
        (rule_at core.new (Some result.last) pace.new tally.new) }
    ensures from { result.goes_on ≡ true → SweepsFrom limit from_end (rule_at core.new (Some result.last) pace.new tally.new) }
{
    let exited = sweep_exit(core, last, pace, limit, tally);
    PartEnd {
        last: exited,
        goes_on: !matches!(top, AtTop::Serves),
    }
}

/// Makes Leave and Exit, if the rule picks them, until the run is over or the rule picks Serve.
// The instruction of the highest stage is looked at once: after a Leave there is none, and an Exit leaves it as it is.
#[inline(always)]
fn sweep_leaving(
    core: &mut Core,
    last: Move,
    pace: &mut Pace,
    limit: u64,
    tally: &mut Tally,
) -> PartEnd
    requires from { SweepsFrom limit from_leave (rule_at core.old (Some last) pace.old tally.old) }
    ensures swept { SweepsTo limit silent (rule_at core.old (Some last) pace.old tally.old)
        (rule_at core.new (Some result.last) pace.new tally.new) }
    ensures from { result.goes_on ≡ true → SweepsFrom limit from_end (rule_at core.new (Some result.last) pace.new tally.new) }
{
    let top = Candidates::at_top(core);
    let left = pass_leave(core, last, top, pace, limit, tally);
    if !left.goes_on {
        return left;
    }
    take_exit(core, left.last, top, pace, limit, tally)
}

/// Makes the moves of the kinds after those over the stages that the rule picks one after another.
#[inline(always)]
fn sweep_outward(
    core: &mut Core,
    last: Move,
    pace: &mut Pace,
    limit: u64,
    tally: &mut Tally,
) -> PartEnd
    requires from { SweepsFrom limit outward_on (rule_at core.old (Some last) pace.old tally.old) }
    ensures swept { SweepsTo limit silent (rule_at core.old (Some last) pace.old tally.old)
        (rule_at core.new (Some result.last) pace.new tally.new) }
    ensures from { result.goes_on ≡ true → SweepsFrom limit from_end (rule_at core.new (Some result.last) pace.new tally.new) }
{
    let passed = pass_sidings(core, last, pace, limit, tally);
    if !passed.goes_on {
        return passed;
    }
    sweep_leaving(core, passed.last, pace, limit, tally)
}

/// Makes moves that the rule picks one after another, round after round, until the next one is to be looked for among all
/// moves. At first the rule picks the first move that is allowed of Emit and of the kinds after it.
// Not inlined; it has all parts of a round in it.
#[inline(never)]
pub(crate) fn sweep_rounds(
    core: &mut Core,
    last: Move,
    pace: &mut Pace,
    limit: u64,
    tally: &mut Tally,
) -> Move
    requires ready { IsSweeping limit (rule_at core.old (Some last) pace.old tally.old) }
    requires picked { PicksFrom pace.old core.old (Some last) from_emit }
    ensures swept { SweepsTo limit silent (rule_at core.old (Some last) pace.old tally.old)
        (rule_at core.new (Some result) pace.new tally.new) }
{
    let mut last = last;
    loop {
        let made = tally.moves;
        let swept = sweep_stages(core, last, pace, limit, tally);
        let gone = sweep_outward(core, swept, pace, limit, tally);
        if !gone.goes_on {
            return gone.last;
        }
        let next = start_over(core, gone.last, made, pace, limit, tally);
        if !next.goes_on {
            return next.last;
        }
        last = next.last;
    }
}
