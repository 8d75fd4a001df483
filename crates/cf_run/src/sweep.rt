//! A sweep of the rule: Emit, then all Climbs, all Falls and so on up to all Launches that it picks one after another. It uses
//! neither stream, and nothing of it is shown.
#![tactic(auto, using(crate::proofs::Turning::goes_on_from, crate::proofs::Turning::goes_on_so, crate::proofs::Turning::swept_from, crate::proofs::Turning::swept_on))]

ghost use Rattle.std.specs.Prelude.{◌≡◌, ◌≢◌, ℕ, ◌+◌, ◌-◌, ◌<◌, ◌≤◌, Some};
ghost use Rattle.cf_bind.specs.declared.moves.Move.TheVariants as mv;
ghost use Rattle.cf_core.specs.Climbing.{ClimbsTo, climbed};
ghost use Rattle.cf_core.specs.Falling.{BarNoLaunch};
ghost use Rattle.cf_core.specs.Processors.{IsProcessor, after_move};
ghost use Rattle.cf_index.specs.Left.{AreLeft};
ghost use Rattle.cf_index.specs.Order.{kind_place, leave_place};
ghost use Rattle.cf_index.specs.PickedFrom.{from_climb, from_emit, from_fall, from_meet, left_then, outward_on};
ghost use Rattle.cf_run.specs.Sweeps.{IsSweeping, PicksFrom, PicksNext, SweepsFrom, SweepsOn, SweepsTo, rule_at, silent};

use crate::counting::count;
use cf_bind::Move;
use cf_core::Core;
use cf_index::{
    EmitKind, ExecuteKind, FallKind, LaunchKind, MeetKind, OnceKind, SendKind, StageKind,
    all_climbs, climbs_left, falls_bar_no_launch, lowest_stage, results_at_rest,
};
use cf_report::Tally;
use cf_sched::Pace;

/// Makes and counts the rule's pick, which is not Serve, and records it in the pace.
#[inline(always)]
pub(crate) fn make_picked(
    core: &mut Core,
    last: Move,
    mv: Move,
    pace: &mut Pace,
    limit: u64,
    tally: &mut Tally,
)
    requires before { kind_place mv ≤ 12 }
    requires ready { IsSweeping limit (rule_at core.old (Some last) pace.old tally.old) }
    requires picked { PicksNext pace.old core.old (Some last) mv }
    ensures made { core.new ≡ after_move core.old mv }
    ensures swept { SweepsTo limit silent (rule_at core.old (Some last) pace.old tally.old) (rule_at core.new (Some mv) pace.new tally.new) }
    ensures ready { kind_place mv ≢ leave_place → IsSweeping limit (rule_at core.new (Some mv) pace.new tally.new) }
    ensures counted { tally.new.moves ≡ tally.old.moves + 1 }
{
    let _last = last;
    let event = core.make_inside(mv);
    count(tally, mv, &event);
    pace.saw(mv, &event, core.drained());
}

/// Makes and counts the rule's pick, by which nothing enters at the bottom or leaves: the pace is unchanged by it.
#[inline(always)]
pub(crate) fn make_within(
    core: &mut Core,
    last: Move,
    mv: Move,
    pace: &Pace,
    limit: u64,
    tally: &mut Tally,
)
    requires after { 1 ≤ kind_place mv }
    requires before { kind_place mv ≤ 10 }
    requires ready { IsSweeping limit (rule_at core.old (Some last) pace.now tally.old) }
    requires picked { PicksNext pace.now core.old (Some last) mv }
    ensures facts { IsProcessor core.old.plan core.old.state }
    ensures made { core.new ≡ after_move core.old mv }
    ensures swept { SweepsTo limit silent (rule_at core.old (Some last) pace.now tally.old) (rule_at core.new (Some mv) pace.now tally.new) }
    ensures ready { IsSweeping limit (rule_at core.new (Some mv) pace.now tally.new) }
    ensures counted { tally.new.moves ≡ tally.old.moves + 1 }
{
    let (_last, _pace, _layout) = (last, pace, core.layout());
    let event = core.make_inside(mv);
    count(tally, mv, &event);
}

/// Makes the move of the kind at the stage, which the rule picks.
#[inline(always)]
fn make_at_stage<T: StageKind>(
    core: &mut Core,
    last: Move,
    stage: u32,
    pace: &Pace,
    limit: u64,
    tally: &mut Tally,
) -> Move
    requires ready { IsSweeping limit (rule_at core.old (Some last) pace.now tally.old) }
    requires picked { PicksNext pace.now core.old (Some last) (T.at_stage stage) }
    ensures value { result ≡ T.at_stage stage }
    ensures facts { IsProcessor core.old.plan core.old.state }
    ensures made { core.new ≡ after_move core.old (T.at_stage stage) }
    ensures swept { SweepsTo limit silent (rule_at core.old (Some last) pace.now tally.old)
        (rule_at core.new (Some result) pace.now tally.new) }
    ensures ready { IsSweeping limit (rule_at core.new (Some result) pace.now tally.new) }
    ensures picked { (w : ℕ) → AreLeft core.new.plan core.new.state stage T.at_stage w →
        PicksFrom pace.now core.new (Some result) (left_then T.at_stage w T.beyond) }
    ensures counted { tally.new.moves ≡ tally.old.moves + 1 }
{
    let mv = T::at(stage);
    make_within(core, last, mv, pace, limit, tally);
    mv
}

/// Makes the moves of the kind that the rule picks one after another, and answers its last pick.
#[inline(always)]
pub(crate) fn sweep_kind<T: StageKind>(
    core: &mut Core,
    last: Move,
    pace: &Pace,
    limit: u64,
    tally: &mut Tally,
) -> Move
    requires from { SweepsFrom limit T.from (rule_at core.old (Some last) pace.now tally.old) }
    ensures on { SweepsOn limit T.beyond (rule_at core.old (Some last) pace.now tally.old)
        (rule_at core.new (Some result) pace.now tally.new) }
{
    let mut last = last;
    let mut left = T::left(core);
    while let Some(stage) = lowest_stage(left) {
        last = make_at_stage::<T>(core, last, stage, pace, limit, tally);
        left = T::left_after(core, stage, left);
    }
    last
}

/// Lets the instruction of the stage, whose Climb the rule picks, climb on as far as it can, and answers the stage that it
/// comes to. Each of its Climbs is the rule's next pick.
#[inline(always)]
fn make_climbs(
    core: &mut Core,
    last: Move,
    stage: u32,
    pace: &Pace,
    limit: u64,
    tally: &mut Tally,
) -> u32
    requires ready { IsSweeping limit (rule_at core.old (Some last) pace.now tally.old) }
    requires picked { PicksNext pace.now core.old (Some last) (mv.Climb stage) }
    ensures facts { IsProcessor core.old.plan core.old.state }
    ensures climbs { ClimbsTo core.old stage result }
    ensures made { core.new ≡ climbed core.old stage (result - stage) }
    ensures swept { SweepsTo limit silent (rule_at core.old (Some last) pace.now tally.old)
        (rule_at core.new (Some (mv.Climb (result - 1))) pace.now tally.new) }
    ensures ready { IsSweeping limit (rule_at core.new (Some (mv.Climb (result - 1))) pace.now tally.new) }
    ensures counted { tally.old.moves < tally.new.moves }
{
    let (_last, _pace, _layout) = (last, pace, core.layout());
    let top = core.climb_on(stage);
    tally.moves += (top - stage) as u64;
    top
}

/// Makes the Climbs that the rule picks one after another, and answers its last pick.
#[inline(always)]
fn sweep_climbs(core: &mut Core, last: Move, pace: &Pace, limit: u64, tally: &mut Tally) -> Move
    requires from { SweepsFrom limit from_climb (rule_at core.old (Some last) pace.now tally.old) }
    ensures on { SweepsOn limit from_fall (rule_at core.old (Some last) pace.now tally.old)
        (rule_at core.new (Some result) pace.now tally.new) }
{
    let mut last = last;
    let mut left = all_climbs(core);
    while let Some(stage) = lowest_stage(left) {
        let top = make_climbs(core, last, stage, pace, limit, tally);
        last = Move::Climb(top - 1);
        left = climbs_left(stage, left);
    }
    last
}

/// Makes the Falls from these stages, of which there is one, and those from the stages above that are allowed after them. Each
/// is the rule's next pick, and none can bar a Launch.
#[inline(always)]
fn make_falls(
    core: &mut Core,
    last: Move,
    left: u32,
    pace: &Pace,
    limit: u64,
    tally: &mut Tally,
) -> Move
    requires from { SweepsFrom limit from_fall (rule_at core.old (Some last) pace.now tally.old) }
    requires left { AreLeft core.old.plan core.old.state 0 mv.Fall left }
    requires some { left ≢ 0 }
    requires quiet { BarNoLaunch core.old.plan core.old.state }
    ensures on { SweepsOn limit from_meet (rule_at core.old (Some last) pace.now tally.old)
        (rule_at core.new (Some result) pace.now tally.new) }
{
    let (_last, _pace, _layout) = (last, pace, core.layout());
    let resting = results_at_rest(core);
    let fallen = core.fall_on(left, resting);
    tally.moves += fallen.count as u64;
    Move::Fall(fallen.last)
}

/// Makes the Falls that the rule picks one after another, each by itself.
// It stays a call, since it is rare: a result is right above a stage from which an operation can be launched.
#[inline(never)]
fn sweep_falls_singly(
    core: &mut Core,
    last: Move,
    pace: &Pace,
    limit: u64,
    tally: &mut Tally,
) -> Move
    requires from { SweepsFrom limit from_fall (rule_at core.old (Some last) pace.now tally.old) }
    ensures on { SweepsOn limit from_meet (rule_at core.old (Some last) pace.now tally.old)
        (rule_at core.new (Some result) pace.now tally.new) }
{
    sweep_kind::<FallKind>(core, last, pace, limit, tally)
}

/// The same. This calls the function above.
// What the call takes and answers is copied here, so that it stays in registers where there is no call.
#[inline(always)]
fn sweep_falls_apart(
    core: &mut Core,
    last: Move,
    pace: &Pace,
    limit: u64,
    tally: &mut Tally,
) -> Move
    requires from { SweepsFrom limit from_fall (rule_at core.old (Some last) pace.now tally.old) }
    ensures on { SweepsOn limit from_meet (rule_at core.old (Some last) pace.now tally.old)
        (rule_at core.new (Some result) pace.now tally.new) }
{
    let fallen = sweep_falls_singly(core, last, pace, limit, tally);
    fallen
}

/// Makes the Falls that the rule picks one after another, and answers its last pick.
#[inline(always)]
fn sweep_falls(core: &mut Core, last: Move, pace: &Pace, limit: u64, tally: &mut Tally) -> Move
    requires from { SweepsFrom limit from_fall (rule_at core.old (Some last) pace.now tally.old) }
    ensures on { SweepsOn limit from_meet (rule_at core.old (Some last) pace.now tally.old)
        (rule_at core.new (Some result) pace.now tally.new) }
{
    let left = FallKind::left(core);
    if left == 0 {
        last
    } else if falls_bar_no_launch(core) {
        make_falls(core, last, left, pace, limit, tally)
    } else {
        sweep_falls_apart(core, last, pace, limit, tally)
    }
}

/// Makes the move of a kind that has only one, which the rule picks.
#[inline(always)]
fn make_only<T: OnceKind>(
    core: &mut Core,
    last: Move,
    pace: &Pace,
    limit: u64,
    tally: &mut Tally,
) -> Move
    requires ready { IsSweeping limit (rule_at core.old (Some last) pace.now tally.old) }
    requires picked { PicksNext pace.now core.old (Some last) T.only_move }
    ensures on { SweepsOn limit T.beyond (rule_at core.old (Some last) pace.now tally.old)
        (rule_at core.new (Some result) pace.now tally.new) }
{
    let mv = T::only();
    make_within(core, last, mv, pace, limit, tally);
    mv
}

/// Makes the move of a kind that has only one, if the rule picks it, and answers its last pick.
#[inline(always)]
pub(crate) fn sweep_once<T: OnceKind>(
    core: &mut Core,
    last: Move,
    pace: &Pace,
    limit: u64,
    tally: &mut Tally,
) -> Move
    requires from { SweepsFrom limit T.from (rule_at core.old (Some last) pace.now tally.old) }
    ensures on { SweepsOn limit T.beyond (rule_at core.old (Some last) pace.now tally.old)
        (rule_at core.new (Some result) pace.now tally.new) }
{
    if T::is_left(core) {
        make_only::<T>(core, last, pace, limit, tally)
    } else {
        last
    }
}

/// Makes the moves of Emit and of each kind over the stages that the rule picks one after another, and answers its last pick.
/// At first the rule picks the first move that is allowed of Emit and of the kinds after it.
// It is a part of the loop over rounds, of which the caller makes a call.
#[inline(always)]
pub(crate) fn sweep_stages(
    core: &mut Core,
    last: Move,
    pace: &Pace,
    limit: u64,
    tally: &mut Tally,
) -> Move
    requires from { SweepsFrom limit from_emit (rule_at core.old (Some last) pace.now tally.old) }
    ensures on { SweepsOn limit outward_on (rule_at core.old (Some last) pace.now tally.old)
        (rule_at core.new (Some result) pace.now tally.new) }
{
    let emitted = sweep_once::<EmitKind>(core, last, pace, limit, tally);
    let climbed = sweep_climbs(core, emitted, pace, limit, tally);
    let fallen = sweep_falls(core, climbed, pace, limit, tally);
    let met = sweep_kind::<MeetKind>(core, fallen, pace, limit, tally);
    let executed = sweep_kind::<ExecuteKind>(core, met, pace, limit, tally);
    let sent = sweep_kind::<SendKind>(core, executed, pace, limit, tally);
    sweep_kind::<LaunchKind>(core, sent, pace, limit, tally)
}
