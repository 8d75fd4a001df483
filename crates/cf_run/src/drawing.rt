//! The run from a seed. Its moves are drawn and made in a loop of their own while nothing is shown of them, nothing but a Leave
//! can end the run, and all candidates are in one word.
#![tactic(auto, using(crate::proofs::Turning::goes_on_so, crate::proofs::Turning::no_turns))]

ghost use Rattle.std.specs.Prelude.{◌≡◌, ◌≢◌, ◌+◌, ◌-◌, ◌<◌, ◌≤◌, ◌^◌, None, false, true};
ghost use Rattle.cf_io.specs.Causes.{HasCause};
ghost use Rattle.cf_bind.specs.declared.moves.Move.TheVariants as moves;
ghost use Rattle.cf_semantics.specs.moves.Bars.{bar};
ghost use Rattle.cf_index.specs.Allowed.{is_allowed};
ghost use Rattle.cf_index.specs.Order.{kind_place, leave_place};
ghost use Rattle.cf_sched.specs.Paces.{offered_by, stopped};
ghost use Rattle.cf_sched.specs.Policies.{drawn_pick};
ghost use Rattle.run_finishes.specs.declared.finish.Scripted.TheVariants as scripted;
ghost use Rattle.cf_run.specs.Ending.{EndsSequentially};
ghost use Rattle.cf_run.specs.Made.{CanCount};
ghost use Rattle.cf_run.specs.Moving.{place_by};
ghost use Rattle.cf_run.specs.Policies.{CanRun, PolicyUnasked, RunsRight, most_moves};
ghost use Rattle.cf_run.specs.Reaching.{no_tally};
ghost use Rattle.cf_run.specs.Sweeps.{DrawsOn, DrawsTo, HasDrawn, IsDrawing, IsRecorded, drawn_after, policy_at, silent};
ghost use Rattle.run_finishes.specs.Stopped.{input_stopped, output_stopped, report_stopped};

use crate::counting::count;
use crate::facts::known;
use crate::finished::over;
use crate::options::{Course, PolicyOptions};
use crate::policy::advance;
use cf_bind::Move;
use cf_core::Core;
use cf_index::{Candidates, PackedCandidates};
use cf_io::{Sink, Source};
use cf_report::{ReportSink, Tally};
use cf_sched::{Drawn, Pace};
use run_finishes::Ran;
use run_options::{Reporting, Show};

/// Makes and counts a move, and records it in the pace.
#[inline(always)]
fn make_recorded(core: &mut Core, mv: Move, pace: &mut Pace, tally: &mut Tally)
    requires allowed { bar core.old.plan core.old.state mv ≡ None }
    requires other { mv ≢ moves.Serve }
    requires retired { core.old.state.retired + 1 < 2 ^ 64 }
    requires counts { CanCount tally.old }
    ensures { IsRecorded mv core.old core.new pace.old pace.new tally.old tally.new }
{
    let event = core.make_inside(mv);
    count(tally, mv, &event);
    pace.saw(mv, &event, core.drained());
}

/// Makes and counts a move by which nothing enters at the bottom or leaves: the pace is unchanged by it.
#[inline(always)]
fn make_seen(core: &mut Core, mv: Move, pace: &Pace, tally: &mut Tally)
    requires after { 1 ≤ kind_place mv }
    requires before { kind_place mv ≤ 10 }
    requires allowed { bar core.old.plan core.old.state mv ≡ None }
    requires counts { CanCount tally.old }
    requires stops { stopped pace.now.stages pace.now.count ≡ pace.now.count }
    ensures { IsRecorded mv core.old core.new pace.now pace.now tally.old tally.new }
{
    let _pace = pace;
    let event = core.make_inside(mv);
    count(tally, mv, &event);
}

/// The same of a move that is no meeting, of which nothing is seen.
#[inline(always)]
fn make_unseen(core: &mut Core, mv: Move, pace: &Pace, tally: &mut Tally)
    requires after { 1 ≤ kind_place mv }
    requires before { kind_place mv ≤ 10 }
    requires other { kind_place mv ≢ 4 }
    requires allowed { bar core.old.plan core.old.state mv ≡ None }
    requires counts { CanCount tally.old }
    requires stops { stopped pace.now.stages pace.now.count ≡ pace.now.count }
    ensures { IsRecorded mv core.old core.new pace.now pace.now tally.old tally.new }
{
    let _pace = pace;
    core.make_inside(mv);
    tally.moves += 1;
}

/// Makes and counts a drawn move, and returns whether the pace may have changed or the run may be over: only then something
/// enters at the bottom or leaves.
// The kinds are named one by one, so that the compiler goes to the code of a kind by one jump.
#[inline(always)]
fn make_drawn(core: &mut Core, mv: Move, pace: &mut Pace, tally: &mut Tally) -> bool
    requires allowed { bar core.old.plan core.old.state mv ≡ None }
    requires other { mv ≢ moves.Serve }
    requires retired { core.old.state.retired + 1 < 2 ^ 64 }
    requires counts { CanCount tally.old }
    requires stops { stopped pace.old.stages pace.old.count ≡ pace.old.count }
    ensures taken { IsRecorded mv core.old core.new pace.old pace.new tally.old tally.new }
    ensures pace { result ≡ false → pace.new ≡ pace.old }
    ensures stays { result ≡ false → kind_place mv ≢ leave_place }
{
    match mv {
        Move::Issue(_) | Move::Leave | Move::Exit => {
            make_recorded(core, mv, pace, tally);
            true
        }
        Move::Meet(_) => {
            make_seen(core, mv, &*pace, tally);
            false
        }
        Move::Emit
        | Move::Climb(_)
        | Move::Fall(_)
        | Move::Execute(_)
        | Move::Send(_)
        | Move::Launch(_)
        | Move::Slide(_, _)
        | Move::Access
        | Move::Recover(_) => {
            make_unseen(core, mv, &*pace, tally);
            false
        }
        Move::Serve => unreachable!(),
    }
}

/// Draws one of the moves that are offered, makes and counts it, and returns whether the pace may have changed or the run may
/// be over.
#[inline(always)]
fn take_turn(
    core: &mut Core,
    drawn: &mut Drawn,
    offered: &PackedCandidates,
    pace: &mut Pace,
    limit: u64,
    tally: &mut Tally,
) -> bool
    requires ready { IsDrawing limit (policy_at core.old drawn.old pace.old tally.old) }
    requires offered { offered.now ≡ offered_by pace.old.rule core.old.plan pace.old.count core.old.state }
    requires inside { false ≡ is_allowed core.old.plan core.old.state moves.Serve }
    ensures on { DrawsOn limit result (policy_at core.old drawn.old pace.old tally.old) (policy_at core.new drawn.new pace.new tally.new) }
{
    let mv = drawn.pick_packed(offered);
    make_drawn(core, mv, pace, tally)
}

/// The same where there are Slides. The pace may have changed, or the run may be over.
// Where there are some, the drawn one is looked for in two words. This is rare, and a call, so that elsewhere the drawn move is
// in registers.
#[inline(never)]
fn take_turn_with_slides(
    core: &mut Core,
    drawn: &mut Drawn,
    offered: PackedCandidates,
    pace: &mut Pace,
    limit: u64,
    tally: &mut Tally,
)
    requires ready { IsDrawing limit (policy_at core.old drawn.old pace.old tally.old) }
    requires offered { offered ≡ offered_by pace.old.rule core.old.plan pace.old.count core.old.state }
    requires inside { false ≡ is_allowed core.old.plan core.old.state moves.Serve }
    ensures on { DrawsOn limit true (policy_at core.old drawn.old pace.old tally.old) (policy_at core.new drawn.new pace.new tally.new) }
{
    let _limit = limit;
    let mv = drawn.pick_packed(&offered);
    make_recorded(core, mv, pace, tally);
}

/// The same, whether or not there are Slides.
#[inline(always)]
fn take_any_turn(
    core: &mut Core,
    drawn: &mut Drawn,
    offered: PackedCandidates,
    pace: &mut Pace,
    limit: u64,
    tally: &mut Tally,
) -> bool
    requires ready { IsDrawing limit (policy_at core.old drawn.old pace.old tally.old) }
    requires offered { offered ≡ offered_by pace.old.rule core.old.plan pace.old.count core.old.state }
    requires inside { false ≡ is_allowed core.old.plan core.old.state moves.Serve }
    ensures on { DrawsOn limit result (policy_at core.old drawn.old pace.old tally.old) (policy_at core.new drawn.new pace.new tally.new) }
{
    if offered.has_slides() {
        take_turn_with_slides(core, drawn, offered, pace, limit, tally);
        true
    } else {
        take_turn(core, drawn, &offered, pace, limit, tally)
    }
}

/// Draws and makes moves, one after another, until the run is over, or Serve is allowed.
// A call, so that it has the registers for itself. Only a Leave ends a run; so whether it is over is asked only where something
// entered or left.
#[inline(never)]
fn draw_moves(core: &mut Core, drawn: &mut Drawn, pace: &mut Pace, limit: u64, tally: &mut Tally)
    requires few { core.old.plan.stages ≤ 8 }
    requires ready { IsDrawing limit (policy_at core.old drawn.old pace.old tally.old) }
    ensures draws { DrawsTo limit silent (policy_at core.old drawn.old pace.old tally.old) (policy_at core.new drawn.new pace.new tally.new) }
{
    let stages = core.layout().stages();
    let rule = pace.rule();
    let mut held = pace.held();
    loop {
        if PackedCandidates::may_serve(core, stages) {
            return;
        }
        let offered = PackedCandidates::open(core, stages, false, rule, held);
        if take_any_turn(core, drawn, offered, pace, limit, tally) {
            if over(core, limit).is_some() {
                return;
            }
            held = pace.held();
        }
    }
}

/// Draws and makes some moves, one after another, if the run goes on and the layout has at most eight stages.
#[inline(always)]
fn draw_on(core: &mut Core, drawn: &mut Drawn, pace: &mut Pace, limit: u64, tally: &mut Tally)
    requires come { HasDrawn limit silent (policy_at core.old drawn.old pace.old tally.old) }
    ensures draws { DrawsTo limit silent (policy_at core.old drawn.old pace.old tally.old) (policy_at core.new drawn.new pace.new tally.new) }
{
    if core.layout().stages() <= 8 && over(core, limit).is_none() && !core.failed() {
        draw_moves(core, drawn, pace, limit, tally);
    }
}

/// Draws and makes some moves, one after another; none if something is shown of them.
#[inline(always)]
fn draw(
    core: &mut Core,
    drawn: &mut Drawn,
    pace: &mut Pace,
    limit: u64,
    reporting: Reporting,
    tally: &mut Tally,
)
    requires come { HasDrawn limit reporting (policy_at core.old drawn.old pace.old tally.old) }
    ensures draws { DrawsTo limit reporting (policy_at core.old drawn.old pace.old tally.old) (policy_at core.new drawn.new pace.new tally.new) }
    ensures come { HasDrawn limit reporting (policy_at core.new drawn.new pace.new tally.new) }
{
    match (reporting.show, reporting.every) {
        (Show::Report, None) => draw_on(core, drawn, pace, limit, tally),
        _ => {}
    }
}

/// Runs from a seed on an opened processor. It does what `run_policy` does with the generator, and makes the moves of which
/// nothing is shown in a loop of their own.
pub fn run_drawn<S: Source, K: Sink, R: ReportSink>(
    core: &mut Core,
    candidates: &mut Candidates,
    drawn: &mut Drawn,
    options: PolicyOptions,
    input: &mut S,
    output: &mut K,
    report: &mut R,
    tally: &mut Tally,
) -> Ran
    requires begins { CanRun options.limit core.old }
    requires tally { tally.old ≡ no_tally }
    ensures run { RunsRight options.rule drawn_pick drawn_after options.limit options.reporting
        (place_by S.left K.written R.written core.old input.old output.old report.old tally.old)
        (place_by S.left K.written R.written core.new input.new output.new report.new tally.new)
        drawn.old drawn.new result }
    ensures ends { EndsSequentially options.limit
        (place_by S.left K.written R.written core.old input.old output.old report.old tally.old)
        (place_by S.left K.written R.written core.new input.new output.new report.new tally.new)
        (scripted.Ran result) }
    ensures bounded { tally.new.moves ≤ most_moves core.old.plan (core.new.state.retired - core.old.state.retired) }
    ensures input { HasCause (S.faults input.old) (S.faults input.new) (input_stopped (Some result)) }
    ensures output { HasCause (K.faults output.old) (K.faults output.new) (output_stopped (Some result)) }
    ensures report { HasCause (R.faults report.old) (R.faults report.new) (report_stopped (Some result)) }
    ensures asked { PolicyUnasked options.rule drawn_pick drawn_after options.limit options.reporting
        (place_by S.left K.written R.written core.old input.old output.old report.old tally.old)
        (place_by S.left K.written R.written core.new input.new output.new report.new tally.new)
        drawn.old drawn.new result (input.new ≡ input.old) (output.new ≡ output.old) }
{
    known(core);
    let pace = Pace::new(options.rule, core.layout().stages());
    let mut course = Course { options, pace };
    loop {
        draw(
            core,
            drawn,
            &mut course.pace,
            options.limit,
            options.reporting,
            tally,
        );
        let end = advance(
            core,
            candidates,
            drawn,
            &mut course,
            input,
            output,
            report,
            tally,
        );
        if let Some(ran) = end {
            return ran;
        }
    }
}
