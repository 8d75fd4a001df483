//! The run of a policy.
#![tactic(auto)]

ghost use Rattle.std.specs.Prelude.{◌≡◌, ◌+◌, ◌-◌, ◌<◌, ◌≤◌, ◌^◌, None, Some, false, length, slice_get};
ghost use Rattle.cf_io.specs.Causes.{HasCause};
ghost use Rattle.cf_core.specs.Asking.{AsksInput, AsksOutput};
ghost use Rattle.cf_sched.specs.Paces.{offered_by};
ghost use Rattle.run_finishes.specs.declared.finish.Scripted.TheVariants as scripted;
ghost use Rattle.cf_run.specs.Ending.{EndsSequentially};
ghost use Rattle.cf_run.specs.Made.{CanCount};
ghost use Rattle.cf_run.specs.Moving.{place_by};
ghost use Rattle.cf_run.specs.Policies.{chooser, CanRun, ChoiceAsks, PolicyTurns, PolicyUnasked, RunsRight, most_moves};
ghost use Rattle.run_finishes.specs.Stopped.{input_stopped, output_stopped, report_stopped};
ghost use Rattle.cf_run.specs.Reaching.{no_tally};

use crate::facts::known;
use crate::finished::over;
use crate::making::make_in_order;
use crate::options::{Course, PolicyOptions};
use cf_bind::Move;
use cf_core::Core;
use cf_index::Candidates;
use cf_io::{Sink, Source};
use cf_report::{ReportSink, Tally};
use cf_sched::{Pace, Policy};
use run_finishes::Ran;

/// The move that the policy picks from what it is offered.
#[inline(always)]
#[tactic(auto, using(crate::proofs::Stopped::offering))]
fn choose<P: Policy>(core: &Core, candidates: &mut Candidates, policy: &mut P, pace: &Pace) -> Move
    requires stages { pace.now.stages ≡ core.now.plan.stages }
    requires some { 0 < length (offered_by pace.now.rule core.now.plan pace.now.count core.now.state) }
    ensures choice { Some result ≡ slice_get (offered_by pace.now.rule core.now.plan pace.now.count core.now.state)
        (P.picked policy.old (offered_by pace.now.rule core.now.plan pace.now.count core.now.state)) }
    ensures onward { policy.new ≡ P.onward policy.old (offered_by pace.now.rule core.now.plan pace.now.count core.now.state) }
{
    policy.choose(core, candidates, pace)
}

/// Makes the move that the policy picks, or returns why the run stops.
#[inline(always)]
pub(crate) fn advance<P: Policy, S: Source, K: Sink, R: ReportSink>(
    core: &mut Core,
    candidates: &mut Candidates,
    policy: &mut P,
    course: &mut Course,
    input: &mut S,
    output: &mut K,
    report: &mut R,
    tally: &mut Tally,
) -> Option<Ran>
    requires limit { course.old.options.limit + 1 < 2 ^ 64 }
    requires retired { core.old.state.retired ≤ course.old.options.limit }
    requires stages { course.old.pace.stages ≡ core.old.plan.stages }
    requires some { core.old.state.ending ≡ None → 0 < length (offered_by course.old.pace.rule core.old.plan course.old.pace.count core.old.state) }
    requires counts { CanCount tally.old }
    ensures turns { PolicyTurns P.picked P.onward course.old.options.limit course.old.options.reporting
        (place_by S.left K.written R.written core.old input.old output.old report.old tally.old)
        (place_by S.left K.written R.written core.new input.new output.new report.new tally.new)
        (chooser course.old.pace.rule policy.old course.old.pace.count) (chooser course.new.pace.rule policy.new course.new.pace.count) result }
    ensures options { course.new.options ≡ course.old.options }
    ensures rule { course.new.pace.rule ≡ course.old.pace.rule }
    ensures stages { course.new.pace.stages ≡ course.old.pace.stages }
    ensures input { HasCause (S.faults input.old) (S.faults input.new) (input_stopped result) }
    ensures output { HasCause (K.faults output.old) (K.faults output.new) (output_stopped result) }
    ensures report { HasCause (R.faults report.old) (R.faults report.new) (report_stopped result) }
    ensures input_asked { (ChoiceAsks AsksInput P.picked course.old.options.limit (chooser course.old.pace.rule policy.old course.old.pace.count) core.old → ⊥) →
        input.new ≡ input.old }
    ensures output_asked { (ChoiceAsks AsksOutput P.picked course.old.options.limit (chooser course.old.pace.rule policy.old course.old.pace.count) core.old → ⊥) →
        output.new ≡ output.old }
{
    if let Some(ran) = over(core, course.options.limit) {
        return Some(ran);
    }
    let mv = choose(core, candidates, policy, &course.pace);
    match make_in_order(
        core,
        mv,
        course.options.reporting,
        input,
        output,
        report,
        tally,
    ) {
        Ok(event) => {
            course.pace.saw(mv, &event, core.drained());
            None
        }
        Err(ran) => Some(ran),
    }
}

/// Runs a policy on an opened processor: makes the moves that it picks, one after another, until the program ends, as
/// many instructions have retired as the limit allows, or a fault occurs. These are tested in this order before each
/// move. The policy is offered the allowed moves in the order of all moves, without Issue if the hold rule holds it
/// back. An issue with an address is never offered, and of the other issues only those that the guess rule keeps. What
/// `reporting` selects is written to the report during the run. It allocates no memory and always terminates.
///
/// `ReadFault` and `WriteFault` come only if the input or the output failed a call of the environment; that move is not
/// counted. `ReportFault` comes only if the report failed: after a move that was made and counted, or as it passed on
/// what it had gathered, before a Serve, which was not made. In each case that object's count of faults rose.
///
/// If no move of the run uses the input, what the input exposes is unchanged; the output likewise.
pub fn run_policy<P: Policy, S: Source, K: Sink, R: ReportSink>(
    core: &mut Core,
    candidates: &mut Candidates,
    policy: &mut P,
    options: PolicyOptions,
    input: &mut S,
    output: &mut K,
    report: &mut R,
    tally: &mut Tally,
) -> Ran
    requires begins { CanRun options.limit core.old }
    requires tally { tally.old ≡ no_tally }
    ensures run { RunsRight options.rule P.picked P.onward options.limit options.reporting
        (place_by S.left K.written R.written core.old input.old output.old report.old tally.old)
        (place_by S.left K.written R.written core.new input.new output.new report.new tally.new)
        policy.old policy.new result }
    ensures ends { EndsSequentially options.limit
        (place_by S.left K.written R.written core.old input.old output.old report.old tally.old)
        (place_by S.left K.written R.written core.new input.new output.new report.new tally.new)
        (scripted.Ran result) }
    ensures bounded { tally.new.moves ≤ most_moves core.old.plan (core.new.state.retired - core.old.state.retired) }
    ensures input { HasCause (S.faults input.old) (S.faults input.new) (input_stopped (Some result)) }
    ensures output { HasCause (K.faults output.old) (K.faults output.new) (output_stopped (Some result)) }
    ensures report { HasCause (R.faults report.old) (R.faults report.new) (report_stopped (Some result)) }
    ensures asked { PolicyUnasked options.rule P.picked P.onward options.limit options.reporting
        (place_by S.left K.written R.written core.old input.old output.old report.old tally.old)
        (place_by S.left K.written R.written core.new input.new output.new report.new tally.new)
        policy.old policy.new result (input.new ≡ input.old) (output.new ≡ output.old) }
{
    known(core);
    let pace = Pace::new(options.rule, core.layout().stages());
    let mut course = Course { options, pace };
    loop {
        let end = advance(
            core,
            candidates,
            policy,
            &mut course,
            input,
            output,
            report,
            tally,
        );
        if let Some(ran) = end {
            return ran;
        }
    }
}
