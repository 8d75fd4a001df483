//! The run by the rule.

ghost use Rattle.std.specs.Prelude.{◌≡◌, ◌-◌, ◌≤◌, Some, true};
ghost use Rattle.cf_io.specs.Causes.{HasCause};
ghost use Rattle.run_finishes.specs.declared.finish.Scripted.TheVariants as scripted;
ghost use Rattle.cf_index.specs.PickedFrom.{from_emit};
ghost use Rattle.cf_sched.specs.Policies.{round_on, round_pick};
ghost use Rattle.cf_run.specs.Ending.{EndsSequentially};
ghost use Rattle.cf_run.specs.Moving.{place_by};
ghost use Rattle.cf_run.specs.Policies.{CanRun, PolicyUnasked, RunsRight, most_moves};
ghost use Rattle.run_finishes.specs.Stopped.{input_stopped, output_stopped, report_stopped};
ghost use Rattle.cf_run.specs.Reaching.{no_tally};
ghost use Rattle.cf_run.specs.Sweeps.{HasCome, PicksFrom, SweepsTo, rule_at, silent};

use crate::facts::known;
use crate::finished::over;
use crate::options::{Course, PolicyOptions};
use crate::policy::advance;
use crate::turning_over::sweep_rounds;
use cf_bind::Move;
use cf_core::Core;
use cf_index::Candidates;
use cf_io::{Sink, Source};
use cf_report::{ReportSink, Tally};
use cf_sched::{Pace, Round};
use run_finishes::Ran;
use run_options::{Reporting, Show};

/// Whether it is known that the search after the last pick starts over, and that no Issue is offered.
#[inline(always)]
fn starts_over(core: &Core, last: Move, round: &Round, pace: &Pace) -> bool
    requires last { round.now ≡ Some last }
    requires stages { pace.now.stages ≡ core.now.plan.stages }
    ensures { result ≡ true → PicksFrom pace.now core.now (Some last) from_emit }
{
    let _last = last;
    let _stages = core.layout().stages();
    Candidates::starts_over(core, round.rank(), pace.held())
}

/// Makes the next picks of the rule, one after another, if the search starts over and nothing is shown of them.
#[inline(always)]
#[tactic(auto, using(crate::proofs::Turning::no_turns))]
fn sweep_after(
    core: &mut Core,
    last: Move,
    round: &mut Round,
    pace: &mut Pace,
    limit: u64,
    tally: &mut Tally,
)
    requires last { round.old ≡ Some last }
    requires come { HasCome limit silent (rule_at core.old round.old pace.old tally.old) }
    ensures swept { SweepsTo limit silent (rule_at core.old round.old pace.old tally.old) (rule_at core.new round.new pace.new tally.new) }
{
    if !starts_over(core, last, round, pace) {
        return;
    }
    if over(core, limit).is_none() && !core.failed() {
        let last = sweep_rounds(core, last, pace, limit, tally);
        round.keep(last);
    }
}

/// Makes some of the next picks of the rule, one after another; none if something is shown of them.
#[inline(always)]
#[tactic(auto, using(crate::proofs::Turning::no_turns))]
fn sweep(
    core: &mut Core,
    round: &mut Round,
    pace: &mut Pace,
    limit: u64,
    reporting: Reporting,
    tally: &mut Tally,
)
    requires come { HasCome limit reporting (rule_at core.old round.old pace.old tally.old) }
    ensures swept { SweepsTo limit reporting (rule_at core.old round.old pace.old tally.old) (rule_at core.new round.new pace.new tally.new) }
    ensures come { HasCome limit reporting (rule_at core.new round.new pace.new tally.new) }
{
    match (round.last(), reporting.show, reporting.every) {
        (Some(last), Show::Report, None) => sweep_after(core, last, round, pace, limit, tally),
        _ => {}
    }
}

/// Runs the rule on an opened processor. It does what `run_policy` does with the rule, and makes the moves of one kind
/// over the stages in a loop of their own.
pub fn run_rule<S: Source, K: Sink, R: ReportSink>(
    core: &mut Core,
    candidates: &mut Candidates,
    round: &mut Round,
    options: PolicyOptions,
    input: &mut S,
    output: &mut K,
    report: &mut R,
    tally: &mut Tally,
) -> Ran
    requires begins { CanRun options.limit core.old }
    requires tally { tally.old ≡ no_tally }
    ensures run { RunsRight options.rule round_pick round_on options.limit options.reporting
        (place_by S.left K.written R.written core.old input.old output.old report.old tally.old)
        (place_by S.left K.written R.written core.new input.new output.new report.new tally.new)
        round.old round.new result }
    ensures ends { EndsSequentially options.limit
        (place_by S.left K.written R.written core.old input.old output.old report.old tally.old)
        (place_by S.left K.written R.written core.new input.new output.new report.new tally.new)
        (scripted.Ran result) }
    ensures bounded { tally.new.moves ≤ most_moves core.old.plan (core.new.state.retired - core.old.state.retired) }
    ensures input { HasCause (S.faults input.old) (S.faults input.new) (input_stopped (Some result)) }
    ensures output { HasCause (K.faults output.old) (K.faults output.new) (output_stopped (Some result)) }
    ensures report { HasCause (R.faults report.old) (R.faults report.new) (report_stopped (Some result)) }
    ensures asked { PolicyUnasked options.rule round_pick round_on options.limit options.reporting
        (place_by S.left K.written R.written core.old input.old output.old report.old tally.old)
        (place_by S.left K.written R.written core.new input.new output.new report.new tally.new)
        round.old round.new result (input.new ≡ input.old) (output.new ≡ output.old) }
{
    known(core);
    let pace = Pace::new(options.rule, core.layout().stages());
    let mut course = Course { options, pace };
    loop {
        sweep(
            core,
            round,
            &mut course.pace,
            options.limit,
            options.reporting,
            tally,
        );
        let end = advance(
            core,
            candidates,
            round,
            &mut course,
            input,
            output,
            report,
            tally,
        );
        if let Some(ran) = end {
            return ran;
        }
    }
}
