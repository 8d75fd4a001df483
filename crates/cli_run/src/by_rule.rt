//! A run of the processor by the rule.

ghost use Rattle.cf_run.specs.Policies.{CanRun};
ghost use Rattle.cf_sched.specs.Policies.{round_on, round_pick};
ghost use Rattle.cli_reports.specs.Reporting.{CarriesOutRun};
ghost use Rattle.cli_run.specs.Run.{ByPolicy, RunsCore, BreaksCore};
ghost use Rattle.cli_reports.specs.OutsideChanges.{run_change};

use crate::closing::close;
use cf_core::Core;
use cf_index::Candidates;
use cf_io::{Failed, Sink, Source};
use cf_report::ReportSink;
use cf_run::{PolicyOptions, Reporting, Scripted, run_rule};
use cf_sched::Round;
use cli_processor::no_moves;
use cli_reports::{Reported, RunStreams};
use run_options::GuessRule;

/// Runs the opened processor by the rule, from the moves that the guess rule keeps, and writes what is shown and the
/// closing lines.
// A separate function, with the rule as a local, so that the compiler keeps its state in registers.
#[inline(never)]
pub fn run_by_rule<S: Source, K: Sink, R: ReportSink>(
    core: &mut Core,
    candidates: &mut Candidates,
    round: Round,
    rule: GuessRule,
    limit: u64,
    reporting: Reporting,
    streams: RunStreams<'_, S, K, R>,
) -> Result<Reported, Failed>
    requires begins { CanRun limit core.old }
    ensures { CarriesOutRun (RunsCore limit reporting core.old core.new (ByPolicy rule round_pick round_on limit reporting round))
        (BreaksCore limit reporting core.old (ByPolicy rule round_pick round_on limit reporting round))
        (run_change S.Source K.Sink R.Sink streams.entry streams.exit) result }
{
    let mut round = round;
    let RunStreams {
        input,
        output,
        report,
    } = streams;
    let mut tally = no_moves();
    let options = PolicyOptions {
        rule,
        limit,
        reporting,
    };
    let ran = run_rule(
        core, candidates, &mut round, options, input, output, report, &mut tally,
    );
    close(core, limit, Scripted::Ran(ran), &tally, report)
}
