//! A run of the processor from a seed.

ghost use Rattle.cf_run.specs.Policies.{CanRun};
ghost use Rattle.cf_run.specs.Sweeps.{drawn_after};
ghost use Rattle.cf_sched.specs.Policies.{drawn_pick};
ghost use Rattle.cli_reports.specs.Reporting.{CarriesOutRun};
ghost use Rattle.cli_run.specs.Run.{ByPolicy, RunsCore, BreaksCore};
ghost use Rattle.cli_reports.specs.OutsideChanges.{run_change};

use crate::closing::close;
use cf_core::Core;
use cf_index::Candidates;
use cf_io::{Failed, Sink, Source};
use cf_report::ReportSink;
use cf_run::{PolicyOptions, Reporting, Scripted, run_drawn};
use cf_sched::Drawn;
use cli_processor::no_moves;
use cli_reports::{Reported, RunStreams};
use run_options::GuessRule;

/// Runs the opened processor by a generator's draws from the moves that the guess rule keeps, and writes what is shown and the
/// closing lines.
#[inline(never)]
pub fn run_by_seed<S: Source, K: Sink, R: ReportSink>(
    core: &mut Core,
    candidates: &mut Candidates,
    drawn: Drawn,
    rule: GuessRule,
    limit: u64,
    reporting: Reporting,
    streams: RunStreams<'_, S, K, R>,
) -> Result<Reported, Failed>
    requires begins { CanRun limit core.old }
    ensures { CarriesOutRun (RunsCore limit reporting core.old core.new (ByPolicy rule drawn_pick drawn_after limit reporting drawn))
        (BreaksCore limit reporting core.old (ByPolicy rule drawn_pick drawn_after limit reporting drawn))
        (run_change S.Source K.Sink R.Sink streams.entry streams.exit) result }
{
    let mut drawn = drawn;
    let RunStreams {
        input,
        output,
        report,
    } = streams;
    let mut tally = no_moves();
    let options = PolicyOptions {
        rule,
        limit,
        reporting,
    };
    let ran = run_drawn(
        core, candidates, &mut drawn, options, input, output, report, &mut tally,
    );
    close(core, limit, Scripted::Ran(ran), &tally, report)
}
