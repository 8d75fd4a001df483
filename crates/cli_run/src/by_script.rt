//! A run of the processor by a script.

ghost use Rattle.std.specs.Prelude.{◌≡◌, ◌≤◌, false, length};
ghost use Rattle.run_options.specs.Limits.{most_limit};
ghost use Rattle.run_scripts.specs.Limits.{most_script};
ghost use Rattle.cli_reports.specs.Reporting.{CarriesOutRun};
ghost use Rattle.cli_run.specs.Run.{ByScript, RunsCore, BreaksCore};
ghost use Rattle.cli_reports.specs.OutsideChanges.{run_change};

use crate::closing::close;
use cf_core::Core;
use cf_io::{Failed, Sink, Source};
use cf_report::ReportSink;
use cf_run::{Reporting, run_script};
use cli_processor::no_moves;
use cli_reports::{Reported, RunStreams};
use run_scripts::Script;

/// Runs the processor by the moves of a text, and writes what is shown and the closing lines.
// A separate function, so that the compiler makes this loop separately from those of the policies.
#[inline(never)]
pub fn run_by_script<S: Source, K: Sink, R: ReportSink>(
    core: &mut Core,
    text: &[u8],
    limit: u64,
    reporting: Reporting,
    streams: RunStreams<'_, S, K, R>,
) -> Result<Reported, Failed>
    requires limit { limit ≤ most_limit }
    requires retired { core.old.state.retired ≤ limit }
    requires works { core.old.state.failed ≡ false }
    requires fits { length text.now ≤ most_script }
    ensures { CarriesOutRun (RunsCore limit reporting core.old core.new (ByScript limit reporting text.now))
        (BreaksCore limit reporting core.old (ByScript limit reporting text.now))
        (run_change S.Source K.Sink R.Sink streams.entry streams.exit) result }
{
    let RunStreams {
        input,
        output,
        report,
    } = streams;
    let mut moves = Script::view(text);
    let mut tally = no_moves();
    let finish = run_script(
        core, &mut moves, limit, reporting, input, output, report, &mut tally,
    );
    close(core, limit, finish, &tally, report)
}
