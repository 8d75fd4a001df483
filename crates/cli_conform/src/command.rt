//! The command `conform`.

ghost use Rattle.std.specs.Prelude.{◌≡◌, ◌≤◌};
ghost use Rattle.run_options.specs.Limits.{most_limit};
ghost use Rattle.cli_arguments.specs.Views.{layout_of};
ghost use Rattle.cli_reports.specs.Reporting.{ReportsCommand, ReportsRun};
ghost use Rattle.cli_reports.specs.OutsideChanges.{run_change, outside_change};
ghost use Rattle.cli_conform.specs.Conform.{conform_asked, JudgesCore, ComesOfLog, AnswersConform};

use crate::closing::close_log;
use cf_conform::{LogProgress, conform};
use cf_io::{Files, Sink, Source};
use cli_arguments::LayoutArgument;
use cli_files::{Loaded, load, no_memory};
use cli_processor::{Opened, open};
use cli_reports::{Reported, RunStreams, put_answer};
use std::alloc::Global;

/// Processes the log on the opened processor, and writes its report.
fn conform_opened<S: Source, K: Sink, R: Sink>(
    opened: &mut Opened,
    limit: u64,
    streams: RunStreams<'_, S, K, R>,
) -> Reported
    requires limit { limit ≤ most_limit }
    requires retired { opened.old.core.state.retired ≤ limit }
    ensures { ReportsRun (JudgesCore limit opened.old.core opened.new.core)
        (run_change S.Source K.Sink R.Sink streams.entry streams.exit) result }
{
    let RunStreams {
        input,
        output,
        report,
    } = streams;
    let mut progress = LogProgress::new();
    let answer = conform(&mut opened.core, limit, input, output, &mut progress);
    close_log(
        &opened.core,
        &mut opened.candidates,
        limit,
        &progress,
        answer,
        report,
    )
}

/// Opens the processor of the layout on the machine, and processes the log.
#[tactic(auto, using(cf_run::proofs::Opened::opened_cores))]
fn conform_loaded<S: Source, K: Sink, R: Sink>(
    alloc: Global,
    loaded: Loaded,
    limit: u64,
    streams: RunStreams<'_, S, K, R>,
) -> Reported
    requires count { loaded.machine.retired ≡ 0 }
    requires limit { limit ≤ most_limit }
    ensures { ReportsRun (ComesOfLog limit loaded.layout loaded.machine)
        (run_change S.Source K.Sink R.Sink streams.entry streams.exit) result }
{
    match open(alloc, loaded.layout, loaded.machine) {
        Ok(mut opened) => conform_opened(&mut opened, limit, streams),
        Err(_) => put_answer(no_memory(), streams.report),
    }
}

/// Carries out `conform`: reads the layout and the program, in this order, and processes the log on the input: it makes
/// the moves in it and compares its observations with the processor, up to the first line that is refused or does not
/// agree. It writes how this finished; then the moves that can be made, if the log ended or a move is barred, or what
/// an observation should be; and then how many instructions retired, how many observations agreed, the tally of the
/// moves, the registers and the picture. The program's own input is empty.
pub fn conform_log<F: Files, S: Source, K: Sink, R: Sink>(
    alloc: Global,
    layout: LayoutArgument<'_>,
    program: &str,
    limit: u64,
    files: &mut F,
    streams: RunStreams<'_, S, K, R>,
) -> Reported
    requires { limit ≤ most_limit }
    ensures { ReportsCommand (AnswersConform (conform_asked (layout_of layout.entry) program.now limit))
        (outside_change F.Files S.Source K.Sink R.Sink files.old files.new streams.entry streams.exit) result }
{
    match load(alloc, layout, program, files) {
        Ok(loaded) => conform_loaded(alloc, loaded, limit, streams),
        Err(answer) => put_answer(answer, streams.report),
    }
}
