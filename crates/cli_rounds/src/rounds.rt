//! The command `rounds`.

ghost use Rattle.std.specs.Prelude.{◌≡◌, ◌≤◌};
ghost use Rattle.run_options.specs.Limits.{most_limit};
ghost use Rattle.cli_arguments.specs.Views.{layout_of};
ghost use Rattle.cf_rounds.specs.Running.{ran_of as ran_for};
ghost use Rattle.cf_core.specs.Processors.{opened_processor, IsOpened};
ghost use Rattle.cli_reports.specs.Reporting.{CarriesOutCommand, CarriesOutRun};
ghost use Rattle.cli_reports.specs.OutsideChanges.{run_change, outside_change};
ghost use Rattle.cli_rounds.specs.Rounds.{rounds_asked, RunsCoreInRounds, ComesInRounds, BreaksInRounds, AnswersRounds, BreaksRounds};

use crate::closing::close_in_rounds;
use cf_io::{Failed, Files, Sink, Source};
use cf_rounds::{Clocked, RoundsOptions, run_rounds};
use cf_run::Ran;
use cli_arguments::LayoutArgument;
use cli_files::{Loaded, load, no_memory};
use cli_processor::{Opened, no_moves, open};
use cli_reports::{Reported, RunStreams, put_answer};
use std::alloc::Global;

/// The finish of a run in rounds, as that of any run.
fn ran_of(clocked: Clocked) -> Ran
    ensures { result ≡ ran_for clocked }
{
    match clocked {
        Clocked::Exit(status) => Ran::Exit(status),
        Clocked::Trap { cause, pc, detail } => Ran::Trap { cause, pc, detail },
        Clocked::Limit => Ran::Limit,
        Clocked::ReadFault => Ran::ReadFault,
        Clocked::WriteFault => Ran::WriteFault,
        Clocked::ReportFault => Ran::ReportFault,
    }
}

/// Runs the opened processor in rounds, and writes what is shown and the closing lines.
#[tactic(auto, using(cf_run::proofs::Opened::opened_cores))]
fn run_core<S: Source, K: Sink, R: Sink>(
    opened: &mut Opened,
    options: RoundsOptions,
    streams: RunStreams<'_, S, K, R>,
) -> Result<Reported, Failed>
    requires limit { options.limit ≤ most_limit }
    requires retired { opened.old.core.state.retired ≤ options.limit }
    requires opened { IsOpened opened.old.core }
    ensures { CarriesOutRun (RunsCoreInRounds options.rule options.limit options.every opened.old.core opened.new.core)
        (BreaksInRounds options.rule options.limit options.every opened.old.core)
        (run_change S.Source K.Sink R.Sink streams.entry streams.exit) result }
{
    let RunStreams {
        input,
        output,
        report,
    } = streams;
    let mut tally = no_moves();
    let mut rounds = 0;
    let clocked = run_rounds(
        &mut opened.core,
        &mut opened.candidates,
        options,
        input,
        output,
        report,
        &mut tally,
        &mut rounds,
    );
    close_in_rounds(
        &opened.core,
        options.limit,
        ran_of(clocked),
        rounds,
        &tally,
        report,
    )
}

/// Opens the processor of the layout on the machine, and runs it in rounds.
#[tactic(auto, using(cf_run::proofs::Opened::opened_cores))]
fn run_loaded<S: Source, K: Sink, R: Sink>(
    alloc: Global,
    loaded: Loaded,
    options: RoundsOptions,
    streams: RunStreams<'_, S, K, R>,
) -> Result<Reported, Failed>
    requires count { loaded.machine.retired ≡ 0 }
    requires limit { options.limit ≤ most_limit }
    ensures { CarriesOutRun (ComesInRounds options.rule options.limit options.every loaded.layout loaded.machine)
        (BreaksInRounds options.rule options.limit options.every (opened_processor loaded.layout loaded.machine))
        (run_change S.Source K.Sink R.Sink streams.entry streams.exit) result }
{
    match open(alloc, loaded.layout, loaded.machine) {
        Ok(mut opened) => run_core(&mut opened, options, streams),
        Err(_) => Ok(put_answer(no_memory(), streams.report)),
    }
}

/// Carries out `rounds`: reads the layout and the program, in this order, runs the processor round after round under
/// the guess rule, and writes how far the run has come after each `every` retired instructions, then how the run
/// finished, how many instructions retired, how many rounds were made, the tally of their moves, the registers and the
/// picture. A round whose call of the environment failed is not counted, nor its move. It fails if the report fails
/// during the run; then nothing more is written to the report.
pub fn run_in_rounds<F: Files, S: Source, K: Sink, R: Sink>(
    alloc: Global,
    layout: LayoutArgument<'_>,
    program: &str,
    options: RoundsOptions,
    files: &mut F,
    streams: RunStreams<'_, S, K, R>,
) -> Result<Reported, Failed>
    requires { options.limit ≤ most_limit }
    ensures { CarriesOutCommand (AnswersRounds (rounds_asked (layout_of layout.entry) program.now options.limit options.every options.rule))
        (BreaksRounds (rounds_asked (layout_of layout.entry) program.now options.limit options.every options.rule))
        (outside_change F.Files S.Source K.Sink R.Sink files.old files.new streams.entry streams.exit) result }
{
    match load(alloc, layout, program, files) {
        Ok(loaded) => run_loaded(alloc, loaded, options, streams),
        Err(answer) => Ok(put_answer(answer, streams.report)),
    }
}
