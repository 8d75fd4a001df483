//! The command `debug`.

ghost use Rattle.std.specs.Prelude.{◌≡◌, ◌≤◌, ◌++◌, []};
ghost use Rattle.cf_core.specs.Processors.{IsOpened, opened_processor};
ghost use Rattle.cf_debug.specs.Limits.{most_retired};
ghost use Rattle.cli_arguments.specs.Views.{layout_of};
ghost use Rattle.cli_debug.specs.Debug.{AnswersDebug, AnswersSession, BreaksDebug, BreaksSession, ComesOfCommands};
ghost use Rattle.cli_reports.specs.OutsideChanges.{outside_change, run_change};
ghost use Rattle.cli_reports.specs.Reporting.{CarriesOutCommand, CarriesOutRun};

use crate::closing::close_session;
use cf_debug::{Ring, debug};
use cf_io::{Failed, Files, Sink, Source};
use cli_arguments::LayoutArgument;
use cli_files::{Loaded, load, no_memory};
use cli_processor::{Opened, open};
use cli_reports::{Reported, RunStreams, put_answer};
use std::alloc::Global;

/// Debugs the opened processor, and writes the closing line of the report.
fn debug_opened<S: Source, K: Sink, R: Sink>(
    opened: &mut Opened,
    ring: &mut Ring,
    streams: RunStreams<'_, S, K, R>,
) -> Result<Reported, Failed>
    requires opened { IsOpened opened.old.core }
    requires retired { opened.old.core.state.retired ≤ most_retired }
    requires ring { ring.old ≡ [] }
    ensures { CarriesOutRun
        (λ before after blank answer shown closing. AnswersSession opened.old.core before after answer (shown ++ closing))
        (BreaksSession opened.old.core) (run_change S.Source K.Sink R.Sink streams.entry streams.exit) result }
{
    let RunStreams {
        input,
        output,
        report,
    } = streams;
    let ended = debug(
        &mut opened.core,
        &mut opened.candidates,
        ring,
        input,
        output,
        report,
    );
    close_session(ended, report)
}

/// Opens the processor of the layout on the machine, and debugs it.
#[tactic(auto, using(cf_run::proofs::Opened::opened_cores))]
fn debug_loaded<S: Source, K: Sink, R: Sink>(
    alloc: Global,
    loaded: Loaded,
    streams: RunStreams<'_, S, K, R>,
) -> Result<Reported, Failed>
    requires count { loaded.machine.retired ≡ 0 }
    ensures { CarriesOutRun
        (λ before after blank answer shown closing. ComesOfCommands loaded.layout loaded.machine before after answer (shown ++ closing))
        (BreaksSession (opened_processor loaded.layout loaded.machine)) (run_change S.Source K.Sink R.Sink streams.entry streams.exit) result }
{
    let Ok(mut ring) = Ring::new(alloc) else {
        return Ok(put_answer(no_memory(), streams.report));
    };
    match open(alloc, loaded.layout, loaded.machine) {
        Ok(mut opened) => debug_opened(&mut opened, &mut ring, streams),
        Err(_) => Ok(put_answer(no_memory(), streams.report)),
    }
}

/// Carries out `debug`: reads the layout and the program, in this order, opens the processor, and answers the commands
/// of the input, one per line, until one of them is `end` or there are no more. The answers are written to the report,
/// and what the program writes to the output; the program's own input is empty. If a session ends in another way, one
/// more line says how: there are over 16,777,216 bytes of commands, the commands failed, or the output failed. It fails
/// if the report fails during the session; then nothing more is written to the report.
pub fn debug_program<F: Files, S: Source, K: Sink, R: Sink>(
    alloc: Global,
    layout: LayoutArgument<'_>,
    program: &str,
    files: &mut F,
    streams: RunStreams<'_, S, K, R>,
) -> Result<Reported, Failed>
    ensures { CarriesOutCommand
        (λ before after blank answer shown closing. AnswersDebug (layout_of layout.entry) program.now before after answer (shown ++ closing))
        (BreaksDebug (layout_of layout.entry) program.now) (outside_change F.Files S.Source K.Sink R.Sink files.old files.new streams.entry streams.exit) result }
{
    match load(alloc, layout, program, files) {
        Ok(loaded) => debug_loaded(alloc, loaded, streams),
        Err(answer) => Ok(put_answer(answer, streams.report)),
    }
}
