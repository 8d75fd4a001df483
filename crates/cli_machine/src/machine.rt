//! The command `machine`.

ghost use Rattle.std.specs.Prelude.{◌≡◌};
ghost use Rattle.cli_machine.specs.Machine.{RunsHart, BreaksHart, AnswersMachine, BreaksProgram};
ghost use Rattle.cli_machine.specs.Options.{chosen_of};
ghost use Rattle.cli_reports.specs.Reporting.{CarriesOutCommand, CarriesOutRun};
ghost use Rattle.cli_reports.specs.OutsideChanges.{run_change, outside_change};

use crate::closing::close_machine;
use crate::running::run;
use cf_io::{Failed, Files, Sink, Source};
use cf_report::ReportSink;
use cli_arguments::MachineOptions;
use cli_files::program_at;
use cli_reports::{Reported, RunStreams, put_answer};
use rv_machine::Machine;
use std::alloc::Global;

/// Runs a machine that has retired nothing yet, and writes the lines that it shows and the closing lines of its report.
// The machine is moved into a local of a separate function: since nothing but the run points to it, the compiler need
// not read its parts again after each store to memory.
#[inline(never)]
fn run_machine<S: Source, K: Sink, R: ReportSink>(
    machine: Machine,
    options: MachineOptions,
    streams: RunStreams<'_, S, K, R>,
) -> Result<Reported, Failed>
    requires { machine.retired ≡ 0 }
    ensures { CarriesOutRun
        (λ before after blank. RunsHart (chosen_of options.limit options.show_retired options.mul options.every) machine before after)
        (BreaksHart (chosen_of options.limit options.show_retired options.mul options.every) machine)
        (run_change S.Source K.Sink R.Sink streams.entry streams.exit) result }
{
    let RunStreams {
        input,
        output,
        report,
    } = streams;
    let mut running = machine;
    let finish = run(&mut running, options, input, output, report);
    close_machine(&running, options.limit, finish, report)
}

/// Carries out `machine`: reads the program's file and runs it, and writes the lines that are to be shown, then how the
/// run finished, how many instructions retired, and the registers. It fails if the report fails during the run; then
/// nothing more is written to the report.
pub fn run_program<F: Files, S: Source, K: Sink, R: ReportSink>(
    alloc: Global,
    program: &str,
    options: MachineOptions,
    files: &mut F,
    streams: RunStreams<'_, S, K, R>,
) -> Result<Reported, Failed>
    ensures { CarriesOutCommand
        (λ before after blank. AnswersMachine program.now (chosen_of options.limit options.show_retired options.mul options.every) before after)
        (BreaksProgram program.now (chosen_of options.limit options.show_retired options.mul options.every))
        (outside_change F.Files S.Source K.Sink R.Sink files.old files.new streams.entry streams.exit) result }
{
    match program_at(alloc, program, files) {
        Ok(machine) => run_machine(machine, options, streams),
        Err(answer) => Ok(put_answer(answer, streams.report)),
    }
}
