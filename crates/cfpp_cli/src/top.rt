//! The top call.

ghost use Rattle.std.specs.Prelude.{◌≡◌, ◌≢◌, [], false, map, string_bytes};
ghost use Rattle.cli_files.specs.Outside.{report_in};
ghost use Rattle.cli_files.specs.declared.status.Status.TheVariants as statuses;
ghost use Rattle.cfpp_cli.specs.Deciding.{Decided};
ghost use Rattle.cfpp_cli.specs.Top.{IsTop, NoneRose, says_fault};
ghost use Rattle.cli_reports.specs.OutsideChanges.{call_change, outside_change};

use crate::help::{overview, version};
use cf_io::{Failed, Files, Sink, Source};
use cf_report::ReportSink;
use cli_arguments::{Command, Reporting, RunOptions, Show, TimeShow, read_arguments};
use cli_asm::assemble_program;
use cli_audit::audit_trace;
use cli_check::check_layout;
use cli_conform::conform_log;
use cli_debug::debug_program;
use cli_files::{Answer, Status, bad_words};
use cli_gen::{put_drawn, run_drawn};
use cli_help::help_on;
use cli_list::list_program;
use cli_machine::run_program;
use cli_orders::search_program;
use cli_reports::{Reported, RunStreams, put_answer, put_text};
use cli_rounds::{RoundsOptions, run_in_rounds};
use cli_run::{Tail, run_processor};
use cli_time::compare_layouts;
use std::alloc::Global;

/// Carries out what the arguments ask for, and writes its report. It fails if the report fails before its closing
/// lines.
fn decide<F: Files, S: Source, K: Sink, R: ReportSink>(
    alloc: Global,
    arguments: &[String],
    files: &mut F,
    streams: RunStreams<'_, S, K, R>,
) -> Result<Reported, Failed>
    ensures { Decided (map string_bytes arguments.now)
        (outside_change F.Files S.Source K.Sink R.Sink files.old files.new streams.entry streams.exit) result }
{
    match read_arguments(arguments) {
        Ok(Command::Machine { program, options }) => {
            run_program(alloc, program, options, files, streams)
        }
        Ok(
            Command::Run {
                layout,
                program,
                options,
            },
        ) => run_processor(
            alloc,
            layout,
            program,
            options,
            Tail::Nothing,
            files,
            streams,
        ),
        Ok(
            Command::Moves {
                layout,
                program,
                schedule,
                limit,
                every,
            },
        ) => {
            let options = RunOptions {
                schedule,
                limit,
                reporting: Reporting {
                    show: Show::Report,
                    every,
                },
            };
            run_processor(alloc, layout, program, options, Tail::Moves, files, streams)
        }
        Ok(Command::Check { layout }) => {
            let answer = check_layout(alloc, layout, files, streams.output);
            Ok(put_answer(answer, streams.report))
        }
        Ok(Command::Asm { source }) => {
            let answer = assemble_program(alloc, source, files, streams.output);
            Ok(put_answer(answer, streams.report))
        }
        Ok(Command::List { program }) => {
            let answer = list_program(alloc, program, files, streams.output);
            Ok(put_answer(answer, streams.report))
        }
        Ok(Command::Gen { number, run: true }) => { run_drawn(alloc, number, streams) }
        Ok(Command::Gen { number, run: false }) => {
            let answer = put_drawn(number, streams.output);
            Ok(put_answer(answer, streams.report))
        }
        Ok(Command::Help) => {
            let answer = put_text(overview(), streams.output);
            Ok(put_answer(answer, streams.report))
        }
        Ok(Command::HelpOn(name)) => {
            let answer = put_text(help_on(name), streams.output);
            Ok(put_answer(answer, streams.report))
        }
        Ok(Command::Version) => {
            let answer = put_text(version(), streams.output);
            Ok(put_answer(answer, streams.report))
        }
        Ok(
            Command::Rounds {
                layout,
                program,
                limit,
                every,
                rule,
            },
        ) => {
            let options = RoundsOptions { limit, every, rule };
            run_in_rounds(alloc, layout, program, options, files, streams)
        }
        Ok(
            Command::Conform {
                layout,
                program,
                limit,
            },
        ) => Ok(conform_log(alloc, layout, program, limit, files, streams)),
        Ok(
            Command::Audit {
                layout,
                program,
                trace,
            },
        ) => {
            let answer = audit_trace(alloc, layout, program, trace, files, streams.input);
            Ok(put_answer(answer, streams.report))
        }
        Ok(Command::Debug { layout, program }) => {
            debug_program(alloc, layout, program, files, streams)
        }
        Ok(
            Command::Time {
                delays,
                program,
                layouts,
                options,
            },
        ) => compare_layouts(
            alloc,
            delays,
            program,
            layouts,
            options,
            files,
            streams.report,
        ),
        Ok(
            Command::Orders {
                layout,
                program,
                options,
            },
        ) => Ok(search_program(alloc, layout, program, options, files, streams)),
        Err(index) => {
            let answer = Answer {
                status: Status::BadWords(index),
                closing: bad_words(index),
            };
            Ok(put_answer(answer, streams.report))
        }
    }
}

/// Lets the report gather its text if each instruction or each move of a run has lines in it. Occasional lines, such as
/// those of `--every`, have to be visible as they come.
fn let_gather<R: ReportSink>(arguments: &[String], report: &mut R)
    ensures { report_in R.Sink report.new ≡ report_in R.Sink report.old }
{
    let has_many_lines = match read_arguments(arguments) {
        Ok(Command::Machine { options, .. }) => options.show_retired,
        Ok(Command::Run { options, .. }) => !matches!(options.reporting.show, Show::Report),
        Ok(Command::Time { options, .. }) => matches!(options.show, TimeShow::Moves),
        _ => false,
    };
    if has_many_lines {
        report.gather();
    }
}

/// Does what the arguments say: `machine PROGRAM` runs a program's file on the sequential machine, `run LAYOUT PROGRAM`
/// on the processor of a layout, by the moves of a script with `--script FILE`, by moves drawn from a seed with
/// `--seed N`, and otherwise by a fixed rule; `moves LAYOUT PROGRAM --script FILE` does the same and then says which
/// moves can be made where the script ends. `rounds LAYOUT PROGRAM` runs the processor in rounds of moves that share no
/// place, as a clocked one would; with `--guess R`, it and a run without a script keep to the guesses of a rule.
/// `debug LAYOUT PROGRAM` answers commands from the input, which make moves, show the processor and take moves back.
/// `audit LAYOUT PROGRAM TRACE` says whether a recorded trace is that of a run. `conform LAYOUT PROGRAM` processes the
/// log of a circuit on the input, makes its moves and compares its observations. `time DELAYS PROGRAM LAYOUT ..`
/// compares how long the program takes on up to eight layouts, on each with the bytes of a file as its input if
/// `--input` names one, and with `--show sites` says what each of these times is made of. `orders LAYOUT PROGRAM` tries
/// all orders of the first moves of a program, and writes the first wrong one to the output, if one of the processor's
/// rules is taken away. `check LAYOUT` writes a layout to the output in its canonical form, `asm SOURCE` the ELF file
/// of an assembly source, `list PROGRAM` a program's listing, and `gen N` the text of a program that is drawn from a
/// number, which `gen N --run` assembles and runs. `help COMMAND` writes the help text of a command; `help`, `--help`,
/// `-h`, `--version` and `-V` write what their names say.
///
/// The file is an ELF executable for RISC-V, whose segments are loaded, or otherwise a flat image: one region at
/// 0x00010000 that may be read, written and executed, with the entry at its start. A zeroed stack of 1 MiB is at
/// 0x7f000000. `--limit N` sets the number of retired instructions at which the run stops, by default 10,000,000.
/// `--show retired` writes a line to the report for each instruction as it retires, and `--show report`, the default,
/// none; under `run`, `--show moves` writes each move followed by the picture. `--every N` writes how far a run has
/// come after each N retired instructions; with `--mul` the machine multiplies and divides. `input` and `output` are
/// the program's own.
///
/// The report closes with how the run finished, how many instructions retired, and what the registers hold. After a run
/// of the processor it also has the counts of its moves and the picture, after a run in rounds the number of rounds,
/// and after a log the number of observations that agreed. If nothing was run it is one line that says why. After
/// `audit` it gives the number of moves of the trace. After `time` it has the lines of each layout and names the first
/// with the least time. After `debug` it has the answers to the commands, and after any other command that was carried
/// out it is empty. If the report fails, nothing more is written to it, and the status is `WriteFault`.
///
/// A report that can gather its text passes it on before each call of the program that may read or write, and at the end:
/// unless the status is `WriteFault`, nothing is kept.
pub fn cfpp<F: Files, S: Source, K: Sink, R: ReportSink>(
    alloc: Global,
    arguments: &[String],
    files: &mut F,
    input: &mut S,
    output: &mut K,
    report: &mut R,
) -> Status
    ensures top { IsTop (map string_bytes arguments.now) (call_change F.Files S.Source K.Sink R.Sink
        (files.old, (input.old, (output.old, report.old))) (files.new, (input.new, (output.new, report.new)))) result }
    ensures still { says_fault result ≡ false → NoneRose (call_change F.Files S.Source K.Sink R.Sink
        (files.old, (input.old, (output.old, report.old))) (files.new, (input.new, (output.new, report.new)))) }
    ensures passed { result ≢ statuses.WriteFault → R.kept report.new ≡ [] }
{
    let_gather(arguments, report);
    let streams = RunStreams {
        input,
        output,
        report: &mut *report,
    };
    match decide(alloc, arguments, files, streams) {
        Ok(reported) => match reported.put {
            Ok(()) => match report.pass_on() {
                Ok(()) => reported.status,
                Err(_) => Status::WriteFault,
            },
            Err(_) => Status::WriteFault,
        },
        Err(_) => Status::WriteFault,
    }
}
