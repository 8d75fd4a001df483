//! The command `gen`.

ghost use Rattle.std.specs.Prelude.{◌≡◌, ◌≤◌, ℕ, [], IfOk, IfErr, length};
ghost use Rattle.run_options.specs.Limits.{most_statements};
ghost use Rattle.cf_gen.specs.Program.{program_text};
ghost use Rattle.cli_files.specs.Memory.{SaysNoMemory};
ghost use Rattle.cli_gen.specs.Drawn.{AnswersDrawn, BreaksDrawn, StartsDrawn};
ghost use Rattle.cli_reports.specs.FileCommands.{AnswersByOutput, PutsOrFails};
ghost use Rattle.cli_reports.specs.Reporting.{CarriesOutRun};
ghost use Rattle.cli_reports.specs.OutsideChanges.{run_change};

use cf_gen::generate;
use cf_io::{Failed, MemSink, Sink, Source};
use cf_layout::plain;
use cf_report::ReportSink;
use cli_arguments::{DEFAULT_LIMIT, GuessRule, Reporting, RunOptions, Schedule, Show};
use cli_asm::file_of;
use cli_files::{Answer, ReadyRun, ReadySchedule, done, no_memory, open_image, write_fault};
use cli_reports::{Reported, RunStreams, put_answer};
use cli_run::{Tail, run_ready};
use rv_machine::Machine;
use std::alloc::Global;

/// The room for the text of a program: as much as a source may have.
const MOST_TEXT: usize = 1_048_576;

/// Carries out `gen` without `--run`: writes the text of the program that is drawn from a number to the output.
pub fn put_drawn<K: Sink>(number: u32, output: &mut K) -> Answer
    requires some { 1 ≤ number }
    requires limit { number ≤ most_statements }
    ensures { AnswersByOutput (PutsOrFails (program_text number)) K.Sink output.old output.new result }
{
    match generate(number, output) {
        Ok(()) => done(),
        Err(_) => write_fault(),
    }
}

/// An empty buffer with room for the text of each program, or the answer if there is no memory for it.
#[tactic(auto, using(asm_drawn::proofs::Programs::accepting))]
fn room_for_text(alloc: Global) -> Result<MemSink, Answer>
    ensures empty { IfOk result (λ sink. sink.written ≡ []) }
    ensures room { IfOk result (λ sink. (number : ℕ) → number ≤ most_statements → length (program_text number) ≤ sink.capacity) }
    ensures lacks { IfErr result (λ answer. SaysNoMemory answer.status answer.closing) }
{
    match MemSink::new(alloc, MOST_TEXT, Vec::new(alloc)) {
        Ok(sink) => Ok(sink),
        Err(_) => Err(no_memory()),
    }
}

/// The text of that program, or the answer if there is no memory for it.
fn drawn_text(alloc: Global, number: u32) -> Result<MemSink, Answer>
    requires some { 1 ≤ number }
    requires limit { number ≤ most_statements }
    ensures text { IfOk result (λ sink. sink.written ≡ program_text number) }
    ensures lacks { IfErr result (λ answer. SaysNoMemory answer.status answer.closing) }
{
    let mut text = match room_for_text(alloc) {
        Ok(text) => text,
        Err(answer) => return Err(answer),
    };
    match generate(number, &mut text) {
        Ok(()) => Ok(text),
        Err(_) => Err(no_memory()),
    }
}

/// The machine that the program starts, or the answer if there is no memory for it.
fn drawn_machine(alloc: Global, number: u32) -> Result<Machine, Answer>
    requires some { 1 ≤ number }
    requires limit { number ≤ most_statements }
    ensures machine { IfOk result (StartsDrawn number) }
    ensures count { IfOk result (λ machine. machine.retired ≡ 0) }
    ensures lacks { IfErr result (λ answer. SaysNoMemory answer.status answer.closing) }
{
    let text = match drawn_text(alloc, number) {
        Ok(text) => text,
        Err(answer) => return Err(answer),
    };
    let file = match file_of(alloc, text.bytes()) {
        Ok(file) => file,
        Err(answer) => return Err(answer),
    };
    match open_image(alloc, file.as_slice()) {
        Ok(machine) => Ok(machine),
        Err(answer) => Err(answer),
    }
}

/// Carries out `gen` with `--run`: assembles the text, runs it on the built-in layout by moves that are drawn from the
/// same number, and writes what `run` writes. It fails if the report fails during the run; then nothing more is written
/// to the report.
pub fn run_drawn<S: Source, K: Sink, R: ReportSink>(
    alloc: Global,
    number: u32,
    streams: RunStreams<'_, S, K, R>,
) -> Result<Reported, Failed>
    requires some { 1 ≤ number }
    requires limit { number ≤ most_statements }
    ensures { CarriesOutRun (AnswersDrawn number) (BreaksDrawn number)
        (run_change S.Source K.Sink R.Sink streams.entry streams.exit) result }
{
    let machine = match drawn_machine(alloc, number) {
        Ok(machine) => machine,
        Err(answer) => return Ok(put_answer(answer, streams.report)),
    };
    let ready = ReadyRun {
        layout: plain(),
        machine,
        schedule: ReadySchedule::Seed(number, GuessRule::Any),
    };
    let options = RunOptions {
        schedule: Schedule::Seed(number, GuessRule::Any),
        limit: DEFAULT_LIMIT,
        reporting: Reporting {
            show: Show::Report,
            every: None,
        },
    };
    run_ready(alloc, ready, options, Tail::Nothing, streams)
}
