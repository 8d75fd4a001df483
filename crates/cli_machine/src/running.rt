//! Running the sequential machine.

ghost use Rattle.std.specs.Prelude.{◌≡◌, ◌+◌, ◌<◌, ◌^◌, [], true, Ok, Some, OnErr, OnOk, ◌-◌, ◌≤◌, false};
ghost use Rattle.cf_io.specs.Causes.{HasCause};
ghost use Rattle.cf_io.specs.Puts.{WritesNothing};
ghost use Rattle.mem_regions.specs.Fetching.{fetch_at};
ghost use Rattle.cf_report.specs.Lines.{retired_line};
ghost use Rattle.cf_report.specs.Progress.{is_step as is_step_of, machine_line};
ghost use Rattle.cli_reports.specs.Reporting.{PutsInto};
ghost use Rattle.run_finishes.specs.Stopped.{input_stopped, output_stopped, report_stopped};
ghost use Rattle.cli_machine.specs.Finish.{RunsToFinish};
ghost use Rattle.cli_machine.specs.Options.{chosen_of, is_shown, machine_isa, lines_shown, shown_text, is_silent};
ghost use Rattle.rv_machine.specs.Quick.{RetireAlone};
ghost use Rattle.rv_machine.specs.Streams.{streams_of};

use cf_io::{Failed, Sink, Source};
use cf_report::{ReportSink, is_step, put_machine_progress, put_retired};
use cli_arguments::MachineOptions;
use run_finishes::Ran;
use rv_inst::Isa;
use rv_machine::{Machine, Retired, Stepped};

/// The instruction set of a machine that multiplies and divides, or of one that does not.
fn instruction_set(mul: bool) -> Isa
    ensures { result ≡ machine_isa mul }
{
    if mul { Isa::Rv32im } else { Isa::Rv32i }
}

/// Writes the line of an instruction that retired; `count` have retired, including it.
// The line's page is large, and would slow the run down if it were a local of its loop; so would the line as one value,
// which would be written to memory at each step, whether or not it is shown.
#[inline(never)]
fn put_line<R: Sink>(
    count: u64,
    pc: u32,
    word: u32,
    reg: u8,
    value: u32,
    report: &mut R,
) -> Result<(), Failed>
    ensures { PutsInto R.Sink report.old report.new (retired_line count (record { pc = pc; word = word; reg = reg; value = value })) result }
{
    let line = Retired {
        pc,
        word,
        reg,
        value,
    };
    put_retired(count, &line, report)
}

/// The same, if lines are shown.
#[inline(always)]
fn show_line<R: Sink>(shows: bool, count: u64, line: Retired, report: &mut R) -> Result<(), Failed>
    ensures puts { PutsInto R.Sink report.old report.new (lines_shown shows (retired_line count line)) result }
    ensures shows { OnErr result (shows ≡ true) }
{
    if shows {
        put_line(count, line.pc, line.word, line.reg, line.value, report)
    } else {
        Ok(())
    }
}

/// Writes how far the run has come, if that is shown after this many retired instructions.
#[inline(always)]
fn show_progress<R: Sink>(every: Option<u64>, count: u64, report: &mut R) -> Result<(), Failed>
    ensures puts { PutsInto R.Sink report.old report.new (lines_shown (is_step_of every count) (machine_line count)) result }
    ensures shows { OnErr result (is_step_of every count ≡ true) }
{
    if is_step(every, count) {
        put_machine_progress(count, report)
    } else {
        Ok(())
    }
}

/// Writes what is shown of an instruction that retired; `count` have retired, including it.
#[inline(always)]
fn show_step<R: Sink>(
    options: MachineOptions,
    count: u64,
    line: Retired,
    report: &mut R,
) -> Result<(), Failed>
    ensures puts { PutsInto R.Sink report.old report.new (shown_text options.show_retired options.every count line) result }
    ensures shows { OnErr result (is_shown options.show_retired options.every count ≡ true) }
{
    show_line(options.show_retired, count, line, report)?;
    show_progress(options.every, count, report)
}

/// The word of an environment call.
const CALL: u32 = 0x0000_0073;

/// Passes on what the report has gathered, if the next instruction is an environment call, which may read or write.
#[inline(always)]
fn pass_before<R: ReportSink>(machine: &Machine, report: &mut R) -> Result<(), Failed>
    ensures written { WritesNothing (R.written report.old) (R.written report.new) }
    ensures passed { OnOk result (fetch_at machine.now.mem machine.now.pc ≡ Ok 0x73 → R.kept report.new ≡ []) }
    ensures cause { HasCause (R.faults report.old) (R.faults report.new) result }
{
    match machine.memory().fetch(machine.pc()) {
        Ok(word) if word == CALL => report.pass_on(),
        Ok(_) | Err(_) => Ok(()),
    }
}

/// Whether nothing is shown while the machine runs.
#[inline(always)]
fn is_silent(options: MachineOptions) -> bool
    ensures { result ≡ is_silent options.show_retired options.every }
{
    !options.show_retired && options.every.is_none()
}

/// If nothing is shown of instructions, executes them as long as they need no stream, until `end` have retired.
#[inline(always)]
#[tactic(auto, using(crate::proofs::Runs::standing))]
fn run_unshown(machine: &mut Machine, options: MachineOptions, end: u64)
    requires { machine.old.retired ≤ end }
    ensures goes { RetireAlone machine.old (machine.new.retired - machine.old.retired) machine.new }
    ensures onward { machine.old.retired ≤ machine.new.retired }
    ensures within { machine.new.retired ≤ end }
    ensures shown { is_silent options.show_retired options.every ≡ false → machine.new ≡ machine.old }
{
    if is_silent(options) {
        machine.run_alone(end);
    }
}

/// Runs the machine until the program ends or traps, one of its streams fails, or as many more instructions have
/// retired as the options allow. Each retired instruction's line is written to the report as it comes, and also how far
/// the run has come, if the options ask for that. The run ends with `ReportFault` if the report fails; then nothing
/// more is written to it. Before an environment call the report passes on what it has gathered.
// The machine makes a step only here, so that the compiler makes the whole step a part of the loop: a second call of
// it, for the other instruction set, cost half the speed.
pub fn run<S: Source, K: Sink, R: ReportSink>(
    machine: &mut Machine,
    options: MachineOptions,
    input: &mut S,
    output: &mut K,
    report: &mut R,
) -> Ran
    requires { machine.old.retired + options.limit < 2 ^ 64 }
    ensures runs { RunsToFinish (chosen_of options.limit options.show_retired options.mul options.every) machine.old machine.new
        (streams_of (S.left input.old) (K.written output.old))
        (streams_of (S.left input.new) (K.written output.new))
        (R.written report.old) (R.written report.new) result }
    ensures input { HasCause (S.faults input.old) (S.faults input.new) (input_stopped (Some result)) }
    ensures output { HasCause (K.faults output.old) (K.faults output.new) (output_stopped (Some result)) }
    ensures report { HasCause (R.faults report.old) (R.faults report.new) (report_stopped (Some result)) }
{
    let isa = instruction_set(options.mul);
    let end = machine.retired() + options.limit;
    run_unshown(machine, options, end);
    while machine.retired() < end {
        if let Err(Failed) = pass_before(machine, report) {
            return Ran::ReportFault;
        }
        match machine.step_as(isa, input, output) {
            Stepped::Next(line) => {
                match show_step(options, machine.retired(), line, report) {
                    Ok(()) => run_unshown(machine, options, end),
                    Err(_) => return Ran::ReportFault,
                }
            }
            Stepped::Exit(status) => return Ran::Exit(status),
            Stepped::Trap { cause, pc, detail } => return Ran::Trap { cause, pc, detail },
            Stepped::ReadFault => return Ran::ReadFault,
            Stepped::WriteFault => return Ran::WriteFault,
        }
    }
    Ran::Limit
}
