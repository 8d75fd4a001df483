//! A session of the debugger.

ghost use Rattle.std.specs.Prelude.{◌≡◌, ◌≢◌, ◌≤◌, true, false, None, Some, [], Ok};
ghost use Rattle.cf_io.specs.Causes.{HasCause};
ghost use Rattle.cf_core.specs.Processors.{IsOpened};
ghost use Rattle.cf_debug.specs.declared.command.DebugCommand.TheVariants as commands;
ghost use Rattle.cf_debug.specs.Lending.{debugger_state_left, debugger_state_lent};
ghost use Rattle.cf_debug.specs.Limits.{most_bytes, most_retired};
ghost use Rattle.cf_debug.specs.Making.{processor_state};
ghost use Rattle.cf_debug.specs.Outcomes.{output_broken, report_broken};
ghost use Rattle.cf_debug.specs.Sessions.{Debugs, LineLeaves, FinishesSession, UsesByte, commands_ended, ended_by, output_ended, report_ended, session_of};
ghost use Rattle.cf_debug.specs.Standing.{IsOnRun, StandsSomewhere};

use crate::answer::{Broken, Debugged};
use crate::carrying::{carry_out, told};
use crate::command::DebugCommand;
use crate::command_source::CommandSource;
use crate::debugger_state::DebuggerState;
use crate::feed::{Feed, Next};
use crate::pending::PendingLine;
use crate::reading::read_command;
use crate::replies::refuse_line;
use crate::ring::Ring;
use cf_core::Core;
use cf_index::Candidates;
use cf_io::{Sink, Source};
use cf_run::known;

/// How the outcome of a command ends the session, if it does.
fn ended(answer: Result<(), Broken>) -> Option<Debugged>
    ensures { result ≡ ended_by answer }
{
    match answer {
        Ok(()) => None,
        Err(Broken::Output) => Some(Debugged::WriteFault),
        Err(Broken::Report) => Some(Debugged::ReportFault),
    }
}

/// Whether the command ends the session.
fn is_end(command: DebugCommand) -> bool
    ensures yes { result ≡ true → command ≡ commands.End }
    ensures no { result ≡ false → command ≢ commands.End }
{
    matches!(command, DebugCommand::End)
}

/// Answers a line, or returns how the session ends there.
fn answer_line<K: Sink, R: Sink>(
    line: &[u8],
    debugger: DebuggerState<'_>,
    output: &mut K,
    report: &mut R,
) -> Option<Debugged>
    requires stands { StandsSomewhere debugger.core.now debugger.ring.now }
    ensures ends { LineLeaves line.now
        (debugger_state_lent debugger.entry (K.written output.old)) (debugger_state_left debugger.exit (K.written output.new))
        (R.written report.old) (R.written report.new) result }
    ensures output { HasCause (K.faults output.old) (K.faults output.new) (output_ended result) }
    ensures report { HasCause (R.faults report.old) (R.faults report.new) (report_ended result) }
{
    match read_command(line) {
        Ok(command) => {
            if is_end(command) {
                return Some(Debugged::Done);
            }
            ended(carry_out(command, debugger, output, report))
        }
        Err(refusal) => ended(told(refuse_line(refusal, report))),
    }
}

/// Uses a byte of the commands: it continues the line, or it ends the line, which is answered.
fn use_byte<K: Sink, R: Sink>(
    byte: u8,
    line: &mut PendingLine,
    debugger: DebuggerState<'_>,
    output: &mut K,
    report: &mut R,
) -> Option<Debugged>
    requires stands { StandsSomewhere debugger.core.now debugger.ring.now }
    ensures uses { UsesByte byte line.old line.new
        (debugger_state_lent debugger.entry (K.written output.old)) (debugger_state_left debugger.exit (K.written output.new))
        (R.written report.old) (R.written report.new) result }
    ensures output { HasCause (K.faults output.old) (K.faults output.new) (output_ended result) }
    ensures report { HasCause (R.faults report.old) (R.faults report.new) (report_ended result) }
{
    if byte != b'\n' {
        line.push(byte);
        return None;
    }
    let answer = answer_line(line.whole(), debugger, output, report);
    line.clear();
    answer
}

/// Answers the unfinished line at the end of the commands, if there is one.
fn finish<K: Sink, R: Sink>(
    line: &PendingLine,
    debugger: DebuggerState<'_>,
    output: &mut K,
    report: &mut R,
) -> Debugged
    requires stands { StandsSomewhere debugger.core.now debugger.ring.now }
    ensures finishes { FinishesSession line.now
        (debugger_state_lent debugger.entry (K.written output.old)) (debugger_state_left debugger.exit (K.written output.new))
        (R.written report.old) (R.written report.new) result }
    ensures output { HasCause (K.faults output.old) (K.faults output.new) (output_ended (Some result)) }
    ensures report { HasCause (R.faults report.old) (R.faults report.new) (report_ended (Some result)) }
{
    if line.bytes().is_empty() {
        return Debugged::Done;
    }
    match answer_line(line.bytes(), debugger, output, report) {
        Some(answer) => answer,
        None => Debugged::Done,
    }
}

/// Answers the commands, one per line, until one of them is `end` or there are no more. Nothing was taken of their
/// source.
fn answer_commands<S: Source, K: Sink, R: Sink>(
    core: &mut Core,
    candidates: &mut Candidates,
    ring: &mut Ring,
    commands: &mut CommandSource<'_, S>,
    output: &mut K,
    report: &mut R,
) -> Debugged
    requires opened { IsOpened core.old }
    requires retired { core.old.state.retired ≤ most_retired }
    requires ring { ring.old ≡ [] }
    requires left { commands.old.left ≡ most_bytes }
    requires going { commands.old.ended ≡ false }
    ensures same { commands.new.inner.ghost_name ≡ commands.old.inner.ghost_name }
    ensures session { Debugs
        (session_of (processor_state core.old ring.old (K.written output.old)) (S.left commands.old.inner.now) (R.written report.old))
        (session_of (processor_state core.new ring.new (K.written output.new)) (S.left commands.new.inner.now) (R.written report.new))
        result }
    ensures on_run { IsOnRun core.old core.new (K.written output.old) (K.written output.new) result }
    ensures commands { HasCause (S.faults commands.old.inner.now) (S.faults commands.new.inner.now) (commands_ended (Some result)) }
    ensures output { HasCause (K.faults output.old) (K.faults output.new) (output_ended (Some result)) }
    ensures report { HasCause (R.faults report.old) (R.faults report.new) (report_ended (Some result)) }
{
    known(core);
    let mut stop = None;
    let mut line = PendingLine::new();
    let mut feed = Feed::new();
    loop {
        let debugger = DebuggerState {
            core,
            candidates,
            ring,
            stop: &mut stop,
        };
        match feed.next(commands) {
            Next::Byte(byte) => {
                if let Some(answer) = use_byte(byte, &mut line, debugger, output, report) {
                    return answer;
                }
            }
            Next::AtEnd => return finish(&line, debugger, output, report),
            Next::TooMany => return Debugged::Limit,
            Next::Fault => return Debugged::ReadFault,
        }
    }
}

/// A session of the debugger on an opened processor: answers the commands, one per line, until one of them is `end` or
/// there are no more. The ring has to be empty. It allocates no memory.
///
/// The lines are answered in order, and a refused one changes nothing. The answers are written to the report, and the
/// guest's output to the output; the guest's input is empty. At the end the ring has the records of the moves that were
/// made last and not taken back. The processor is at a moment of a run of the machine on which it was opened, and what the
/// moves of that run write was added to the output; or the output failed the call that was to be served there.
///
/// `Done` comes at `end` and at the end of the commands. `Limit` comes if 16,777,216 bytes were taken, no whole line
/// among them is `end`, and there is one more byte. `ReadFault` comes only if the commands failed, after the answers to
/// all lines that were taken whole; `WriteFault` only if the output failed a call of the environment, and `ReportFault`
/// only if the report failed. In each case that object's count of faults rose.
pub fn debug<S: Source, K: Sink, R: Sink>(
    core: &mut Core,
    candidates: &mut Candidates,
    ring: &mut Ring,
    commands: &mut S,
    output: &mut K,
    report: &mut R,
) -> Debugged
    requires opened { IsOpened core.old }
    requires retired { core.old.state.retired ≤ most_retired }
    requires ring { ring.old ≡ [] }
    ensures session { Debugs
        (session_of (processor_state core.old ring.old (K.written output.old)) (S.left commands.old) (R.written report.old))
        (session_of (processor_state core.new ring.new (K.written output.new)) (S.left commands.new) (R.written report.new))
        result }
    ensures on_run { IsOnRun core.old core.new (K.written output.old) (K.written output.new) result }
    ensures commands { HasCause (S.faults commands.old) (S.faults commands.new) (commands_ended (Some result)) }
    ensures output { HasCause (K.faults output.old) (K.faults output.new) (output_ended (Some result)) }
    ensures report { HasCause (R.faults report.old) (R.faults report.new) (report_ended (Some result)) }
{
    let mut source = CommandSource::new(commands);
    answer_commands(core, candidates, ring, &mut source, output, report)
}
