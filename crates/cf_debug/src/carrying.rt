//! Carrying out a command.

ghost use Rattle.std.specs.Prelude.{◌≡◌, IfOk, None};
ghost use Rattle.cf_io.specs.Causes.{HasCause};
ghost use Rattle.cf_report.specs.Putting.{PutsText};
ghost use Rattle.cf_debug.specs.declared.command.DebugCommand.TheVariants as commands;
ghost use Rattle.cf_debug.specs.Commands.{AsksFew};
ghost use Rattle.cf_debug.specs.Lending.{debugger_state_left, debugger_state_lent};
ghost use Rattle.cf_debug.specs.Making.{processor_state};
ghost use Rattle.cf_debug.specs.Outcomes.{CommandLeaves, PutsBack, PutsNewest, of_report, output_broken, report_broken};
ghost use Rattle.cf_debug.specs.Replies.{break_text};
ghost use Rattle.cf_debug.specs.Standing.{StandsSomewhere};

use crate::answer::Broken;
use crate::command::DebugCommand;
use crate::debugger_state::DebuggerState;
use crate::driving::{drive, is_spent};
use crate::making::make;
use crate::replies::{put_back, put_break, put_counted, put_moved, refuse, refuse_bar};
use crate::ring::Ring;
use crate::showing::show;
use cf_bind::Move;
use cf_core::Core;
use cf_io::{Failed, Sink};

/// Only the report can fail a command that makes no move.
pub(crate) fn told(answer: Result<(), Failed>) -> Result<(), Broken>
    ensures { result ≡ of_report answer }
{
    match answer {
        Ok(()) => Ok(()),
        Err(_) => Err(Broken::Report),
    }
}

/// `move`.
fn carry_move<K: Sink, R: Sink>(
    mv: Move,
    debugger: DebuggerState<'_>,
    output: &mut K,
    report: &mut R,
) -> Result<(), Broken>
    ensures carries { CommandLeaves (commands.Move mv)
        (debugger_state_lent debugger.entry (K.written output.old)) (debugger_state_left debugger.exit (K.written output.new))
        (R.written report.old) (R.written report.new) result }
    ensures output { HasCause (K.faults output.old) (K.faults output.new) (output_broken result) }
    ensures report { HasCause (R.faults report.old) (R.faults report.new) (report_broken result) }
{
    let DebuggerState { core, ring, .. } = debugger;
    if is_spent(core) {
        return told(refuse(b"Limit", report));
    }
    if let Some(bar) = core.allowed(mv) {
        return told(refuse_bar(bar, report));
    }
    let Ok(event) = make(core, ring, mv, output) else {
        return Err(Broken::Output);
    };
    told(put_moved(core, &event, report))
}

/// `auto`.
fn carry_auto<K: Sink, R: Sink>(
    count: u32,
    debugger: DebuggerState<'_>,
    output: &mut K,
    report: &mut R,
) -> Result<(), Broken>
    requires stands { StandsSomewhere debugger.core.now debugger.ring.now }
    ensures carries { CommandLeaves (commands.Auto count)
        (debugger_state_lent debugger.entry (K.written output.old)) (debugger_state_left debugger.exit (K.written output.new))
        (R.written report.old) (R.written report.new) result }
    ensures output { HasCause (K.faults output.old) (K.faults output.new) (output_broken result) }
    ensures report { HasCause (R.faults report.old) (R.faults report.new) (report_broken result) }
{
    let DebuggerState {
        core,
        candidates,
        ring,
        stop,
    } = debugger;
    if is_spent(core) {
        return told(refuse(b"Limit", report));
    }
    let made = drive(count, core, candidates, ring, *stop, output, report)?;
    told(put_counted(b"auto ", u64::from(made), report))
}

/// Takes the newest kept move back, and returns whether there was one.
fn take_back<R: Sink>(core: &mut Core, ring: &mut Ring, report: &mut R) -> Result<bool, Failed>
    requires stands { StandsSomewhere core.old ring.old }
    ensures puts { PutsNewest (processor_state core.old ring.old None) (processor_state core.new ring.new None)
        (R.written report.old) (R.written report.new) (R.faults report.old) (R.faults report.new) result }
    ensures stands { StandsSomewhere core.new ring.new }
{
    match ring.pop() {
        Some(undo) => {
            core.back(undo);
            put_back(undo.moved(), report)?;
            Ok(true)
        }
        None => {
            refuse(b"NothingKept", report)?;
            Ok(false)
        }
    }
}

/// `back`.
fn carry_back<R: Sink>(
    count: u32,
    core: &mut Core,
    ring: &mut Ring,
    report: &mut R,
) -> Result<(), Failed>
    requires stands { StandsSomewhere core.old ring.old }
    ensures puts { PutsBack count (processor_state core.old ring.old None) (processor_state core.new ring.new None)
        (R.written report.old) (R.written report.new) result }
    ensures cause { HasCause (R.faults report.old) (R.faults report.new) result }
{
    for taken in 0..count {
        if !take_back(core, ring, report)? {
            return Ok(());
        }
    }
    Ok(())
}

/// `break`.
fn carry_break<R: Sink>(
    address: Option<u32>,
    stop: &mut Option<u32>,
    report: &mut R,
) -> Result<(), Failed>
    ensures stop { stop.new ≡ address }
    ensures puts { PutsText (R.written report.old) (R.written report.new) (R.faults report.old) (R.faults report.new)
        (break_text address) result }
{
    *stop = address;
    put_break(address, report)
}

/// Carries a command out.
pub(crate) fn carry_out<K: Sink, R: Sink>(
    command: DebugCommand,
    debugger: DebuggerState<'_>,
    output: &mut K,
    report: &mut R,
) -> Result<(), Broken>
    requires stands { StandsSomewhere debugger.core.now debugger.ring.now }
    requires few { AsksFew command }
    ensures carries { CommandLeaves command
        (debugger_state_lent debugger.entry (K.written output.old)) (debugger_state_left debugger.exit (K.written output.new))
        (R.written report.old) (R.written report.new) result }
    ensures output { HasCause (K.faults output.old) (K.faults output.new) (output_broken result) }
    ensures report { HasCause (R.faults report.old) (R.faults report.new) (report_broken result) }
{
    match command {
        DebugCommand::Nothing => Ok(()),
        DebugCommand::Move(mv) => carry_move(mv, debugger, output, report),
        DebugCommand::Auto(count) => carry_auto(count, debugger, output, report),
        DebugCommand::Show(view) => {
            let DebuggerState {
                core,
                candidates,
                ..
            } = debugger;
            told(show(view, core, candidates, report))
        }
        DebugCommand::Break(address) => told(carry_break(address, debugger.stop, report)),
        DebugCommand::Back(count) => {
            let DebuggerState { core, ring, .. } = debugger;
            told(carry_back(count, core, ring, report))
        }
        DebugCommand::End => Ok(()),
    }
}
