//! The command `audit`.
#![tactic(auto, using(cf_run::proofs::Opened::opened_cores))]

ghost use Rattle.std.specs.Prelude.{◌≡◌, ◌≤◌, length};
ghost use Rattle.cli_arguments.specs.Views.{layout_of};
ghost use Rattle.cf_audit.specs.Limits.{most_trace};
ghost use Rattle.cli_audit.specs.Audit.{audit_asked, AnswersAudit, ComesOfTrace, audit_status, audit_report};
ghost use Rattle.cli_audit.specs.Effects.{AnswersByFileAndInput, AnswersByInput};

use crate::reports::trace_of;
use crate::traces::trace_at;
use cf_audit::{Audit, audit};
use cf_core::Core;
use cf_io::{Files, Source};
use cli_arguments::LayoutArgument;
use cli_files::{Answer, Loaded, Status, TraceFault, Which, load, no_memory, unread};
use report_refusals::bad_trace;
use std::alloc::Global;

/// The answer that says what an audit found.
fn answer_of(found: Audit) -> Answer
    ensures status { result.status ≡ audit_status found }
    ensures closing { result.closing ≡ audit_report found }
{
    match found {
        Audit::Agrees(moves) => Answer {
            status: Status::Done,
            closing: trace_of(moves),
        },
        Audit::Wrong { line, kind } => {
            let fault = TraceFault::Line { line, kind };
            Answer {
                status: Status::BadTrace(fault),
                closing: bad_trace(fault),
            }
        }
        Audit::ReadFault => unread(Which::Input),
    }
}

/// Opens the processor of the layout on the machine, and audits a text as a trace of it.
fn audit_loaded<S: Source>(alloc: Global, loaded: Loaded, text: &[u8], input: &mut S) -> Answer
    requires count { loaded.machine.retired ≡ 0 }
    requires size { length text.now ≤ most_trace }
    ensures { AnswersByInput (ComesOfTrace loaded.layout loaded.machine text.now) S.Source input.old input.new result }
{
    match Core::new(alloc, loaded.layout, loaded.machine) {
        Ok(mut core) => answer_of(audit(&mut core, text, input)),
        Err(_) => no_memory(),
    }
}

/// Carries out `audit`: reads the layout, the program and the trace, in this order, makes the moves that the trace
/// names, and compares all that `run` shows of them with the trace, byte by byte. `Done` comes exactly if the trace is
/// the text of a run from the program's start, with as many moves as the answer says; so its lines of retired
/// instructions are those of the sequential machine, whoever made the trace. `BadTrace` gives the first line that
/// differs, and why. What the program writes is discarded.
pub fn audit_trace<F: Files, S: Source>(
    alloc: Global,
    layout: LayoutArgument<'_>,
    program: &str,
    trace: &str,
    files: &mut F,
    input: &mut S,
) -> Answer
    ensures { AnswersByFileAndInput (AnswersAudit (audit_asked (layout_of layout.entry) program.now trace.now))
        F.Files S.Source (files.old, input.old) (files.new, input.new) result }
{
    let loaded = match load(alloc, layout, program, files) {
        Ok(loaded) => loaded,
        Err(answer) => return answer,
    };
    match trace_at(alloc, trace, files) {
        Ok(text) => audit_loaded(alloc, loaded, text.as_slice(), input),
        Err(answer) => answer,
    }
}
