//! Auditing a recorded trace.
#![tactic(auto, unfolding(crate::specs::Turns::AuditTries, crate::specs::Turns::Tests))]

ghost use Rattle.std.specs.Prelude.{◌≡◌, ◌+◌, ◌<◌, ◌≤◌, ◌^◌, None, Some, length};
ghost use Rattle.cf_io.specs.Causes.{HasCause};
ghost use Rattle.cf_run.specs.Made.{CanCount};
ghost use Rattle.cf_core.specs.Processors.{IsOpened};
ghost use Rattle.cf_audit.specs.Compared.{fresh_comparison};
ghost use Rattle.cf_audit.specs.Limits.{most_trace};
ghost use Rattle.cf_audit.specs.Traces.{has_line};
ghost use Rattle.cf_audit.specs.Turns.{stand_by, ComparisonAnswers, Tests, audit_input_stopped, input_tested, outcome_of};
ghost use Rattle.cf_audit.specs.Audits.{Audits, AgreesSequentially, AgreesWithAll};

use crate::answer::Audit;
use crate::compared::Compared;
use crate::first_line::recorded_move;
use crate::stop::{AuditStop, outcome_of};
use cf_core::Core;
use cf_io::{Nowhere, Source};
use cf_report::Tally;
use cf_run::{Ran, Reporting, Show, known, make_and_show};
use run_scripts::{MOST_SCRIPT, TraceKind};

/// The maximum length of a trace, in bytes: that of a script.
pub const MOST_TRACE: usize = MOST_SCRIPT;

fn has_line(text: &[u8]) -> bool
    ensures { result ≡ has_line text.now }
{
    text.iter().any(|byte| *byte == b'\n')
}

/// The trace is wrong at the first byte that does not agree.
fn wrong(report: &Compared<'_>, kind: TraceKind) -> AuditStop
    ensures { result ≡ AuditStop.Wrong report.now.agreed kind }
{
    AuditStop::Wrong {
        place: report.agreed(),
        kind,
    }
}

/// How the audit stops if a byte that was written does not agree with the trace.
#[tactic(auto, unfolding(crate::specs::Turns::ComparisonAnswers))]
fn compared(report: &Compared<'_>) -> Option<AuditStop>
    ensures { ComparisonAnswers report.now result }
{
    if !report.differs() {
        None
    } else if report.is_whole() {
        Some(wrong(report, TraceKind::Cut))
    } else {
        Some(wrong(report, TraceKind::Differs))
    }
}

/// Tests the next group of the trace, makes its move if nothing bars it, and compares all that is shown for it with the
/// trace; or returns how the audit stops.
fn advance<S: Source>(
    core: &mut Core,
    input: &mut S,
    report: &mut Compared<'_>,
    tally: &mut Tally,
) -> Option<AuditStop>
    requires retired { core.old.state.retired + 1 < 2 ^ 64 }
    requires counts { CanCount tally.old }
    ensures tests { Tests (stand_by S.left core.old input.old report.old tally.old)
        (stand_by S.left core.new input.new report.new tally.new) result }
    ensures input { HasCause (S.faults input.old) (S.faults input.new) (audit_input_stopped result) }
{
    let left = report.rest();
    if left.is_empty() {
        return Some(AuditStop::Agrees(tally.moves));
    }
    if !has_line(left) {
        return Some(wrong(report, TraceKind::Cut));
    }
    let Some(mv) = recorded_move(left, tally.moves + 1) else {
        return Some(wrong(report, TraceKind::NotAMove));
    };
    if let Some(bar) = core.allowed(mv) {
        return Some(wrong(report, TraceKind::Barred(bar)));
    }
    match make_and_show(
        core,
        mv,
        Reporting {
            show: Show::Moves,
            every: None,
        },
        input,
        &mut Nowhere,
        report,
        tally,
    ) {
        Ok(_) => compared(report),
        Err(Ran::ReportFault) => compared(report),
        Err(Ran::ReadFault) => Some(AuditStop::ReadFault),
        Err(Ran::WriteFault) => unreachable!(),
        Err(Ran::Exit(_)) => unreachable!(),
        Err(Ran::Trap { .. }) => unreachable!(),
        Err(Ran::Limit) => unreachable!(),
    }
}

/// Audits the trace group by group until it stops. It sees of the trace only what the comparison has left.
fn audit_groups<S: Source>(core: &mut Core, input: &mut S, report: &mut Compared<'_>) -> AuditStop
    requires opened { IsOpened core.old }
    requires retired { core.old.state.retired ≡ 0 }
    requires fresh { report.old ≡ fresh_comparison report.old.text }
    requires size { length report.old.text ≤ most_trace }
    ensures audits { Audits core.old core.new (S.left input.old) (S.left input.new) report.old.text
        (outcome_of report.old.text result) }
    ensures input { HasCause (S.faults input.old) (S.faults input.new) (audit_input_stopped (Some result)) }
{
    let mut tally = Tally {
        moves: 0,
        meets: 0,
        kills: 0,
        dead: 0,
    };
    loop {
        if let Some(stop) = advance(core, input, report, &mut tally) {
            return stop;
        }
    }
}

/// Audits a recorded trace: what `--show moves` writes of a run, without the report that closes it. The processor is an
/// opened one on which nothing has retired, and the trace has at most `MOST_TRACE` bytes.
///
/// Group by group, the audit makes the move that the trace names and compares all that is shown for it with the trace,
/// byte by byte; it stores none of it. The answer is `Agrees` if and only if the trace is that of a run of this many
/// moves; the processor and the input are then at its end. It is `Wrong` if and only if the trace is not that of a run,
/// with the first test that fails, in the order of [`TraceKind`]. The line is the group's first; for `Differs` it is
/// that of the first byte that differs, and for `Cut` the one in which the trace ends. The processor and the input are
/// then where the moves that were made lead: those of the groups before, and for `Differs`, and for `Cut` within a
/// group, also the move of this group.
///
/// So the run of a trace that agrees is one of the sequential machine at each of its moments, and the lines of retired
/// instructions in it are the machine's, in its order. This holds whatever made the trace, and in whatever order its
/// moves were made. The machine has the input's remaining bytes if these are known, and otherwise some input that each
/// call finds.
///
/// `ReadFault` comes only if the input failed a call of the environment, and its count of faults rose. The program's
/// output is discarded.
pub fn audit<S: Source>(core: &mut Core, trace: &[u8], input: &mut S) -> Audit
    requires opened { IsOpened core.old }
    requires retired { core.old.state.retired ≡ 0 }
    requires size { length trace.now ≤ most_trace }
    ensures audits { Audits core.old core.new (S.left input.old) (S.left input.new) trace.now result }
    ensures agrees { AgreesWithAll core.old core.new (S.left input.old) trace.now result }
    ensures sequential { AgreesSequentially core.old core.new (S.left input.old) (S.left input.new) trace.now result }
    ensures input { HasCause (S.faults input.old) (S.faults input.new) (input_tested (Some result)) }
{
    known(core);
    let mut report = Compared::with(trace);
    let stop = audit_groups(core, input, &mut report);
    outcome_of(trace, stop)
}
