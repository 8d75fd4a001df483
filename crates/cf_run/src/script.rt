//! The run of a script.
#![tactic(auto, unfolding(crate::specs::Scripts::ScriptStops, crate::specs::Scripts::DoesLine))]

ghost use Rattle.std.specs.Prelude.{◌≡◌, ◌+◌, ◌<◌, ◌≤◌, ◌^◌, IsNone, Some, false, length};
ghost use Rattle.run_options.specs.Limits.{most_limit};
ghost use Rattle.cf_io.specs.Causes.{HasCause};
ghost use Rattle.cf_semantics.specs.moves.Bars.{bar};
ghost use Rattle.cf_core.specs.Asking.{AsksInput, AsksOutput};
ghost use Rattle.cf_run.specs.Asking.{NextAsks, RunsUnasked};
ghost use Rattle.cf_run.specs.Made.{CanCount};
ghost use Rattle.cf_run.specs.Moving.{place_by};
ghost use Rattle.cf_run.specs.Ending.{EndsSequentially};
ghost use Rattle.cf_run.specs.Headline.{RunsSequentially};
ghost use Rattle.cf_run.specs.Reaching.{no_tally};
ghost use Rattle.cf_run.specs.Scripts.{script_run_of, first_moves, RunsScript, ScriptTurns, input_scripted, output_scripted, report_scripted};

use crate::facts::known;
use crate::finished::over;
use crate::making::make_in_order;
use cf_bind::{Bar, Move};
use cf_core::Core;
use cf_index::is_known_allowed;
use cf_io::{Sink, Source};
use cf_report::{ReportSink, Tally};
use run_finishes::Scripted;
use run_options::Reporting;
use run_scripts::Script;

/// What bars a move. Most moves of a script are known to be allowed, and then their tests are not made one by one.
#[inline(always)]
fn bar_of(core: &Core, mv: Move) -> Option<Bar>
    ensures { result ≡ bar core.now.plan core.now.state mv }
{
    if is_known_allowed(core, mv) {
        None
    } else {
        core.allowed(mv)
    }
}

/// Makes the next move of the script, counts it and shows it; or returns why the run stops.
#[inline(always)]
fn advance<S: Source, K: Sink, R: ReportSink>(
    core: &mut Core,
    script: &mut Script<'_>,
    limit: u64,
    reporting: Reporting,
    input: &mut S,
    output: &mut K,
    report: &mut R,
    tally: &mut Tally,
) -> Option<Scripted>
    requires limit { limit + 1 < 2 ^ 64 }
    requires retired { core.old.state.retired ≤ limit }
    requires counts { CanCount tally.old }
    ensures turns { ScriptTurns limit reporting
        (script_run_of (place_by S.left K.written R.written core.old input.old output.old report.old tally.old) script.old)
        (script_run_of (place_by S.left K.written R.written core.new input.new output.new report.new tally.new) script.new)
        result }
    ensures few { IsNone result → length script.old.moves < 2 ^ 25 }
    ensures input { HasCause (S.faults input.old) (S.faults input.new) (input_scripted result) }
    ensures output { HasCause (K.faults output.old) (K.faults output.new) (output_scripted result) }
    ensures report { HasCause (R.faults report.old) (R.faults report.new) (report_scripted result) }
    ensures input_asked { (NextAsks AsksInput limit core.old script.old → ⊥) →
        input.new ≡ input.old }
    ensures output_asked { (NextAsks AsksOutput limit core.old script.old → ⊥) →
        output.new ≡ output.old }
{
    if let Some(ran) = over(core, limit) {
        return Some(Scripted::Ran(ran));
    }
    let (line, mv) = match script.next() {
        Ok(Some(next)) => next,
        Ok(None) => return Some(Scripted::ScriptEnd),
        Err(refusal) => return Some(Scripted::BadScript(refusal)),
    };
    if let Some(bar) = bar_of(core, mv) {
        return Some(Scripted::BarredAt { line, bar });
    }
    match make_in_order(core, mv, reporting, input, output, report, tally) {
        Ok(_) => None,
        Err(ran) => Some(Scripted::Ran(ran)),
    }
}

/// Runs a script: makes its moves one after another until the program ends, as many instructions have retired as the
/// limit allows, or the next move cannot be read or made. These are tested in this order before each move, and no line
/// after that point is read. What `reporting` selects is written to the report during the run.
///
/// `ReadFault` and `WriteFault` come only if the input or the output failed a call of the environment; that move is not
/// counted. `ReportFault` comes only if the report failed: after a move that was made and counted, or as it passed on
/// what it had gathered, before a Serve, which was not made. In each case that object's count of faults rose.
///
/// If no move of the run uses the input, what the input exposes is unchanged; the output likewise. Only Serve uses
/// them, for an ECALL that reads or writes.
///
/// If the processor was opened on a machine, the run is a run of that machine, in whatever order the script makes its
/// moves: over the bytes that the input exposes, and if it exposes none, with each call finding some input. If it ends
/// with Exit, Trap or Limit, its ending, the retired count, the registers, and what it took and wrote are those of that
/// machine under the same limit.
pub fn run_script<S: Source, K: Sink, R: ReportSink>(
    core: &mut Core,
    script: &mut Script<'_>,
    limit: u64,
    reporting: Reporting,
    input: &mut S,
    output: &mut K,
    report: &mut R,
    tally: &mut Tally,
) -> Scripted
    requires limit { limit ≤ most_limit }
    requires retired { core.old.state.retired ≤ limit }
    requires works { core.old.state.failed ≡ false }
    requires tally { tally.old ≡ no_tally }
    ensures run { RunsScript limit reporting
        (script_run_of (place_by S.left K.written R.written core.old input.old output.old report.old tally.old) script.old)
        (script_run_of (place_by S.left K.written R.written core.new input.new output.new report.new tally.new) script.new)
        result }
    ensures sequential { RunsSequentially reporting (first_moves script.old tally.new)
        (place_by S.left K.written R.written core.old input.old output.old report.old tally.old)
        (place_by S.left K.written R.written core.new input.new output.new report.new tally.new)
        result }
    ensures ends { EndsSequentially limit
        (place_by S.left K.written R.written core.old input.old output.old report.old tally.old)
        (place_by S.left K.written R.written core.new input.new output.new report.new tally.new)
        result }
    ensures input { HasCause (S.faults input.old) (S.faults input.new) (input_scripted (Some result)) }
    ensures output { HasCause (K.faults output.old) (K.faults output.new) (output_scripted (Some result)) }
    ensures report { HasCause (R.faults report.old) (R.faults report.new) (report_scripted (Some result)) }
    ensures asked { RunsUnasked limit reporting
        (script_run_of (place_by S.left K.written R.written core.old input.old output.old report.old tally.old) script.old)
        (script_run_of (place_by S.left K.written R.written core.new input.new output.new report.new tally.new) script.new)
        result (input.new ≡ input.old) (output.new ≡ output.old) }
{
    known(core);
    loop {
        if let Some(end) = advance(core, script, limit, reporting, input, output, report, tally) {
            return end;
        }
    }
}
