//! One move of a run.
#![tactic(auto, unfolding(crate::specs::Moving::MoveDoes))]

ghost use Rattle.std.specs.Prelude.{◌≡◌, ◌+◌, ◌<◌, ◌^◌, [], None, OnErr, OnOk};
ghost use Rattle.cf_io.specs.Causes.{HasCause};
ghost use Rattle.cf_io.specs.Puts.{WritesNothing};
ghost use Rattle.cf_bind.specs.declared.moves.Move.TheVariants as moves;
ghost use Rattle.cf_semantics.specs.moves.Bars.{bar};
ghost use Rattle.cf_core.specs.Asking.{AsksInput, AsksOutput};
ghost use Rattle.cf_run.specs.Made.{CanCount};
ghost use Rattle.cf_run.specs.Moving.{place_by, MoveDoes, MoveGoes, input_done, output_done, report_done};

use crate::counting::count;
use crate::showing::put_shown;
use cf_bind::Move;
use cf_core::{Core, Event, Fault};
use cf_io::{Failed, Sink, Source};
use cf_report::{ReportSink, Tally};
use run_finishes::Ran;
use run_options::Reporting;

/// Makes an allowed move, counts it, shows it and returns its event; or returns why the run stops there.
#[inline(always)]
pub fn make_and_show<S: Source, K: Sink, R: Sink>(
    core: &mut Core,
    mv: Move,
    reporting: Reporting,
    input: &mut S,
    output: &mut K,
    report: &mut R,
    tally: &mut Tally,
) -> Result<Event, Ran>
    requires allowed { bar core.old.plan core.old.state mv ≡ None }
    requires retired { mv ≡ moves.Leave → core.old.state.retired + 1 < 2 ^ 64 }
    requires counts { CanCount tally.old }
    ensures does { MoveDoes reporting mv
        (place_by S.left K.written R.written core.old input.old output.old report.old tally.old)
        (place_by S.left K.written R.written core.new input.new output.new report.new tally.new)
        result }
    ensures input { HasCause (S.faults input.old) (S.faults input.new) (input_done result) }
    ensures output { HasCause (K.faults output.old) (K.faults output.new) (output_done result) }
    ensures report { HasCause (R.faults report.old) (R.faults report.new) (report_done result) }
    ensures input_asked { (AsksInput core.old mv → ⊥) → input.new ≡ input.old }
    ensures output_asked { (AsksOutput core.old mv → ⊥) → output.new ≡ output.old }
{
    match core.make(mv, input, output) {
        Ok(event) => {
            count(tally, mv, &event);
            match put_shown(core, reporting, tally.moves, mv, &event, report) {
                Ok(()) => Ok(event),
                Err(_) => Err(Ran::ReportFault),
            }
        }
        Err(Fault::Read) => Err(Ran::ReadFault),
        Err(Fault::Write) => Err(Ran::WriteFault),
    }
}

/// Passes on what the report has gathered, before a Serve, whose call may read or write: so whoever answers the call,
/// or reads what it wrote, has seen the report up to it.
#[inline(always)]
fn pass_before<R: ReportSink>(mv: Move, report: &mut R) -> Result<(), Failed>
    ensures written { WritesNothing (R.written report.old) (R.written report.new) }
    ensures passed { OnOk result (mv ≡ moves.Serve → R.kept report.new ≡ []) }
    ensures serves { OnErr result (mv ≡ moves.Serve) }
    ensures cause { HasCause (R.faults report.old) (R.faults report.new) result }
{
    if matches!(mv, Move::Serve) {
        report.pass_on()
    } else {
        Ok(())
    }
}

/// The same as `make_and_show`, if the report may gather its text: before a Serve the report passes on what it has; if
/// that fails, the run stops there and the move is not made.
#[inline(always)]
pub(crate) fn make_in_order<S: Source, K: Sink, R: ReportSink>(
    core: &mut Core,
    mv: Move,
    reporting: Reporting,
    input: &mut S,
    output: &mut K,
    report: &mut R,
    tally: &mut Tally,
) -> Result<Event, Ran>
    requires allowed { bar core.old.plan core.old.state mv ≡ None }
    requires retired { mv ≡ moves.Leave → core.old.state.retired + 1 < 2 ^ 64 }
    requires counts { CanCount tally.old }
    ensures does { MoveGoes reporting mv
        (place_by S.left K.written R.written core.old input.old output.old report.old tally.old)
        (place_by S.left K.written R.written core.new input.new output.new report.new tally.new)
        result }
    ensures input { HasCause (S.faults input.old) (S.faults input.new) (input_done result) }
    ensures output { HasCause (K.faults output.old) (K.faults output.new) (output_done result) }
    ensures report { HasCause (R.faults report.old) (R.faults report.new) (report_done result) }
    ensures input_asked { (AsksInput core.old mv → ⊥) → input.new ≡ input.old }
    ensures output_asked { (AsksOutput core.old mv → ⊥) → output.new ≡ output.old }
{
    match pass_before(mv, report) {
        Ok(()) => make_and_show(core, mv, reporting, input, output, report, tally),
        Err(_) => Err(Ran::ReportFault),
    }
}
