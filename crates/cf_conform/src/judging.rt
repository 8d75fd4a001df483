//! The judgement of a line.
#![tactic(auto, unfolding(crate::specs::Judging::TriesMove, crate::specs::Judging::JudgesPart))]

ghost use Rattle.std.specs.Prelude.{◌≡◌, ◌+◌, ◌<◌, ◌^◌};
ghost use Rattle.cf_io.specs.Causes.{HasCause};
ghost use Rattle.cf_run.specs.Made.{CanCount};
ghost use Rattle.cf_conform.specs.LogPlaces.{log_place};
ghost use Rattle.cf_conform.specs.Judging.{JudgesPart, JudgesLine, TriesMove, output_judged};

use crate::answer::LineStop;
use crate::comparing::agrees;
use crate::progress::LogProgress;
use crate::wanted::wanted_line;
use cf_bind::Move;
use cf_core::Core;
use cf_io::{Empty, Nowhere, Sink};
use cf_log::{LogKind, ObservedPart, Said, read_line};
use cf_run::{Ran, Reporting, Show, make_and_show};

/// Makes the move that a line says, unless it is barred.
#[inline(always)]
fn make_move<K: Sink>(
    core: &mut Core,
    mv: Move,
    output: &mut K,
    progress: &mut LogProgress,
) -> Result<(), LineStop>
    requires retired { core.old.state.retired + 1 < 2 ^ 64 }
    requires counts { CanCount progress.old.tally }
    ensures tries { TriesMove mv (log_place core.old (K.written output.old) progress.old)
        (log_place core.new (K.written output.new) progress.new) result }
    ensures output { HasCause (K.faults output.old) (K.faults output.new) (output_judged result) }
{
    if let Some(bar) = core.allowed(mv) {
        return Err(LineStop::Refused(LogKind::Barred(bar)));
    }
    match make_and_show(
        core,
        mv,
        Reporting {
            show: Show::Report,
            every: None,
        },
        &mut Empty,
        output,
        &mut Nowhere,
        &mut progress.tally,
    ) {
        Ok(event) => {
            progress.note(&event, core.retired());
            Ok(())
        }
        Err(Ran::WriteFault) => Err(LineStop::WriteFault),
        Err(Ran::ReadFault) => unreachable!(),
        Err(Ran::ReportFault) => unreachable!(),
        Err(Ran::Exit(_)) => unreachable!(),
        Err(Ran::Trap { .. }) => unreachable!(),
        Err(Ran::Limit) => unreachable!(),
    }
}

/// Compares an observation with the processor.
fn observe(
    core: &Core,
    line: &[u8],
    part: ObservedPart,
    progress: &mut LogProgress,
) -> Result<(), LineStop>
    requires { progress.old.observed + 1 < 2 ^ 64 }
    ensures { JudgesPart line.now part core.now progress.old progress.new result }
{
    if agrees(line, wanted_line(core, progress.latest, part)) {
        progress.observed += 1;
        Ok(())
    } else {
        Err(LineStop::Differs(part))
    }
}

/// Does what a line says: makes its move, or compares its observation; or returns why the log stops there.
#[inline(always)]
#[tactic(auto, unfolding(crate::specs::Judging::JudgesLine, crate::specs::Judging::JudgesReading, crate::specs::Judging::JudgesSaid))]
pub(crate) fn judge_line<K: Sink>(
    line: &[u8],
    core: &mut Core,
    output: &mut K,
    progress: &mut LogProgress,
) -> Result<(), LineStop>
    requires retired { core.old.state.retired + 1 < 2 ^ 64 }
    requires counts { CanCount progress.old.tally }
    requires observed { progress.old.observed + 1 < 2 ^ 64 }
    ensures does { JudgesLine line.now (log_place core.old (K.written output.old) progress.old)
        (log_place core.new (K.written output.new) progress.new) result }
    ensures output { HasCause (K.faults output.old) (K.faults output.new) (output_judged result) }
{
    match read_line(line, progress.time, progress.tally.moves + 1) {
        Ok(None) => Ok(()),
        Ok(Some(timed)) => {
            progress.time = timed.time;
            match timed.said {
                Said::Makes(mv) => make_move(core, mv, output, progress),
                Said::Observes(part) => observe(core, line, part, progress),
            }
        }
        Err(kind) => Err(LineStop::Refused(kind)),
    }
}
