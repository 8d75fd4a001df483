//! Processing a log.

ghost use Rattle.std.specs.Prelude.{◌≡◌, ◌+◌, ◌-◌, ◌<◌, ◌≤◌, ◌^◌, MatchOption, true, false};
ghost use Rattle.cf_io.specs.Causes.{HasCause};
ghost use Rattle.run_options.specs.Limits.{most_limit};
ghost use Rattle.run_finishes.specs.declared.finish.Ran.TheVariants as ran;
ghost use Rattle.cf_run.specs.Made.{CanCount};
ghost use Rattle.cf_run.specs.Reaching.{IsOver};
ghost use Rattle.cf_conform.specs.LogPlaces.{log_place, no_progress};
ghost use Rattle.cf_conform.specs.Judging.{log_judged, output_stopped_log};
ghost use Rattle.cf_conform.specs.Conforming.{EndsLogAt, JudgesLog, LogTurns, answer_at};

use crate::answer::{Conformed, LineStop};
use crate::judging::judge_line;
use crate::progress::LogProgress;
use cf_core::Core;
use cf_io::{Sink, Source};
use cf_log::{LogErr, LogFeed, LogKind, NextLine};
use cf_run::{Ran, known, over};

/// Whether as many instructions have retired as the limit allows, and the program has not ended.
#[inline(always)]
fn is_limited(core: &Core, limit: u64) -> bool
    ensures yes { result ≡ true → IsOver limit core.now.state ran.Limit }
    ensures no { result ≡ false → IsOver limit core.now.state ran.Limit → ⊥ }
{
    core.ending().is_none() && core.retired() == limit
}

/// The answer at the end of a log.
#[tactic(auto, unfolding(crate::specs::Conforming::EndsLogAt))]
fn at_end(core: &Core, limit: u64) -> Conformed
    requires { core.now.state.retired ≤ limit }
    ensures { EndsLogAt limit core.now.state result }
{
    match over(core, limit) {
        Some(ran) => Conformed::Ran(ran),
        None => Conformed::LogEnd,
    }
}

/// The answer if a line stops the log, after this many lines.
fn stopped_at(lines: u64, stop: LineStop) -> Conformed
    requires { lines + 1 < 2 ^ 64 }
    ensures { result ≡ answer_at lines stop }
{
    let line = (lines + 1).min(u64::from(u32::MAX)) as u32;
    match stop {
        LineStop::Refused(kind) => Conformed::BadLog(LogErr { line, kind }),
        LineStop::Differs(part) => Conformed::Differs { line, part },
        LineStop::WriteFault => Conformed::Ran(Ran::WriteFault),
    }
}

/// Processes the next line, after this many; or returns the answer.
#[inline(always)]
fn advance<L: Source, K: Sink>(
    lines: u64,
    limit: u64,
    core: &mut Core,
    feed: &mut LogFeed,
    log: &mut L,
    output: &mut K,
    progress: &mut LogProgress,
) -> Option<Conformed>
    requires few { lines + 1 < 2 ^ 64 }
    requires limit { limit ≤ most_limit }
    requires retired { core.old.state.retired ≤ limit }
    requires counts { CanCount progress.old.tally }
    requires observed { progress.old.observed + 1 < 2 ^ 64 }
    ensures turns { LogTurns limit lines (L.left log.old) (L.left log.new) feed.old feed.new
        (log_place core.old (K.written output.old) progress.old)
        (log_place core.new (K.written output.new) progress.new) result }
    ensures log { HasCause (L.faults log.old) (L.faults log.new) (log_judged result) }
    ensures output { HasCause (K.faults output.old) (K.faults output.new) (output_stopped_log result) }
{
    if is_limited(core, limit) {
        return Some(Conformed::Ran(Ran::Limit));
    }
    match feed.next(log) {
        NextLine::Line => match judge_line(feed.line(), core, output, progress) {
            Ok(()) => None,
            Err(stop) => Some(stopped_at(lines, stop)),
        },
        NextLine::Last => match judge_line(feed.line(), core, output, progress) {
            Ok(()) => Some(at_end(core, limit)),
            Err(stop) => Some(stopped_at(lines, stop)),
        },
        NextLine::TooLong => Some(stopped_at(lines, LineStop::Refused(LogKind::TooLong))),
        NextLine::AtEnd => Some(at_end(core, limit)),
        NextLine::Fault => Some(Conformed::Ran(Ran::ReadFault)),
    }
}

/// Processes a log line by line, on an opened processor: makes the moves that it says, and compares its observations
/// with the processor. It stops at the first line that is refused or does not agree, at the end of the log, at the
/// limit, or at a call that failed. Lines take no memory, and a log may have any length.
pub fn conform<L: Source, K: Sink>(
    core: &mut Core,
    limit: u64,
    log: &mut L,
    output: &mut K,
    progress: &mut LogProgress,
) -> Conformed
    requires limit { limit ≤ most_limit }
    requires retired { core.old.state.retired ≤ limit }
    requires fresh { progress.old ≡ no_progress }
    ensures judges { JudgesLog limit (L.left log.old) (L.left log.new)
        (log_place core.old (K.written output.old) progress.old)
        (log_place core.new (K.written output.new) progress.new) result }
    ensures log { HasCause (L.faults log.old) (L.faults log.new) (log_judged (Some result)) }
    ensures output { HasCause (K.faults output.old) (K.faults output.new) (output_stopped_log (Some result)) }
{
    known(core);
    let mut feed = LogFeed::new();
    for lines in 0..u64::MAX {
        if let Some(answer) = advance(lines, limit, core, &mut feed, log, output, progress) {
            return answer;
        }
    }
    at_end(core, limit)
}
