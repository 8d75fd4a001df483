//! The moves that can be made where a log ends.
#![tactic(auto, unfolding(crate::specs::LogLines::allowed_line, crate::specs::LogLines::allowed_text))]

ghost use Rattle.std.specs.Prelude.{◌++◌, codes};
ghost use Rattle.cf_bind.specs.MoveTexts.{move_line};
ghost use Rattle.cli_reports.specs.Reporting.{PutsInto};
ghost use Rattle.cli_conform.specs.LogLines.{allowed_line, allowed_lines, allowed_text};

use cf_bind::{Move, MoveLine, move_text};
use cf_core::Core;
use cf_index::Candidates;
use cf_io::{Failed, Sink, put_all};

/// Writes the line of a move that can be made, without its line feed.
fn put_words<R: Sink>(mv: Move, report: &mut R) -> Result<(), Failed>
    ensures { PutsInto R.Sink report.old report.new (codes "allowed " ++ move_line mv) result }
{
    let mut line = MoveLine::new();
    move_text(mv, &mut line);
    put_all(report, b"allowed ")?;
    put_all(report, line.bytes())
}

/// Writes the line of a move that can be made.
fn put_allowed<R: Sink>(mv: Move, report: &mut R) -> Result<(), Failed>
    ensures { PutsInto R.Sink report.old report.new (allowed_line mv) result }
{
    put_words(mv, report)?;
    put_all(report, b"\n")
}

/// Writes the lines of some candidates.
fn put_listed<R: Sink>(candidates: &Candidates, report: &mut R) -> Result<(), Failed>
    ensures { PutsInto R.Sink report.old report.new (allowed_lines candidates.now) result }
{
    for place in 0..candidates.len() {
        put_allowed(candidates.pick(place), report)?;
    }
    Ok(())
}

/// Writes a line for each move that can be made, in the order of all moves.
pub(crate) fn put_candidates<R: Sink>(
    core: &Core,
    candidates: &mut Candidates,
    report: &mut R,
) -> Result<(), Failed>
    ensures { PutsInto R.Sink report.old report.new (allowed_text core.now.plan core.now.state) result }
{
    candidates.fill(core);
    put_listed(candidates, report)
}
