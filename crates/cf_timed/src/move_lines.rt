//! The lines of the moves of a timed run.

ghost use Rattle.std.specs.Prelude.{◌≡◌, ◌+◌, ◌-◌, ◌^◌, min};
ghost use Rattle.texts.specs.Lines.{line as line_of};
ghost use Rattle.cf_bind.specs.MoveTexts.{move_line};
ghost use Rattle.cf_report.specs.Putting.{PutsText};
ghost use Rattle.cf_timed.specs.MoveLines.{place_text, timed_line};

use crate::timed_move::TimedMove;
use crate::watcher::Watcher;
use cf_bind::{Move, MoveLine, move_text};
use cf_core::{Core, Event};
use cf_io::{Failed, Sink, put_all};
use texts::Page;

/// Writes the line of each move that it is shown: its number, when it starts and finishes, and the move.
#[derive(Clone, Copy)]
pub struct MoveLines {
    pub(crate) count: u64,
}

/// What comes before the move in its line, which has this number.
#[tactic(auto, unfolding(crate::specs::MoveLines::place_text))]
fn place_page(number: u64, done: &TimedMove) -> Page
    ensures { result ≡ place_text number done.now }
{
    let mut page = Page::new();
    page.push(b"move ");
    page.push_decimal(number);
    page.push(b" from ");
    page.push_decimal(done.time.saturating_sub(done.delay));
    page.push(b" to ");
    page.push_decimal(done.time);
    page.push(b" ");
    page
}

/// Writes the line of a move.
fn put_move<R: Sink>(mv: Move, report: &mut R) -> Result<(), Failed>
    ensures { PutsText (R.written report.old) (R.written report.new)
        (R.faults report.old) (R.faults report.new) (line_of (move_line mv)) result }
{
    let mut line = MoveLine::new();
    move_text(mv, &mut line);
    put_all(report, line.bytes())?;
    put_all(report, b"\n")
}

/// Writes the line of the move of this number.
#[tactic(auto, unfolding(crate::specs::MoveLines::timed_line))]
fn put_timed<R: Sink>(number: u64, done: &TimedMove, report: &mut R) -> Result<(), Failed>
    ensures { PutsText (R.written report.old) (R.written report.new)
        (R.faults report.old) (R.faults report.new) (timed_line number done.now) result }
{
    let page = place_page(number, done);
    put_all(report, page.bytes())?;
    put_move(done.mv, report)
}

impl MoveLines {
    /// The lines, none of which is written yet.
    pub fn new() -> MoveLines
        ensures { result ≡ record { count = 0 } }
    {
        MoveLines { count: 0 }
    }
}

impl Watcher for MoveLines {
    ghost noted = { λ lines made done. record { count = min (lines.count + 1) (2 ^ 64 - 1) } };

    ghost text = { λ lines made done. timed_line (min (lines.count + 1) (2 ^ 64 - 1)) done };

    fn note<R: Sink>(
        &mut self,
        _core: &Core,
        _event: &Event,
        done: &TimedMove,
        report: &mut R,
    ) -> Result<(), Failed> {
        self.count = self.count.saturating_add(1);
        put_timed(self.count, done, report)
    }
}
