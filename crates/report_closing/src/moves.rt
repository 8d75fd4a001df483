//! Which moves can be made in a state, and what bars each of the others.
#![tactic(auto, unfolding(crate::specs::Moves::standing_line))]

ghost use Rattle.std.specs.Prelude.{◌≡◌, ◌++◌, codes};
ghost use Rattle.cf_bind.specs.MoveTexts.{move_line};
ghost use Rattle.cf_semantics.specs.moves.Candidates.{at_stages};
ghost use Rattle.cf_report.specs.Putting.{PutsText};
ghost use Rattle.report_refusals.specs.Bars.{bar_text};
ghost use Rattle.report_closing.specs.Moves.{between, cell_moves, siding_moves, line_in, moves_text};
ghost use Rattle.report_closing.specs.Parts.{move_at, part_moves, move_lines};

use crate::parts::{ClosingPart, PARTS, StageMove};
use cf_bind::{Bar, Move, MoveLine, move_text};
use cf_core::Core;
use cf_io::{Failed, Sink, put_all};
use report_refusals::push_bar;
use texts::Page;

/// The end of the line of a barred move, after the move.
fn bar_page(bar: Bar) -> Page
    ensures { result ≡ codes " " ++ bar_text bar ++ codes "\n" }
{
    let mut page = Page::new();
    page.push(b" ");
    push_bar(&mut page, bar);
    page.push(b"\n");
    page
}

/// Writes a move, and a text after it.
fn put_move<R: Sink>(mv: Move, after: &[u8], report: &mut R) -> Result<(), Failed>
    ensures { PutsText (R.written report.old) (R.written report.new)
        (R.faults report.old) (R.faults report.new) (move_line mv ++ after.now) result }
{
    let mut line = MoveLine::new();
    move_text(mv, &mut line);
    put_all(report, line.bytes())?;
    put_all(report, after)
}

/// Writes a move between two texts.
fn put_between<R: Sink>(before: &[u8], mv: Move, after: &[u8], report: &mut R) -> Result<(), Failed>
    ensures { PutsText (R.written report.old) (R.written report.new)
        (R.faults report.old) (R.faults report.new) (between before.now mv after.now) result }
{
    put_all(report, before)?;
    put_move(mv, after, report)
}

/// Writes the line of a move: that the processor can make it now, or its bar. After `Failed` a prefix of the line was
/// written.
pub fn put_standing<R: Sink>(core: &Core, mv: Move, report: &mut R) -> Result<(), Failed>
    ensures { PutsText (R.written report.old) (R.written report.new)
        (R.faults report.old) (R.faults report.new) (line_in core.now.plan core.now.state mv) result }
{
    match core.allowed(mv) {
        None => put_between(b"allowed ", mv, b"\n", report),
        Some(bar) => {
            let page = bar_page(bar);
            put_between(b"barred ", mv, page.bytes(), report)
        }
    }
}

/// Writes the lines of the moves of a kind at each stage, ascending.
fn put_stages<R: Sink>(core: &Core, kind: StageMove, report: &mut R) -> Result<(), Failed>
    ensures { PutsText (R.written report.old) (R.written report.new)
        (R.faults report.old) (R.faults report.new)
        (move_lines core.now.plan core.now.state (at_stages core.now.plan (move_at kind))) result }
{
    for below in 0..core.layout().stages() {
        put_standing(core, kind.at(below + 1), report)?;
    }
    Ok(())
}

/// Writes the lines of the moves from each cell of a siding, ascending.
fn put_cells<R: Sink>(core: &Core, siding: u32, cells: u32, report: &mut R) -> Result<(), Failed>
    ensures { PutsText (R.written report.old) (R.written report.new)
        (R.faults report.old) (R.faults report.new)
        (move_lines core.now.plan core.now.state (cell_moves siding cells)) result }
{
    for cell in 0..cells {
        put_standing(core, Move::Slide(siding, cell), report)?;
    }
    Ok(())
}

/// Writes the lines of all sidings, ascending.
fn put_slides<R: Sink>(core: &Core, report: &mut R) -> Result<(), Failed>
    ensures { PutsText (R.written report.old) (R.written report.new)
        (R.faults report.old) (R.faults report.new)
        (move_lines core.now.plan core.now.state (siding_moves 0 core.now.plan.sidings)) result }
{
    for siding in 0..core.layout().siding_count() {
        put_cells(core, siding, core.layout().cells_of(siding), report)?;
    }
    Ok(())
}

/// Writes the lines of a part of the order of all moves.
fn put_part<R: Sink>(core: &Core, part: ClosingPart, report: &mut R) -> Result<(), Failed>
    ensures { PutsText (R.written report.old) (R.written report.new)
        (R.faults report.old) (R.faults report.new)
        (move_lines core.now.plan core.now.state (part_moves core.now.plan part)) result }
{
    match part {
        ClosingPart::One(mv) => put_standing(core, mv, report),
        ClosingPart::Stages(kind) => put_stages(core, kind, report),
        ClosingPart::Slides => put_slides(core, report),
    }
}

/// Writes a line for each move, except an issue with an address, at each stage and each cell of each siding, in the
/// order of all moves: that the processor can make it now, or its bar. After `Failed` a prefix of the lines was
/// written.
pub fn put_moves<R: Sink>(core: &Core, report: &mut R) -> Result<(), Failed>
    ensures { PutsText (R.written report.old) (R.written report.new)
        (R.faults report.old) (R.faults report.new) (moves_text core.now.plan core.now.state) result }
{
    for part in PARTS.as_slice() {
        put_part(core, *part, report)?;
    }
    Ok(())
}
