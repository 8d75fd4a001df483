//! The lines of a report other than the picture.
#![tactic(auto, unfolding(crate::specs::Lines::tally_text, crate::specs::Lines::numbered_move))]

ghost use Rattle.std.specs.Prelude.{◌≡◌, ◌++◌, codes, decimal};
ghost use Rattle.cf_bind.specs.MoveTexts.{move_line};
ghost use Rattle.texts.specs.Lines.{line as line_of};
ghost use Rattle.cf_report.specs.Lines.{retired_line, numbered_move, tally_text as text_of_tally, registers_text, register_line};
ghost use Rattle.cf_report.specs.Putting.{PutsText};

use crate::passengers::push_value;
use crate::putting::put_text;
use crate::tally::Tally;
use cf_bind::{Move, MoveLine, move_text};
use cf_io::{Failed, Sink};
use rv_machine::Retired;
use texts::{Page, retirement_line};

/// Writes the line of the instruction that retired as the `n`th.
pub fn put_retired<R: Sink>(n: u64, r: &Retired, report: &mut R) -> Result<(), Failed>
    ensures { PutsText (R.written report.old) (R.written report.new)
        (R.faults report.old) (R.faults report.new) (retired_line n r.now) result }
{
    let page = retirement_line(n, r.pc, r.word, r.reg, r.value);
    put_text(page.bytes(), report)
}

fn put_move_text<R: Sink>(mv: Move, report: &mut R) -> Result<(), Failed>
    ensures { PutsText (R.written report.old) (R.written report.new)
        (R.faults report.old) (R.faults report.new) (line_of (move_line mv)) result }
{
    let mut line = MoveLine::new();
    move_text(mv, &mut line);
    put_text(line.bytes(), report)?;
    put_text(b"\n", report)
}

/// The text before the `n`th move in its line.
pub fn move_number(n: u64) -> Page
    ensures { result ≡ codes "move " ++ decimal n ++ codes " " }
{
    let mut page = Page::new();
    page.push(b"move ");
    page.push_decimal(n);
    page.push(b" ");
    page
}

/// Writes the line of the `n`th move.
pub fn put_move<R: Sink>(n: u64, mv: Move, report: &mut R) -> Result<(), Failed>
    ensures { PutsText (R.written report.old) (R.written report.new)
        (R.faults report.old) (R.faults report.new) (numbered_move n mv) result }
{
    let page = move_number(n);
    put_text(page.bytes(), report)?;
    put_move_text(mv, report)
}

fn tally_page(tally: &Tally) -> Page
    ensures { result ≡ text_of_tally tally.now }
{
    let mut page = Page::new();
    page.push_counted(b"moves ", tally.moves);
    page.push_counted(b"meets ", tally.meets);
    page.push_counted(b"kills ", tally.kills);
    page.push_counted(b"dead ", tally.dead);
    page
}

/// Writes the counts, a line each.
pub fn put_tally<R: Sink>(t: &Tally, report: &mut R) -> Result<(), Failed>
    ensures { PutsText (R.written report.old) (R.written report.new)
        (R.faults report.old) (R.faults report.new) (text_of_tally t.now) result }
{
    let page = tally_page(t);
    put_text(page.bytes(), report)
}

/// Writes the registers, four a line.
pub fn put_registers<R: Sink>(regs: &[u32; 32], report: &mut R) -> Result<(), Failed>
    ensures { PutsText (R.written report.old) (R.written report.new)
        (R.faults report.old) (R.faults report.new) (registers_text regs.now) result }
{
    let mut page = Page::new();
    page.push_registers(regs);
    put_text(page.bytes(), report)
}

/// The line of one register.
pub fn register_page(register: u8, value: u32) -> Page
    ensures { result ≡ register_line register value }
{
    let mut page = Page::new();
    push_value(&mut page, register, value);
    page.push(b"\n");
    page
}
