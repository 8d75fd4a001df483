//! The report that closes a run.
#![tactic(auto, unfolding(crate::specs::Closing::head_text, crate::specs::Closing::machine_closing))]

ghost use Rattle.std.specs.Prelude.{◌≡◌, ◌≤◌, length, codes};
ghost use Rattle.texts.specs.Lines.{counted_line};
ghost use Rattle.cf_report.specs.Putting.{PutsText};
ghost use Rattle.report_closing.specs.Closing.{head_text, rest_text, machine_closing, closing, closing_in_rounds};

use crate::first_line::push_first_line;
use cf_core::Core;
use cf_io::{Failed, Sink, put_all};
use cf_report::{Tally, put_picture, put_registers, put_tally};
use run_finishes::{Ran, Scripted};
use texts::Page;

/// How the run finished, and how many instructions have retired.
fn head_page(limit: u64, moves: u64, answer: Scripted, retired: u64) -> Page
    ensures text { result ≡ head_text limit moves answer retired }
    ensures size { length result ≤ 110 }
{
    let mut page = Page::new();
    push_first_line(&mut page, limit, moves, answer);
    page.push_counted(b"retired ", retired);
    page
}

/// The same for the sequential machine, and its registers.
fn machine_page(limit: u64, answer: Ran, retired: u64, regs: &[u32; 32]) -> Page
    ensures { result ≡ machine_closing limit answer retired regs.now }
{
    let mut page = head_page(limit, 0, Scripted::Ran(answer), retired);
    page.push_registers(regs);
    page
}

fn put_head<R: Sink>(
    core: &Core,
    limit: u64,
    answer: Scripted,
    moves: u64,
    report: &mut R,
) -> Result<(), Failed>
    ensures { PutsText (R.written report.old) (R.written report.new)
        (R.faults report.old) (R.faults report.new)
        (head_text limit moves answer core.now.state.retired) result }
{
    let page = head_page(limit, moves, answer, core.retired());
    put_all(report, page.bytes())
}

fn put_rounds<R: Sink>(rounds: u64, report: &mut R) -> Result<(), Failed>
    ensures { PutsText (R.written report.old) (R.written report.new)
        (R.faults report.old) (R.faults report.new) (counted_line (codes "rounds ") rounds) result }
{
    let mut page = Page::new();
    page.push_counted(b"rounds ", rounds);
    put_all(report, page.bytes())
}

fn put_rest<R: Sink>(core: &Core, tally: &Tally, report: &mut R) -> Result<(), Failed>
    ensures { PutsText (R.written report.old) (R.written report.new)
        (R.faults report.old) (R.faults report.new)
        (rest_text core.now.plan core.now.state tally.now) result }
{
    put_tally(tally, report)?;
    put_registers(core.regs(), report)?;
    put_picture(core, report)
}

/// Writes the report that closes a run of the sequential machine under this limit, which finished with this answer,
/// this many retired instructions and these registers: the line that says how it finished, the count and the registers.
/// After `Failed` a prefix of it was written.
pub fn put_machine_closing<R: Sink>(
    limit: u64,
    answer: Ran,
    retired: u64,
    regs: &[u32; 32],
    report: &mut R,
) -> Result<(), Failed>
    ensures { PutsText (R.written report.old) (R.written report.new)
        (R.faults report.old) (R.faults report.new) (machine_closing limit answer retired regs.now) result }
{
    let page = machine_page(limit, answer, retired, regs);
    put_all(report, page.bytes())
}

/// Writes the report that closes a run of the processor under this limit, which finished with this answer and left this
/// processor and these counts: the line that says how it finished, how many instructions have retired, the counts, the
/// registers, and the picture of the processor. After `Failed` a prefix of it was written.
pub fn put_closing<R: Sink>(
    core: &Core,
    limit: u64,
    answer: Scripted,
    tally: &Tally,
    report: &mut R,
) -> Result<(), Failed>
    ensures { PutsText (R.written report.old) (R.written report.new)
        (R.faults report.old) (R.faults report.new)
        (closing limit answer core.now.plan core.now.state tally.now) result }
{
    put_head(core, limit, answer, tally.moves, report)?;
    put_rest(core, tally, report)
}

/// Writes the report that closes a run in this many rounds: the report of any run of the processor, with the number of
/// rounds after that of the retired instructions. After `Failed` a prefix of it was written.
pub fn put_closing_in_rounds<R: Sink>(
    core: &Core,
    limit: u64,
    answer: Scripted,
    rounds: u64,
    tally: &Tally,
    report: &mut R,
) -> Result<(), Failed>
    ensures { PutsText (R.written report.old) (R.written report.new)
        (R.faults report.old) (R.faults report.new)
        (closing_in_rounds limit answer rounds core.now.plan core.now.state tally.now) result }
{
    put_head(core, limit, answer, tally.moves, report)?;
    put_rounds(rounds, report)?;
    put_rest(core, tally, report)
}
