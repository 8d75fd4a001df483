//! The lines of the report.
#![tactic(auto, unfolding(crate::specs::Lines::run_ending_text, crate::specs::Lines::number_text, crate::specs::Lines::measured_text, crate::specs::Asked::layout_name))]

ghost use Rattle.std.specs.Prelude.{◌≡◌, ◌+◌, ◌≤◌, ◌++◌, length};
ghost use Rattle.cli_reports.specs.Reporting.{PutsInto};
ghost use Rattle.cf_timed.specs.TimedRuns.{answer_of_timed};
ghost use Rattle.cli_arguments.specs.Views.{layout_of};
ghost use Rattle.cli_time.specs.Asked.{layout_name};
ghost use Rattle.cli_time.specs.Lines.{closing_lines, run_ending_text, least_line, measured_text, number_text};
ghost use Rattle.texts.specs.Room.{page_room};

use crate::measuring::Measured;
use crate::site_lines::put_sites;
use cf_io::{Failed, Sink, put_all};
use cf_run::Ran;
use cf_timed::Timed;
use cli_arguments::LayoutArgument;
use report_closing::run_line;
use texts::Page;

/// The answer of a timed run as that of any run.
fn ran(answer: Timed) -> Ran
    ensures { result ≡ answer_of_timed answer }
{
    match answer {
        Timed::Exit(status) => Ran::Exit(status),
        Timed::Trap { cause, pc, detail } => Ran::Trap { cause, pc, detail },
        Timed::Limit => Ran::Limit,
        Timed::ReadFault => Ran::ReadFault,
        Timed::WriteFault => Ran::WriteFault,
    }
}

/// How the run ended.
fn push_ending(page: &mut Page, limit: u64, answer: Timed)
    requires { length page.old + 80 ≤ page_room }
    ensures text { page.new ≡ page.old ++ run_ending_text limit answer }
    ensures size { length page.new ≤ length page.old + 80 }
{
    let line = run_line(limit, ran(answer));
    let line = line.bytes();
    page.push(&line[..line.len().saturating_sub(1)]);
}

/// A number after its name.
fn push_number(page: &mut Page, name: &[u8], number: u64)
    requires { length page.old + length name.now + 20 ≤ page_room }
    ensures text { page.new ≡ page.old ++ number_text name.now number }
    ensures size { length page.new ≤ length page.old + length name.now + 20 }
{
    page.push(name);
    page.push_decimal(number);
}

/// What was measured, as written after the name of the layout.
fn measured_page(limit: u64, measured: Measured) -> Page
    ensures { result ≡ measured_text limit measured }
{
    let mut page = Page::new();
    page.push(b": ");
    push_ending(&mut page, limit, measured.answer);
    push_number(&mut page, b" time ", measured.time);
    push_number(&mut page, b" moves ", measured.moves);
    page.push_counted(b" retired ", measured.retired);
    page
}

/// The argument that names a layout.
fn name_of(argument: LayoutArgument<'_>) -> &[u8]
    ensures { result.now ≡ layout_name (layout_of argument.entry) }
{
    match argument {
        LayoutArgument::Plain => b"plain",
        LayoutArgument::File(name) => name.as_bytes(),
    }
}

/// Writes two texts, one after the other.
fn put_both<R: Sink>(first: &[u8], second: &[u8], report: &mut R) -> Result<(), Failed>
    ensures { PutsInto R.Sink report.old report.new (first.now ++ second.now) result }
{
    put_all(report, first)?;
    put_all(report, second)
}

/// Writes the line of a layout, followed by those of what its time is made of, if that is shown.
pub(crate) fn put_layout<R: Sink>(
    limit: u64,
    argument: LayoutArgument<'_>,
    measured: Measured,
    report: &mut R,
) -> Result<(), Failed>
    ensures { PutsInto R.Sink report.old report.new (closing_lines limit (layout_of argument.entry) measured) result }
{
    let page = measured_page(limit, measured);
    put_both(name_of(argument), page.bytes(), report)?;
    put_sites(&measured.sites, report)
}

/// Writes the line that names the layout with the least time.
pub(crate) fn put_least<R: Sink>(argument: LayoutArgument<'_>, report: &mut R) -> Result<(), Failed>
    ensures { PutsInto R.Sink report.old report.new (least_line (layout_of argument.entry)) result }
{
    put_all(report, b"least ")?;
    put_both(name_of(argument), b"\n", report)
}
