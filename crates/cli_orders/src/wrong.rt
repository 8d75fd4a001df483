//! The report of a wrong list of moves.
#![tactic(auto, unfolding(crate::specs::OrderTexts::wrong_line, crate::specs::OrderTexts::named_line, crate::specs::OrderTexts::both_lines))]

ghost use Rattle.std.specs.Prelude.{◌≡◌, ◌≤◌, ◌++◌, codes, length};
ghost use Rattle.texts.specs.Lines.{counted_line};
ghost use Rattle.cf_report.specs.Lines.{retired_line};
ghost use Rattle.cli_reports.specs.Reporting.{PutsInto};
ghost use Rattle.order_report.specs.Drawing.{IsDrawable};
ghost use Rattle.cli_orders.specs.OrderTexts.{both_lines, kind_word, named_line, order_tally, wrong_line, wrong_report, wrong_text};

use cf_io::{Failed, Sink, put_all};
use cf_layout::LooseLayout;
use cf_report::{Tally, put_retired};
use order_claims::WrongKind;
use order_graph::{OrderCounts, WrongOrder};
use order_model::Situation;
use order_report::put_state_rest;
use rv_machine::Retired;
use texts::Page;

/// The word for a kind of wrong list.
fn word_of(kind: WrongKind) -> &'static [u8]
    ensures word { result.now ≡ kind_word kind }
    ensures size { length result.now ≤ 7 }
{
    match kind {
        WrongKind::Retired => b"retired",
        WrongKind::Ended => b"ended",
        WrongKind::Output => b"output",
        WrongKind::Stuck => b"stuck",
        WrongKind::Memory => b"memory",
    }
}

/// The line that says after how many moves a list is wrong, and in which way.
fn wrong_page(moves: u64, kind: WrongKind) -> Page
    ensures { result ≡ wrong_line moves kind }
{
    let mut page = Page::new();
    page.push(b"wrong after ");
    page.push_decimal(moves);
    page.push(b" moves: ");
    page.push(word_of(kind));
    page.push(b"\n");
    page
}

/// Writes that line.
fn put_head<R: Sink>(moves: u64, kind: WrongKind, report: &mut R) -> Result<(), Failed>
    ensures { PutsInto R.Sink report.old report.new (wrong_line moves kind) result }
{
    let page = wrong_page(moves, kind);
    put_all(report, page.bytes())
}

/// Writes the line of the instruction that retired as the `n`th, after a word.
fn put_line<R: Sink>(name: &[u8], n: u64, line: &Retired, report: &mut R) -> Result<(), Failed>
    ensures { PutsInto R.Sink report.old report.new (name.now ++ retired_line n line.now) result }
{
    put_all(report, name)?;
    put_retired(n, line, report)
}

/// The same, if there is one.
fn put_named<R: Sink>(
    name: &[u8],
    n: u64,
    line: Option<Retired>,
    report: &mut R,
) -> Result<(), Failed>
    ensures { PutsInto R.Sink report.old report.new (named_line name.now n line) result }
{
    match line {
        Some(line) => put_line(name, n, &line, report),
        None => Ok(()),
    }
}

/// Writes what retired, and what the machine would have retired.
fn put_pair<R: Sink>(
    n: u64,
    seen: Option<Retired>,
    wanted: Option<Retired>,
    report: &mut R,
) -> Result<(), Failed>
    ensures { PutsInto R.Sink report.old report.new (named_line (codes "seen ") n seen ++ named_line (codes "wanted ") n wanted) result }
{
    put_named(b"seen ", n, seen, report)?;
    put_named(b"wanted ", n, wanted, report)
}

/// The same, if that is how the list is wrong.
fn put_both<R: Sink>(
    kind: WrongKind,
    n: u64,
    seen: Option<Retired>,
    wanted: Option<Retired>,
    report: &mut R,
) -> Result<(), Failed>
    ensures { PutsInto R.Sink report.old report.new (both_lines kind n seen wanted) result }
{
    match kind {
        WrongKind::Retired => put_pair(n, seen, wanted, report),
        WrongKind::Ended | WrongKind::Output | WrongKind::Stuck | WrongKind::Memory => Ok(()),
    }
}

/// Writes how many instructions have retired.
fn put_count<R: Sink>(retired: u64, report: &mut R) -> Result<(), Failed>
    ensures { PutsInto R.Sink report.old report.new (counted_line (codes "retired ") retired) result }
{
    let mut page = Page::new();
    page.push_counted(b"retired ", retired);
    put_all(report, page.bytes())
}

/// The counts of the moves.
fn counts_of(moves: u64, counts: OrderCounts) -> Tally
    ensures { result ≡ order_tally moves counts }
{
    Tally {
        moves,
        meets: counts.meets,
        kills: counts.kills,
        dead: counts.dead,
    }
}

/// How many instructions have retired in a state.
fn retired_in(situation: &Situation) -> u64
    ensures { result ≡ situation.now.retired }
{
    situation.retired
}

/// Writes the parts of the report of a wrong list, one after another.
fn put_parts<R: Sink>(
    layout: &LooseLayout,
    wrong: &WrongOrder,
    retired: u64,
    seen: Option<Retired>,
    tally: &Tally,
    report: &mut R,
) -> Result<(), Failed>
    requires { IsDrawable wrong.now.reached }
    ensures { PutsInto R.Sink report.old report.new (wrong_text layout.now tally.now.moves wrong.now.kind retired seen wrong.now.wanted wrong.now.reached tally.now) result }
{
    put_head(tally.moves, wrong.kind, report)?;
    put_both(wrong.kind, retired, seen, wrong.wanted, report)?;
    put_count(retired, report)?;
    put_state_rest(layout, &wrong.reached, tally, report)
}

/// Writes the report of a wrong list of moves, whose last move retires this line.
pub(crate) fn put_report<R: Sink>(
    layout: &LooseLayout,
    wrong: &WrongOrder,
    seen: Option<Retired>,
    report: &mut R,
) -> Result<(), Failed>
    requires { IsDrawable wrong.now.reached }
    ensures { PutsInto R.Sink report.old report.new (wrong_report layout.now wrong.now seen) result }
{
    let tally = counts_of(wrong.moves.len() as u64, wrong.counts);
    put_parts(
        layout,
        wrong,
        retired_in(&wrong.reached),
        seen,
        &tally,
        report,
    )
}
