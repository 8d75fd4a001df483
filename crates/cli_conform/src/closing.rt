//! The report of a log, and its status.
#![tactic(auto, unfolding(crate::specs::LogLines::log_help, crate::specs::LogLines::expected_text, crate::specs::LogLines::agreement_text, crate::specs::LogLines::log_closing))]

ghost use Rattle.std.specs.Prelude.{◌≡◌, ◌++◌, codes};
ghost use Rattle.cli_reports.specs.Reporting.{PutsInto};
ghost use Rattle.report_closing.specs.Closing.{rest_text};
ghost use Rattle.cli_files.specs.Outside.{report_in};
ghost use Rattle.cli_conform.specs.Conform.{ClosesLog, log_status};
ghost use Rattle.cli_conform.specs.LogLines.{after_refusal, agreement_text, expected_text, log_closing, log_help, log_line};

use crate::allowed::put_candidates;
use crate::first_line::log_page;
use cf_conform::{Conformed, LogProgress, wanted_line};
use cf_core::Core;
use cf_index::Candidates;
use cf_io::{Failed, Sink, put_all};
use cf_log::{LogErr, LogKind};
use cf_report::{Tally, put_picture, put_registers, put_tally};
use cli_files::Status;
use cli_reports::{Reported, status_of_run};
use texts::Page;

/// The status of a log that ended in this way after that many moves.
fn status_of(limit: u64, moves: u64, answer: Conformed) -> Status
    ensures { result ≡ log_status limit moves answer }
{
    match answer {
        Conformed::Ran(ran) => status_of_run(limit, ran),
        Conformed::LogEnd => Status::LogEnd(moves),
        Conformed::BadLog(refusal) => Status::BadLog(refusal),
        Conformed::Differs { line, .. } => Status::BadLog(LogErr {
            line,
            kind: LogKind::Differs,
        }),
    }
}

/// Writes the first line.
fn put_head<R: Sink>(
    limit: u64,
    moves: u64,
    answer: Conformed,
    report: &mut R,
) -> Result<(), Failed>
    ensures { PutsInto R.Sink report.old report.new (log_line limit moves answer) result }
{
    let page = log_page(limit, moves, answer);
    put_all(report, page.bytes())
}

/// Writes the line that the observation should be.
fn put_wanted<R: Sink>(wanted: &[u8], report: &mut R) -> Result<(), Failed>
    ensures { PutsInto R.Sink report.old report.new (codes "expected " ++ wanted.now) result }
{
    put_all(report, b"expected ")?;
    put_all(report, wanted)
}

/// The same, if there is such a line.
fn put_expected<R: Sink>(wanted: Option<Page>, report: &mut R) -> Result<(), Failed>
    ensures { PutsInto R.Sink report.old report.new (expected_text wanted) result }
{
    match wanted {
        Some(page) => put_wanted(page.bytes(), report),
        None => Ok(()),
    }
}

/// Writes what follows the refusal of a line.
fn put_after<R: Sink>(
    core: &Core,
    candidates: &mut Candidates,
    kind: LogKind,
    report: &mut R,
) -> Result<(), Failed>
    ensures { PutsInto R.Sink report.old report.new (after_refusal core.now.plan core.now.state kind) result }
{
    match kind {
        LogKind::Barred(_) => put_candidates(core, candidates, report),
        LogKind::TooLong
        | LogKind::NotAscii
        | LogKind::BadTime
        | LogKind::UnknownLine
        | LogKind::BadNumber
        | LogKind::ExtraWords
        | LogKind::Differs => Ok(()),
    }
}

/// Writes what follows the first line.
fn put_help<R: Sink>(
    core: &Core,
    candidates: &mut Candidates,
    progress: &LogProgress,
    answer: Conformed,
    report: &mut R,
) -> Result<(), Failed>
    ensures { PutsInto R.Sink report.old report.new (log_help core.now.plan core.now.state progress.now.latest answer) result }
{
    match answer {
        Conformed::Ran(_) => Ok(()),
        Conformed::LogEnd => put_candidates(core, candidates, report),
        Conformed::BadLog(refusal) => put_after(core, candidates, refusal.kind, report),
        Conformed::Differs { part, .. } => {
            put_expected(wanted_line(core, progress.latest, part), report)
        }
    }
}

/// How many instructions have retired, and how many observations agreed.
fn counts_page(retired: u64, observed: u64) -> Page
    ensures { result ≡ agreement_text retired observed }
{
    let mut page = Page::new();
    page.push_counted(b"retired ", retired);
    page.push_counted(b"observed ", observed);
    page
}

/// Writes these two counts.
fn put_counts<R: Sink>(retired: u64, observed: u64, report: &mut R) -> Result<(), Failed>
    ensures { PutsInto R.Sink report.old report.new (agreement_text retired observed) result }
{
    let page = counts_page(retired, observed);
    put_all(report, page.bytes())
}

/// Writes the counts of the moves, the registers and the picture.
fn put_rest<R: Sink>(core: &Core, tally: &Tally, report: &mut R) -> Result<(), Failed>
    ensures { PutsInto R.Sink report.old report.new (rest_text core.now.plan core.now.state tally.now) result }
{
    put_tally(tally, report)?;
    put_registers(core.regs(), report)?;
    put_picture(core, report)
}

/// Writes the report of a log.
fn put_closing<R: Sink>(
    core: &Core,
    candidates: &mut Candidates,
    limit: u64,
    progress: &LogProgress,
    answer: Conformed,
    report: &mut R,
) -> Result<(), Failed>
    ensures { PutsInto R.Sink report.old report.new (log_closing limit answer core.now.plan core.now.state progress.now) result }
{
    put_head(limit, progress.tally.moves, answer, report)?;
    put_help(core, candidates, progress, answer, report)?;
    put_counts(core.retired(), progress.observed, report)?;
    put_rest(core, &progress.tally, report)
}

/// Writes the report of a log that ended in this way.
pub(crate) fn close_log<R: Sink>(
    core: &Core,
    candidates: &mut Candidates,
    limit: u64,
    progress: &LogProgress,
    answer: Conformed,
    report: &mut R,
) -> Reported
    ensures { ClosesLog limit answer core.now progress.now (report_in R.Sink report.old) (report_in R.Sink report.new) result }
{
    Reported {
        status: status_of(limit, progress.tally.moves, answer),
        put: put_closing(core, candidates, limit, progress, answer, report),
    }
}
