//! Printing the rows that differ.

use crate::making::make;
use crate::tally::RowTally;
use std::alloc::{AllocError, Global};
use std::{io, str};
use test_rows::{CallOutcome, Matching, Sheet, Wanted};

/// Prints what differs, with the expected bytes and the actual ones.
fn print_difference(rt: &impl Print, what: &str, wanted: &[u8], came: &[u8]) -> io::Result<()> {
    let wanted = str::from_utf8(wanted).unwrap_or("bytes that are no text");
    let came = str::from_utf8(came).unwrap_or("bytes that are no text");
    println!(rt; "  {what} wanted:\n{wanted}\n  {what} that came:\n{came}")
}

/// Whether the actual bytes are the expected ones; they are printed if not.
fn bytes_agree(
    rt: &impl Print,
    what: &str,
    wanted: &(Matching, Vec<u8>),
    came: &[u8],
) -> io::Result<bool> {
    if wanted.0.holds(came, wanted.1.as_slice()) {
        return Ok(true);
    }
    print_difference(rt, what, wanted.1.as_slice(), came)?;
    Ok(false)
}

/// Whether the actual status is the expected one; both are printed if not.
fn status_agrees(rt: &impl Print, wanted: u8, came: u8) -> io::Result<bool> {
    if came == wanted {
        return Ok(true);
    }
    println!(rt; "  status {wanted} wanted, {came} came")?;
    Ok(false)
}

/// Whether the outcome of the call is the expected one; differences are printed.
fn agrees(rt: &impl Print, wanted: &Wanted, outcome: &CallOutcome) -> io::Result<bool> {
    let status = status_agrees(rt, wanted.status, outcome.status)?;
    let output = bytes_agree(rt, "output", &wanted.output, outcome.output.as_slice())?;
    let report = bytes_agree(rt, "report", &wanted.report, outcome.report.as_slice())?;
    Ok(status && output && report)
}

/// The outcome of the row's call, which the sheet keeps for the rows that follow.
fn outcome_of(alloc: Global, sheet: &mut Sheet) -> Result<CallOutcome, AllocError> {
    let outcome = make(alloc, sheet.call()?)?;
    sheet.keep(&outcome)?;
    Ok(outcome)
}

/// Makes the row's call, and returns whether its outcome is the expected one.
fn row_agrees(rt: &(impl Print + AllocGlobal), sheet: &mut Sheet) -> io::Result<bool> {
    let outcome = outcome_of(rt.alloc(), sheet)?;
    agrees(rt, sheet.wanted(), &outcome)
}

/// Makes the call of the row that was read, if one was, and counts it; a row that differs is printed.
pub(crate) fn judge(
    rt: &(impl Print + AllocGlobal),
    file: &str,
    sheet: &mut Sheet,
    tally: &mut RowTally,
) -> io::Result<()> {
    if sheet.name().is_none() {
        return Ok(());
    }
    if row_agrees(rt, sheet)? {
        tally.agree();
        return Ok(());
    }
    tally.differ();
    let name = sheet.name().unwrap_or("");
    println!(rt; "{file}: {name}: differs")
}
