//! Worked calls of the simulator: makes each call that the files of rows describe, and prints each row whose outcome
//! differs from the expected one.
#![tactic(auto)]

mod making;
mod report;
mod tally;

use crate::report::judge;
use crate::tally::RowTally;
use cf_io::{DirFiles, Files};
use std::process::ExitCode;
use std::{env, io, rt, str};
use test_rows::Sheet;

/// The maximum number of bytes of a file of rows.
const MOST_BYTES: u64 = 1_000_000;

/// Applies one line, after the call of the row that it ends.
fn run_line(
    rt: &(impl Print + AllocGlobal),
    name: &str,
    number: u64,
    line: &str,
    sheet: &mut Sheet,
    tally: &mut RowTally,
) -> io::Result<()> {
    if Sheet::begins_row(line) {
        judge(rt, name, sheet, tally)?;
    }
    if sheet.heed(line).is_ok() {
        return Ok(());
    }
    tally.differ();
    println!(rt; "{name}: line {number} cannot be read")
}

/// Reads the lines of one file, and makes the call of each of its rows.
fn run_lines(
    rt: &(impl Print + AllocGlobal),
    name: &str,
    text: &str,
    sheet: &mut Sheet,
    tally: &mut RowTally,
) -> io::Result<()> {
    let mut number = 0u64;
    for line in text.lines() {
        number = number.saturating_add(1);
        run_line(rt, name, number, line, sheet, tally)?;
    }
    judge(rt, name, sheet, tally)
}

/// Makes the calls of the rows in a file's bytes, if they are a text.
fn run_rows(
    rt: &(impl Print + AllocGlobal),
    name: &str,
    bytes: &[u8],
    tally: &mut RowTally,
) -> io::Result<()> {
    let text = str::from_utf8(bytes).unwrap_or("");
    if text.is_empty() {
        tally.differ();
        return println!(rt; "{name} cannot be read");
    }
    let mut sheet = Sheet::new(rt.alloc());
    run_lines(rt, name, text, &mut sheet, tally)
}

/// The bytes of a file of rows; none if it cannot be read.
fn bytes_of(rt: &HostRuntime, name: &str) -> Vec<u8> {
    let mut files = DirFiles::new(rt);
    match files.read(rt.alloc(), name, MOST_BYTES) {
        Ok(bytes) => bytes,
        Err(_) => Vec::new(rt.alloc()),
    }
}

/// Makes the calls of one file.
fn run_file(rt: &HostRuntime, name: &str, tally: &mut RowTally) -> io::Result<()> {
    let bytes = bytes_of(rt, name);
    run_rows(rt, name, bytes.as_slice(), tally)
}

/// The files of rows that the command line names.
fn names_of<R: rt::Env + AllocGlobal>(rt: &R) -> io::Result<Vec<String>> {
    let mut args = env::args(rt)?;
    let _program = args.next();
    Ok(args.collect(rt.alloc())?)
}

fn run_files(rt: &HostRuntime, tally: &mut RowTally) -> io::Result<()> {
    let names = names_of(rt)?;
    for name in names.iter() {
        run_file(rt, name.as_str(), tally)?;
    }
    Ok(())
}

fn main(rt: HostRuntime) -> ExitCode {
    let mut tally = RowTally::new();
    if run_files(&rt, &mut tally).is_err() {
        return ExitCode::from(2);
    }
    let _ = println!(rt;
        "{} rows agree, {} differ",
        tally.agreeing(),
        tally.differing()
    );
    ExitCode::from(u8::from(tally.differing() > 0))
}
