//! A call of the simulator over objects in memory.

use cf_io::{MemFiles, MemSink, MemSource};
use cfpp_cli::cfpp;
use std::alloc::{AllocError, Global};
use test_rows::{Call, CallOutcome, NamedBytes};

/// The capacity of the report in bytes.
const REPORT_ROOM: usize = 100_000;

/// What the simulator writes to.
#[derive(Drop)]
struct Sinks {
    output: MemSink,
    report: MemSink,
}

fn copy_of(alloc: Global, named: &NamedBytes) -> Result<NamedBytes, AllocError> {
    let name = String::from_str(alloc, named.0.as_str())?;
    Ok((name, named.1.as_slice().to_vec(alloc)?))
}

fn copies_of(alloc: Global, files: &[NamedBytes]) -> Result<Vec<NamedBytes>, AllocError> {
    let mut copies = Vec::new(alloc);
    for named in files {
        copies.push(copy_of(alloc, named)?)?;
    }
    Ok(copies)
}

fn files_in_memory(alloc: Global, call: &Call) -> Result<MemFiles, AllocError> {
    let files = copies_of(alloc, call.files.as_slice())?;
    Ok(MemFiles::new(alloc, files, call.fails.files.as_slice().to_vec(alloc)?))
}

fn source_of(alloc: Global, call: &Call) -> Result<MemSource, AllocError> {
    let bytes = call.input.as_slice().to_vec(alloc)?;
    let fails = call.fails.input.as_slice().to_vec(alloc)?;
    Ok(MemSource::new(bytes, call.piece.max(1), fails))
}

fn sink_of(alloc: Global, room: usize, fails: &[u64]) -> Result<MemSink, AllocError> {
    MemSink::new(alloc, room, fails.to_vec(alloc)?)
}

fn sinks_of(alloc: Global, call: &Call) -> Result<Sinks, AllocError> {
    let output = sink_of(alloc, call.room, call.fails.output.as_slice())?;
    let report = sink_of(alloc, REPORT_ROOM, call.fails.report.as_slice())?;
    Ok(Sinks { output, report })
}

/// Makes the call over objects in memory, and returns the exit status that the process would have.
fn status_of(
    alloc: Global,
    words: &[String],
    files: &mut MemFiles,
    input: &mut MemSource,
    sinks: &mut Sinks,
) -> u8 {
    cfpp(
        alloc,
        words,
        files,
        input,
        &mut sinks.output,
        &mut sinks.report,
    )
    .code()
}

fn outcome_of(alloc: Global, status: u8, sinks: &Sinks) -> Result<CallOutcome, AllocError> {
    let output = sinks.output.bytes().to_vec(alloc)?;
    let report = sinks.report.bytes().to_vec(alloc)?;
    Ok(CallOutcome {
        status,
        output,
        report,
    })
}

/// Makes the call over these files and this input.
fn make_over(
    alloc: Global,
    call: &Call,
    files: &mut MemFiles,
    input: &mut MemSource,
) -> Result<CallOutcome, AllocError> {
    let mut sinks = sinks_of(alloc, call)?;
    let status = status_of(alloc, call.words.as_slice(), files, input, &mut sinks);
    outcome_of(alloc, status, &sinks)
}

/// Makes the call.
pub(crate) fn make(alloc: Global, call: &Call) -> Result<CallOutcome, AllocError> {
    let mut files = files_in_memory(alloc, call)?;
    let mut input = source_of(alloc, call)?;
    make_over(alloc, call, &mut files, &mut input)
}
