//! A report that gathers its text: the pieces that it puts, and what the sink has if a put fails.
use crate::processors::core_of;
use cf_core::Core;
use cf_index::Candidates;
use cf_io::{Empty, MemSink, put_all};
use cf_layout::plain;
use cf_report::{Gathered, ReportSink, Tally};
use cf_run::{PolicyOptions, Ran, Reporting, Show, run_rule};
use cf_sched::Round;
use run_options::GuessRule;
use std::process::Abort;

/// The length of the text that is put: three pieces.
const SIZE: usize = 10_000;

/// A text in which no two neighbouring bytes are the same.
fn text() -> [u8; SIZE] {
    let mut bytes = [0; SIZE];
    for place in 0..SIZE {
        bytes[place] = (place % 251) as u8;
    }
    bytes
}

/// A report that gathers for a sink in memory, in which the puts with these numbers fail.
fn report(rt: &(impl Abort + AllocGlobal), fails: &[u64]) -> Gathered<MemSink> {
    let fails = fails.to_vec(rt.alloc()).expect(rt, "memory");
    let mut report = Gathered::new(MemSink::new(rt.alloc(), 20_000, fails).expect(rt, "memory"));
    report.gather();
    report
}

/// How many bytes of a text of this size the sink has after the text was put, and after it was passed on.
fn assert_pieces(rt: &(impl Abort + AllocGlobal), size: usize, passed: usize) {
    assert!(rt; size <= SIZE && passed <= SIZE, "too long");
    let text = text();
    let mut report = report(rt, &[]);
    assert!(rt; put_all(&mut report, &text[..size]).is_ok(), "put");
    assert!(rt;
        report.sink().bytes() == &text[..passed],
        "other bytes before"
    );
    assert!(rt; report.pass_on().is_ok(), "passed on");
    assert!(rt; report.sink().bytes() == &text[..size], "other bytes after");
}

#[test]
fn pieces_of_4096(rt: HostRuntime) {
    assert_pieces(&rt, 0, 0);
    assert_pieces(&rt, 4095, 0);
    assert_pieces(&rt, 4096, 0);
    assert_pieces(&rt, 4097, 4096);
    assert_pieces(&rt, 10_000, 8192);
}

/// The put with this number fails: the sink has this many bytes.
fn assert_kept(rt: &(impl Abort + AllocGlobal), number: u64, passed: usize) {
    assert!(rt; passed <= SIZE, "too long");
    let text = text();
    let mut report = report(rt, &[number]);
    let put = put_all(&mut report, &text).is_ok() && report.pass_on().is_ok();
    assert!(rt;
        !put && report.sink().bytes() == &text[..passed],
        "another prefix"
    );
}

/// The first, the second and the last of three pieces.
#[test]
fn a_prefix_where_a_put_fails(rt: HostRuntime) {
    assert_kept(&rt, 1, 0);
    assert_kept(&rt, 2, 4096);
    assert_kept(&rt, 3, 8192);
}

/// A piece that failed is passed on when the report is asked again.
#[test]
fn a_failed_piece_is_kept(rt: HostRuntime) {
    let mut report = report(&rt, &[1]);
    assert!(rt; put_all(&mut report, b"abc").is_ok(), "put");
    assert!(rt;
        report.pass_on().is_err() && report.pass_on().is_ok(),
        "another fault"
    );
    assert!(rt; report.sink().bytes() == b"abc".as_slice(), "other bytes");
}

/// Before it is asked to gather, it passes on each piece immediately.
#[test]
fn at_once_without_gathering(rt: HostRuntime) {
    let mut report = Gathered::new(output(&rt, 100));
    assert!(rt; put_all(&mut report, b"abc").is_ok(), "put");
    assert!(rt; report.sink().bytes() == b"abc".as_slice(), "other bytes");
}

/// `addi x10, x0, 1`, `addi x12, x0, 1`, `lui x11, 16`, `addi x17, x0, 64` and `ecall`: the program writes a byte.
const WRITES: &[u32] = &[
    0x0010_0513,
    0x0010_0613,
    0x0001_05b7,
    0x0400_0893,
    0x0000_0073,
];

/// The lines of the instructions that retire before the call.
const LINES: &[u8] = b"retire 1 00010000 00100513 x10=00000001\n\
    retire 2 00010004 00100613 x12=00000001\n\
    retire 3 00010008 000105b7 x11=00010000\n\
    retire 4 0001000c 04000893 x17=00000040\n";

/// How the run of the program ends when each instruction is shown as it retires.
fn run_writes(
    rt: &(impl Abort + AllocGlobal),
    output: &mut MemSink,
    report: &mut Gathered<MemSink>,
) -> Ran {
    let mut core: Core = core_of(rt, plain(), WRITES);
    assert!(rt; core.retired() <= 100, "too many retired");
    let mut candidates = Candidates::new(rt.alloc()).expect(rt, "memory");
    let mut tally = Tally {
        moves: 0,
        meets: 0,
        kills: 0,
        dead: 0,
    };
    let options = PolicyOptions {
        rule: GuessRule::Any,
        limit: 100,
        reporting: Reporting {
            show: Show::Retired,
            every: None,
        },
    };
    run_rule(
        &mut core,
        &mut candidates,
        &mut Round::new(),
        options,
        &mut Empty,
        output,
        report,
        &mut tally,
    )
}

fn output(rt: &(impl Abort + AllocGlobal), room: usize) -> MemSink {
    MemSink::new(rt.alloc(), room, Vec::new(rt.alloc())).expect(rt, "memory")
}

/// The write fails, which ends the run: the sink has the lines that it had when the write was made.
#[test]
fn lines_before_a_write(rt: HostRuntime) {
    let mut report = report(&rt, &[]);
    let ran = run_writes(&rt, &mut output(&rt, 0), &mut report);
    assert!(rt; matches!(ran, Ran::WriteFault), "another end");
    assert!(rt; report.sink().bytes() == LINES, "other lines");
}

/// The report fails before the write, which is not made.
#[test]
fn no_write_behind_a_failed_report(rt: HostRuntime) {
    let mut report = report(&rt, &[1]);
    let mut output = output(&rt, 10);
    let ran = run_writes(&rt, &mut output, &mut report);
    assert!(rt; matches!(ran, Ran::ReportFault), "another end");
    assert!(rt;
        output.bytes().is_empty() && report.sink().bytes().is_empty(),
        "written"
    );
}
