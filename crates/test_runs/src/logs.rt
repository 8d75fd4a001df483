//! Logs of circuits: moves and observations that are correct, and why a log is refused, with its line.

use crate::processors::{SEVEN, TINY, core_of, layout_of};
use cf_conform::{Conformed, LogProgress, conform};
use cf_io::{MemSource, Nowhere};
use cf_log::LogKind;
use cf_run::Ran;
use std::process::Abort;

/// x10 = 7 is issued, executed, sent and retired, and its value leaves; with eight observations.
const LOG: &[u8] = b"# a circuit\n@0 move 1 issue next\nfetch 00010004\r\n@3 execute 1\n\
    \tstage  1 instruction | 00010000 next done - - x10=00000007 x10=00000007\n\n@3 send 1\nclimb 1\n\
    stage 1 result | x10=00000007\nleave\nretire 1 00010000 00700513 x10=00000007\n@10 exit\n\
    stage 2 empty\nsiding 0 -\nx10=00000007\n@999999999999999999 lane -";

/// The same moves, one a line.
const MOVES: &[u8] = b"issue next\nexecute 1\nsend 1\nclimb 1\nleave\nexit\n";

fn bytes_of(rt: &(impl Abort + AllocGlobal), bytes: &[u8]) -> Vec<u8> {
    let mut list = Vec::new(rt.alloc());
    list.extend_from_slice(bytes).expect(rt, "memory");
    list
}

/// How a log ends that comes in pieces of this size, under a limit, and what is recorded about it.
fn judged(
    rt: &(impl Abort + AllocGlobal),
    text: &[u8],
    piece: usize,
    limit: u64,
) -> (Conformed, LogProgress) {
    assert!(rt; 0 < piece && limit <= 1000, "no piece");
    let mut core = core_of(rt, layout_of(rt, TINY), SEVEN);
    assert!(rt; core.retired() <= limit, "too many retired");
    let mut log = MemSource::new(bytes_of(rt, text), piece, Vec::new(rt.alloc()));
    let mut progress = LogProgress::new();
    let answer = conform(&mut core, limit, &mut log, &mut Nowhere, &mut progress);
    (answer, progress)
}

/// The line that is refused and the name of the reason, or how a log ends otherwise.
fn end_of(answer: Conformed) -> (u32, &'static str) {
    match answer {
        Conformed::BadLog(refusal) => (refusal.line, kind_name(refusal.kind)),
        Conformed::Differs { line, .. } => (line, "Differs"),
        Conformed::LogEnd => (0, "log end"),
        Conformed::Ran(Ran::Exit(_)) => (0, "exit"),
        Conformed::Ran(Ran::Limit) => (0, "limit"),
        Conformed::Ran(_) => (0, "other"),
    }
}

fn kind_name(kind: LogKind) -> &'static str {
    match kind {
        LogKind::TooLong => "TooLong",
        LogKind::NotAscii => "NotAscii",
        LogKind::BadTime => "BadTime",
        LogKind::UnknownLine => "UnknownLine",
        LogKind::BadNumber => "BadNumber",
        LogKind::ExtraWords => "ExtraWords",
        LogKind::Barred(_) => "Barred",
        LogKind::Differs => "Differs",
    }
}

/// A log ends in this way.
fn assert_end(rt: &(impl Abort + AllocGlobal), text: &[u8], line: u32, name: &str) {
    let (answer, _) = judged(rt, text, 4096, 1000);
    let (at, why) = end_of(answer);
    assert!(rt; at == line, "another line");
    assert!(rt; why == name, "another end");
}

/// The log agrees, whatever the pieces in which its bytes come.
#[test]
fn agrees(rt: HostRuntime) {
    for piece in [1, 7, 4096] {
        let (answer, progress) = judged(&rt, LOG, piece, 1000);
        assert!(&rt; matches!(answer, Conformed::LogEnd), "not the end");
        assert!(&rt; progress.tally.moves == 6, "other moves");
        assert!(&rt; progress.observed == 8, "other observations");
        assert!(&rt; progress.time == 999_999_999_999_999_999, "another time");
    }
}

/// The limit is tested before each line and before the end.
#[test]
fn limits(rt: HostRuntime) {
    let (answer, progress) = judged(&rt, MOVES, 4096, 1);
    assert!(&rt; matches!(answer, Conformed::Ran(Ran::Limit)), "no limit");
    assert!(&rt; progress.tally.moves == 5, "other moves");
    let (answer, _) = judged(&rt, b"", 4096, 0);
    assert!(&rt; matches!(answer, Conformed::Ran(Ran::Limit)), "no limit");
}

/// Each reason for which a line is refused.
#[test]
fn refusals(rt: HostRuntime) {
    assert_end(&rt, b"issue next\n@1 \xff\n", 2, "NotAscii");
    assert_end(
        &rt,
        b"# \xff\n@5 issue next\n@4 fetch 00010004\n",
        3,
        "BadTime",
    );
    assert_end(&rt, b"@1234567890123456789 issue next\n", 1, "BadTime");
    assert_end(&rt, b"@ issue next\n", 1, "BadTime");
    assert_end(&rt, b"@7\n", 1, "UnknownLine");
    assert_end(&rt, b"issue maybe\n", 1, "UnknownLine");
    assert_end(&rt, b"move 2 issue next\n", 1, "BadNumber");
    assert_end(&rt, b"move 1 frob\n", 1, "BadNumber");
    assert_end(&rt, b"climb x\n", 1, "BadNumber");
    assert_end(&rt, b"move 1 issue next 5\n", 1, "ExtraWords");
    assert_end(&rt, b"issue next\nemit\n", 2, "Barred");
}

/// Observations that are wrong.
#[test]
fn differences(rt: HostRuntime) {
    assert_end(&rt, b"issue next\nfetch 00010008\n", 2, "Differs");
    assert_end(
        &rt,
        b"issue next\nstage 2 instruction | 00010000 next new - - x10=? -\n",
        2,
        "Differs",
    );
    assert_end(&rt, b"stage 3 empty\n", 1, "Differs");
    assert_end(&rt, b"stage 01 empty\n", 1, "Differs");
    assert_end(&rt, b"siding 1 -\n", 1, "Differs");
    assert_end(&rt, b"cache -\n", 1, "Differs");
    assert_end(
        &rt,
        b"retire 1 00010000 00700513 x10=00000007\n",
        1,
        "Differs",
    );
    assert_end(&rt, b"ended exit 0\n", 1, "Differs");
    assert_end(&rt, b"x10=00000007\n", 1, "Differs");
    assert_end(&rt, b"x10=00000000 x11=00000000\n", 1, "Differs");
}
