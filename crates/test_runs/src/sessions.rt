//! Sessions: the commands and answers of the table, and what an empty ring, the limits, and failing calls do.
ghost use Rattle.cf_core.specs.Processors.{IsOpened};

use crate::processors::{SEVEN, TINY, core_of, layout_of};
use cf_core::Core;
use cf_debug::{Debugged, Ring, debug};
use cf_index::Candidates;
use cf_io::{MemSink, MemSource};
use std::process::Abort;

/// A program and the commands of its session. These puts of the program's output fail; the commands come in pieces of
/// this size, and these takes of them fail.
#[derive(Clone, Copy)]
struct Session<'a> {
    words: &'a [u32],
    output_fails: &'a [u64],
    commands: &'a [u8],
    piece: usize,
    take_fails: &'a [u64],
}

fn bytes_of(rt: &(impl Abort + AllocGlobal), bytes: &[u8]) -> Vec<u8> {
    let mut list = Vec::new(rt.alloc());
    list.extend_from_slice(bytes).expect(rt, "memory");
    list
}

fn numbers_of(rt: &(impl Abort + AllocGlobal), numbers: &[u64]) -> Vec<u64> {
    let mut list = Vec::new(rt.alloc());
    list.extend_from_slice(numbers).expect(rt, "memory");
    list
}

/// A sink with room for this many bytes; these puts fail.
fn sink_of(rt: &(impl Abort + AllocGlobal), room: usize, fails: &[u64]) -> MemSink {
    MemSink::new(rt.alloc(), room, numbers_of(rt, fails)).expect(rt, "memory")
}

/// The commands of a session.
fn source_of(rt: &(impl Abort + AllocGlobal), session: &Session<'_>) -> MemSource {
    assert!(rt; 0 < session.piece, "no piece");
    MemSource::new(
        bytes_of(rt, session.commands),
        session.piece,
        numbers_of(rt, session.take_fails),
    )
}

/// How the session of these commands ends on a processor.
fn answer(
    rt: &(impl Abort + AllocGlobal),
    core: &mut Core,
    commands: &mut MemSource,
    output: &mut MemSink,
    report: &mut MemSink,
) -> Debugged
    requires opened { IsOpened core.old }
{
    assert!(rt; core.retired() <= 10_000_000, "too many retired");
    let mut candidates = Candidates::new(rt.alloc()).expect(rt, "memory");
    let mut ring = Ring::new(rt.alloc()).expect(rt, "memory");
    debug(core, &mut candidates, &mut ring, commands, output, report)
}

/// How a session ends if its answers go to the report.
fn run(rt: &(impl Abort + AllocGlobal), session: &Session<'_>, report: &mut MemSink) -> Debugged {
    let mut core = core_of(rt, layout_of(rt, TINY), session.words);
    let mut commands = source_of(rt, session);
    let mut output = sink_of(rt, 1000, session.output_fails);
    answer(rt, &mut core, &mut commands, &mut output, report)
}

/// A session ends in this way with these answers, when the report has room for this many bytes.
fn assert_session(
    rt: &(impl Abort + AllocGlobal),
    session: &Session<'_>,
    room: usize,
    end: Debugged,
    answers: &[u8],
) {
    let mut report = sink_of(rt, room, &[]);
    let ended = run(rt, session, &mut report);
    assert!(rt; report.bytes() == answers, "other answers");
    assert!(rt; ended == end, "another end");
}

/// The session of these commands on `SEVEN`, given in pieces of this size, is carried out with these answers.
fn assert_answers(rt: &(impl Abort + AllocGlobal), commands: &[u8], piece: usize, answers: &[u8]) {
    let session = Session {
        words: SEVEN,
        output_fails: &[],
        commands,
        piece,
        take_fails: &[],
    };
    assert_session(rt, &session, 200_000, Debugged::Done, answers);
}

/// The commands of the first example, and their answers: `addi` has weight 3 in stage 1 of 2, plus 4 because it is not
/// done, plus 4 because it is not launched, when the longest siding has one cell.
const COMMANDS: &[u8] = b"move issue next\nbound\nmove leave\nback\nbound\nback\n\
    mem 7f0ffff0 4\nmem 00000000 4\nfrob\nend\n";

const ANSWERS: &[u8] = b"moved\nbound 11\n? NoPassenger\nback issue next\nbound 0\n? NothingKept\n\
    7f0ffff0 00 00 00 00\n? NoAccess\n? UnknownCommand\n";

/// The answers are the same whatever the pieces of the commands, and whether or not the last line has a line feed.
#[test]
fn pieces(rt: HostRuntime) {
    assert_answers(&rt, COMMANDS, 1, ANSWERS);
    assert_answers(&rt, COMMANDS, 8, ANSWERS);
    assert_answers(&rt, COMMANDS, 4096, ANSWERS);
}

/// The session of those commands on `SEVEN`, given in pieces of 8 bytes, ends with these answers when this take fails.
fn assert_take_fails(rt: &(impl Abort + AllocGlobal), take: u64, answers: &[u8]) {
    let session = Session {
        words: SEVEN,
        output_fails: &[],
        commands: COMMANDS,
        piece: 8,
        take_fails: &[take],
    };
    assert_session(rt, &session, 200_000, Debugged::ReadFault, answers);
}

/// A take that fails leaves the answers to the complete lines that were taken before it: pieces of 8 bytes end in the
/// first line, then in the first and then in the second.
#[test]
fn failing_takes(rt: HostRuntime) {
    assert_take_fails(&rt, 1, b"");
    assert_take_fails(&rt, 2, b"");
    assert_take_fails(&rt, 3, b"moved\n");
}

/// Each refusal, and each command in another spelling: blanks, tabs, carriage returns and digits of either case. What
/// comes after `end` is not answered.
#[test]
fn refusals(rt: HostRuntime) {
    let commands =
        b"\n \t\r\n\r\n# note\nmove\nmove jump\nmove climb\nmove emit 1\nmove \x80\n\x80\nmove execute 1\n\
        auto\nauto 0\nauto 1000001\nauto 0000000001\nauto x 1\nauto 1 1\n\
        mem 7F0FFFF0 1 \nmem 7f0ffff0\nmem 7f0ffff0 0\nmem 7f0ffff0 17\nmem 7f0ffff 1\nmem 00010000 16\nmem 00010000 12\n\
        \tbreak  0001000C\r\nbreak none\nbreak\nbreak none 1\nbound\r\nback 1 1\nend 1\nend\nfrob\n";
    let answers =
        b"? UnknownCommand\n? UnknownMove\n? UnknownMove\n? BadNumber\n? ExtraWords\n? NotAscii\n\
        ? UnknownCommand\n? NoPassenger\n? BadNumber\n? BadNumber\n? BadNumber\n? BadNumber\n? BadNumber\n? ExtraWords\n\
        7f0ffff0 00\n? BadNumber\n? BadNumber\n? BadNumber\n? BadNumber\n? NoAccess\n\
        00010000 13 05 70 00 93 08 d0 05 73 00 00 00\nbreak 0001000c\nbreak none\n? BadNumber\n? ExtraWords\nbound 0\n\
        ? ExtraWords\n? ExtraWords\n";
    assert_answers(&rt, commands, 5, answers);
}

/// The line feed of the last line may be missing; then the line keeps its carriage return.
#[test]
fn last_lines(rt: HostRuntime) {
    assert_answers(&rt, b"bound\nbound", 4096, b"bound 0\nbound 0\n");
    assert_answers(&rt, b"bound\nbound\r", 4096, b"bound 0\n? UnknownCommand\n");
    assert_answers(&rt, b"bound\nend", 4096, b"bound 0\n");
}

fn push_blanks(rt: &impl Abort, line: &mut Vec<u8>, count: u32) {
    for _ in 0..count {
        line.push(b' ').expect(rt, "memory");
    }
}

/// A line of 256 bytes is read, even with a carriage return after it, and one of 257 is too long, even if it is the
/// last.
#[test]
fn long_lines(rt: HostRuntime) {
    let mut line = bytes_of(&rt, b"bound");
    push_blanks(&rt, &mut line, 251);
    line.extend_from_slice(b"\r\n").expect(&rt, "memory");
    assert_answers(&rt, line.as_slice(), 100, b"bound 0\n");
    push_blanks(&rt, &mut line, 257);
    assert_answers(&rt, line.as_slice(), 100, b"bound 0\n? TooLong\n");
    line.extend_from_slice(b"\r\nend").expect(&rt, "memory");
    assert_answers(&rt, line.as_slice(), 300, b"bound 0\n? TooLong\n");
}

/// The program runs to its end in 19 moves, worked out by hand from the table of moves and the order of Round: Serve is
/// the 17th, so two moves can be taken back after it, and no more. No move is made after the end.
#[test]
fn to_the_end(rt: HostRuntime) {
    let commands = b"auto 1000000\nauto 5\nmove emit\nmove serve\nback\nback\nback\nmove emit\n";
    let answers =
        b"retire 1 00010000 00700513 x10=00000007\nretire 2 00010004 05d00893 x17=0000005d\nauto 19\nauto 0\n\
        ? Halted\n? Halted\nback leave\nback fall 2\n? NothingKept\n? LaneEmpty\n";
    assert_answers(&rt, commands, 4096, answers);
}

/// `auto` stops after the Issue at the break address, even if that is its first move. The first instruction is issued,
/// climbs, is executed, sends its result and leaves before the second is issued.
#[test]
fn break_address(rt: HostRuntime) {
    let commands = b"break 00010000\nauto 100\nback\nbreak 00010004\nauto 100\nbreak none\nshow\n";
    let answers = b"break 00010000\nauto 1\nback issue next\nbreak 00010004\n\
        retire 1 00010000 00700513 x10=00000007\nauto 6\nbreak none\nfetch 00010008\nlane -\n\
        stage 2 result | x10=00000007\nstage 1 instruction | 00010004 next new - - x17=? -\n";
    assert_answers(&rt, commands, 4096, answers);
}

/// The registers at the start.
#[test]
fn registers(rt: HostRuntime) {
    let answers = b"x00=00000000 x01=00000000 x02=7f0ffff0 x03=00000000\n\
        x04=00000000 x05=00000000 x06=00000000 x07=00000000\nx08=00000000 x09=00000000 x10=00000000 x11=00000000\n\
        x12=00000000 x13=00000000 x14=00000000 x15=00000000\nx16=00000000 x17=00000000 x18=00000000 x19=00000000\n\
        x20=00000000 x21=00000000 x22=00000000 x23=00000000\nx24=00000000 x25=00000000 x26=00000000 x27=00000000\n\
        x28=00000000 x29=00000000 x30=00000000 x31=00000000\n";
    assert_answers(&rt, b"regs", 4096, answers);
}

/// One byte is written from address 00010000, and the output fails there: the four instructions before the call have
/// retired.
#[test]
fn failing_output(rt: HostRuntime) {
    let session = Session {
        words: &[
            0x0010_0513,
            0x0001_05b7,
            0x0010_0613,
            0x0400_0893,
            0x0000_0073,
        ],
        output_fails: &[1],
        commands: b"auto 1000\nbound\n",
        piece: 4096,
        take_fails: &[],
    };
    let answers =
        b"retire 1 00010000 00100513 x10=00000001\nretire 2 00010004 000105b7 x11=00010000\n\
        retire 3 00010008 00100613 x12=00000001\nretire 4 0001000c 04000893 x17=00000040\n";
    assert_session(&rt, &session, 1000, Debugged::WriteFault, answers);
}

/// A report of three bytes takes a prefix of the first answer, and the session ends.
#[test]
fn failing_report(rt: HostRuntime) {
    let session = Session {
        words: SEVEN,
        output_fails: &[],
        commands: COMMANDS,
        piece: 4096,
        take_fails: &[],
    };
    assert_session(&rt, &session, 3, Debugged::ReportFault, b"mov");
}

/// `auto` makes 2,000 moves of a jump to itself, and then moves are taken back this many times.
fn taken_back(rt: &(impl Abort + AllocGlobal), times: u32) -> Vec<u8> {
    let mut commands = bytes_of(rt, b"auto 2000\n");
    for _ in 0..times {
        commands.extend_from_slice(b"back\n").expect(rt, "memory");
    }
    commands
}

/// The last answer says that nothing is stored, and is the only refusal.
fn assert_refused_last(rt: &impl Abort, answers: &[u8]) {
    assert!(rt; answers.ends_with(b"\n? NothingKept\n"), "too much kept");
    let refused = answers.iter().filter(|byte| **byte == b'?').count();
    assert!(rt; refused == 1, "another count of refusals");
}

/// Of 2,000 moves, the last 1,024 can be taken back, and no more.
#[test]
fn full_ring(rt: HostRuntime) {
    let commands = taken_back(&rt, 1025);
    let session = Session {
        words: &[0x0000_006f],
        output_fails: &[],
        commands: commands.as_slice(),
        piece: 4096,
        take_fails: &[],
    };
    let mut report = sink_of(&rt, 200_000, &[]);
    assert!(rt;
        run(&rt, &session, &mut report) == Debugged::Done,
        "another end"
    );
    assert_refused_last(&rt, report.bytes());
}
