//! Delays and their refusals, by the format.
use cf_bind::Move;
use cf_timed::{DelayErr, DelayKind, Delays, read_delays};
use rv_inst::Class;
use std::process::Abort;

/// The text gives delays.
fn delays(rt: &impl Abort, text: &[u8]) -> Delays {
    assert!(rt; text.len() <= 65_536);
    read_delays(text).expect(rt, "delays")
}

/// The minimum and maximum ticks of a move whose instruction has a class.
fn ticks(delays: &Delays, mv: Move, class: Class) -> (u32, u32) {
    let span = delays.of(mv, class);
    (span.least, span.greatest)
}

/// Spellings of the format: leading zeros, a carriage return, comments and blank lines.
#[test]
fn delays_that_are_told(rt: HostRuntime) {
    let told = delays(
        &rt,
        b"climb 10\r\n\n \t\n# any \x80 byte\nserve\t0007 \nexit 1000",
    );
    let rows = [
        (Move::Climb(3), 10),
        (Move::Serve, 7),
        (Move::Exit, 1000),
        (Move::Emit, 1),
    ];
    for (mv, number) in rows {
        let other = ticks(&told, mv, Class::Add) != (number, number);
        assert!(rt; !other, "other delays");
    }
}

/// A range, and a class of a kind. A class that no line gives has the delay of its kind, whichever line comes first.
#[test]
fn ranges_and_classes(rt: HostRuntime) {
    let told = delays(
        &rt,
        b"execute add 2\nexecute 5-09\nlaunch div 30-1000\nrecover memory 3-3\nclimb 1-4",
    );
    let rows = [
        (Move::Execute(2), Class::Add, (2, 2)),
        (Move::Execute(2), Class::Logic, (5, 9)),
        (Move::Execute(9), Class::Div, (5, 9)),
        (Move::Launch(4), Class::Div, (30, 1000)),
        (Move::Launch(4), Class::Memory, (1, 1)),
        (Move::Recover(7), Class::Memory, (3, 3)),
        (Move::Recover(7), Class::Mul, (1, 1)),
        (Move::Climb(1), Class::Add, (1, 4)),
    ];
    for (mv, class, span) in rows {
        assert!(rt; ticks(&told, mv, class) == span, "other ticks");
    }
}

/// The first refusal, and its line.
#[test]
fn refusals(rt: HostRuntime) {
    let rows = [
        (b"leave 0".as_slice(), 1, DelayKind::BadDelay),
        (b"emit 2\nemit 2", 2, DelayKind::KindTwice),
        (b"\njump 2", 2, DelayKind::UnknownKind),
        (b"emit", 1, DelayKind::BadDelay),
        (b"emit 1001", 1, DelayKind::BadDelay),
        (b"emit 00001", 1, DelayKind::BadDelay),
        (b"emit 1 2", 1, DelayKind::ExtraWords),
        (b"emit x 2", 1, DelayKind::BadDelay),
        (b"emit \x80", 1, DelayKind::NotAscii),
        (b"emit\r", 1, DelayKind::UnknownKind),
        (b" # note", 1, DelayKind::UnknownKind),
        (b"execute add", 1, DelayKind::BadDelay),
        (b"execute add add", 1, DelayKind::BadDelay),
        (b"execute serial 2", 1, DelayKind::BadDelay),
        (b"execute Add 2", 1, DelayKind::BadDelay),
        (b"climb add 2", 1, DelayKind::BadDelay),
        (
            b"execute add 2\nexecute 3\nexecute add 2",
            3,
            DelayKind::KindTwice,
        ),
        (
            b"execute add 2\nexecute 3\nexecute 2",
            3,
            DelayKind::KindTwice,
        ),
        (b"execute add 2\nexecute add x", 2, DelayKind::KindTwice),
        (b"launch div 2 3", 1, DelayKind::ExtraWords),
        (b"recover mul 2-3 #", 1, DelayKind::ExtraWords),
        (b"climb 5-4", 1, DelayKind::BadDelay),
        (b"climb 0-4", 1, DelayKind::BadDelay),
        (b"climb 4-1001", 1, DelayKind::BadDelay),
        (b"climb 4-", 1, DelayKind::BadDelay),
        (b"climb -4", 1, DelayKind::BadDelay),
        (b"climb -", 1, DelayKind::BadDelay),
        (b"climb 1-2-3", 1, DelayKind::BadDelay),
        (b"climb 00001-2", 1, DelayKind::BadDelay),
        (b"climb 1 - 2", 1, DelayKind::ExtraWords),
    ];
    for (text, line, kind) in rows {
        assert!(rt; text.len() <= 65_536);
        assert!(rt;
            matches!(read_delays(text), Err(refusal) if refusal == DelayErr { line, kind }),
            "another refusal"
        );
    }
}
