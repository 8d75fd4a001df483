//! The texts of moves, and the meetings of two instructions `addi x1, x1, 1` that were worked out by hand.
use cf_bind::{Binding, Guess, Move, MoveLine, Packet, Passenger, meet, move_text};
use rv_inst::decode;

static TEXTS: [(Move, &'static [u8]); 17] = [
    (Move::Issue(Guess::Next), b"issue next"),
    (Move::Issue(Guess::Taken), b"issue taken"),
    (Move::Issue(Guess::Wait), b"issue wait"),
    (Move::Issue(Guess::To(0x0001_00ac)), b"issue to 000100ac"),
    (Move::Emit, b"emit"),
    (Move::Climb(1), b"climb 1"),
    (Move::Fall(20), b"fall 20"),
    (Move::Meet(3), b"meet 3"),
    (Move::Execute(999_999_999), b"execute 999999999"),
    (Move::Send(5), b"send 5"),
    (Move::Launch(6), b"launch 6"),
    (Move::Slide(0, 12), b"slide 0 12"),
    (Move::Access, b"access"),
    (Move::Recover(7), b"recover 7"),
    (Move::Leave, b"leave"),
    (Move::Exit, b"exit"),
    (Move::Serve, b"serve"),
];

/// One row for each kind of move and each guess, by the grammar of scripts.
#[test]
fn texts_of_moves(rt: HostRuntime) {
    let mut line = MoveLine::new();
    for row in TEXTS.iter() {
        let (mv, expected) = *row;
        move_text(mv, &mut line);
        assert!(rt; line.bytes() == expected, "a text differs");
    }
}

fn x1(value: Option<u32>) -> Option<Binding> {
    Some(Binding { reg: 1, value })
}

/// `addi x1, x1, 1`, just issued.
fn increment(pc: u32) -> Passenger {
    Passenger {
        pc,
        what: decode(0x0010_8093),
        guess: Guess::Next,
        src1: x1(None),
        src2: None,
        dst: x1(None),
        done: false,
        launched: false,
        recovered: false,
        next: None,
        ending: None,
        owes: None,
        dead: false,
    }
}

/// The first garners and kills. Executed, it updates what comes later. The second garners that and kills it.
#[test]
fn two_increments_in_a_row(rt: HostRuntime) {
    let start = Packet::Value { reg: 1, value: 0 };
    let mut first = increment(0x0001_0000);
    let mut second = increment(0x0001_0004);

    assert!(rt; meet(&mut first, start).is_none(), "killed");
    assert!(rt; first.src1 == x1(Some(0)), "garnered");

    first.dst = x1(Some(1));
    first.done = true;
    let updated = Packet::Value { reg: 1, value: 1 };
    assert!(rt; meet(&mut first, start) == Some(updated), "updated");

    assert!(rt; meet(&mut second, updated).is_none(), "killed again");
    assert!(rt; second.src1 == x1(Some(1)), "garnered again");
}
