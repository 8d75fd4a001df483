//! Scripts, by their grammar.
use cf_bind::{Guess, Move};
use run_scripts::{Script, ScriptErr, ScriptKind, kind_name, place_named, read_move, write_move};
use rv_text::TextLine;
use std::process::Abort;

/// The script gives these moves with their lines and then ends in this way, however often it is asked.
fn assert_tells(
    rt: &(impl Abort + AllocGlobal),
    text: &[u8],
    moves: &[(u32, Move)],
    end: Result<Option<(u32, Move)>, ScriptErr>,
) {
    assert!(rt; text.len() <= 16_777_216, "too long");
    let mut script = Script::view(text);
    for expected in moves {
        assert!(rt; script.next() == Ok(Some(*expected)), "another move");
    }
    assert!(rt; script.next() == end, "another end");
    assert!(rt; script.next() == end, "the end does not stay");
}

static MOVES: [(&'static [u8], Move); 17] = [
    (b"issue next", Move::Issue(Guess::Next)),
    (b"issue taken", Move::Issue(Guess::Taken)),
    (b"issue wait", Move::Issue(Guess::Wait)),
    (b"issue to 000100ac", Move::Issue(Guess::To(0x0001_00ac))),
    (b"emit", Move::Emit),
    (b"climb 1", Move::Climb(1)),
    (b"fall 20", Move::Fall(20)),
    (b"meet 3", Move::Meet(3)),
    (b"execute 999999999", Move::Execute(999_999_999)),
    (b"send 5", Move::Send(5)),
    (b"launch 6", Move::Launch(6)),
    (b"slide 0 12", Move::Slide(0, 12)),
    (b"access", Move::Access),
    (b"recover 7", Move::Recover(7)),
    (b"leave", Move::Leave),
    (b"exit", Move::Exit),
    (b"serve", Move::Serve),
];

/// Each kind of move and each guess once, by the grammar of scripts.
#[test]
fn each_move(rt: HostRuntime) {
    let mut line = TextLine::new();
    for row in MOVES.iter() {
        let (text, mv) = *row;
        assert!(rt; read_move(text) == Ok(mv), "another move is read");
        write_move(mv, &mut line);
        assert!(rt; line.bytes() == text, "another line is written");
    }
}

/// Spellings that are read but never written.
#[test]
fn other_spellings(rt: HostRuntime) {
    let text = b"\tclimb  000000001 \r\n\n \t\n# a note: \x80\nissue\tto 0001ABcd\n\r\nleave";
    let moves = [
        (1, Move::Climb(1)),
        (5, Move::Issue(Guess::To(0x0001_abcd))),
        (7, Move::Leave),
    ];
    assert_tells(&rt, text, &moves, Ok(None));
}

static REFUSED: [(&'static [u8], u32, ScriptKind); 18] = [
    (b"climb", 1, ScriptKind::BadNumber),
    (b"# note\njump 2", 2, ScriptKind::UnknownMove),
    (b"emit 1", 1, ScriptKind::ExtraWords),
    (b"issue", 1, ScriptKind::UnknownMove),
    (b"issue foo", 1, ScriptKind::UnknownMove),
    (b"issue to", 1, ScriptKind::BadNumber),
    (b"issue to 1234567", 1, ScriptKind::BadNumber),
    (b"issue to 012345678", 1, ScriptKind::BadNumber),
    (b"issue to 0001000g", 1, ScriptKind::BadNumber),
    (b"issue next 1", 1, ScriptKind::ExtraWords),
    (b"slide 1000000000 0", 1, ScriptKind::BadNumber),
    (b"slide 1 x 2", 1, ScriptKind::BadNumber),
    (b"climb +1", 1, ScriptKind::BadNumber),
    (b"emit\x80", 1, ScriptKind::NotAscii),
    (b"\n\njump \xff", 3, ScriptKind::NotAscii),
    (b"emit\r", 1, ScriptKind::UnknownMove),
    (b" # note", 1, ScriptKind::UnknownMove),
    (b"Emit", 1, ScriptKind::UnknownMove),
];

/// The first refusal of a script, and its line.
#[test]
fn refusals(rt: HostRuntime) {
    for row in REFUSED.iter() {
        let (text, line, kind) = *row;
        assert_tells(&rt, text, &[], Err(ScriptErr { line, kind }));
    }
}

/// A refusal comes after the moves above it, and nothing after it is read.
#[test]
fn moves_above_a_refusal(rt: HostRuntime) {
    let moves = [(1, Move::Emit), (3, Move::Exit)];
    let end = Err(ScriptErr {
        line: 4,
        kind: ScriptKind::UnknownMove,
    });
    assert_tells(&rt, b"emit\n\nexit\nnonsense\nemit\n", &moves, end);
}

/// `read_move` skips nothing.
#[test]
fn lines_without_a_move(rt: HostRuntime) {
    assert!(rt;
        read_move(b"") == Err(ScriptKind::UnknownMove),
        "an empty line"
    );
    assert!(rt;
        read_move(b"# note") == Err(ScriptKind::UnknownMove),
        "a comment"
    );
}

/// The longest script: only line feeds.
#[test]
fn the_longest_script(rt: HostRuntime) {
    let text = vec![in rt.alloc(); b'\n'; 16_777_216].expect(&rt, "memory");
    assert_tells(&rt, &text, &[], Ok(None));
}

/// Each kind is found by its name.
#[test]
fn names_of_kinds(rt: HostRuntime) {
    for place in 0..14 {
        assert!(rt; place_named(kind_name(place)) == Some(place));
    }
}
