//! Runs that were worked out by hand, under the built-in layout: what no clause says is that there is enough memory for
//! a processor, and that these moves lead from its start to where a reader of the table of moves expects them to.
use crate::programs::{BASE, machine_of};
use cf_bind::{Bar, Guess, Move};
use cf_core::{Core, Step};
use cf_io::{Empty, Nowhere};
use cf_layout::plain;
use std::process::Abort;

/// A processor that is about to fetch the first of these words.
fn core_of(rt: &(impl Abort + AllocGlobal), words: &[u32]) -> Core {
    Core::new(rt.alloc(), plain(), machine_of(rt, words, BASE)).expect(rt, "memory for a processor")
}

/// Makes the moves in order, up to the first that cannot be made, and returns its outcome.
fn make(core: &mut Core, moves: &[Move]) -> Option<Step> {
    for m in moves {
        if core.retired() > 1000 {
            return None;
        }
        match core.step(*m, &mut Empty, &mut Nowhere) {
            Step::Moved(_) => {}
            other => return Some(other),
        }
    }
    None
}

/// How many instructions have retired, the value of x10, and whether the processor is empty.
fn seen_of(core: &Core) -> (u64, u32, bool) {
    (core.retired(), core.reg(10), core.drained())
}

/// `addi x10, x0, 7` goes up the pipe; a unit of stage 2 executes it, and its result leaves at the bottom.
#[test]
fn an_instruction_retires(rt: HostRuntime) {
    let mut core = core_of(&rt, &[0x0070_0513]);
    let moves = [
        Move::Issue(Guess::Next),
        Move::Climb(1),
        Move::Execute(2),
        Move::Send(2),
        Move::Fall(2),
        Move::Exit,
        Move::Climb(2),
        Move::Climb(3),
        Move::Climb(4),
        Move::Climb(5),
        Move::Climb(6),
        Move::Climb(7),
        Move::Leave,
    ];
    assert!(rt; make(&mut core, &moves).is_none());
    assert!(rt; seen_of(&core) == (1, 7, true));
}

/// `addi x5, x10, 1` has not met the value of x10, which is beside it.
#[test]
fn a_source_is_missing(rt: HostRuntime) {
    let mut core = core_of(&rt, &[0x0015_0293]);
    let moves = [
        Move::Issue(Guess::Next),
        Move::Climb(1),
        Move::Execute(2),
        Move::Leave,
    ];
    assert!(rt; make(&mut core, &moves) == Some(Step::Barred(Bar::SourceMissing(10))));
    assert!(rt; !core.drained());
}

/// The bit words of instructions, of results, of met pairs, of owed results, and of Execute.
fn words_of(core: &Core) -> [u32; 5] {
    let masks = core.masks();
    [
        masks.passengers,
        masks.packets,
        masks.met,
        masks.owes,
        masks.execute,
    ]
}

/// The bit words while `addi x10, x0, 7` is on its way: a unit for it is in stage 2, and it has no source.
#[test]
fn the_words_keep_up_with_the_moves(rt: HostRuntime) {
    let mut core = core_of(&rt, &[0x0070_0513]);
    for (m, words) in [
        (Move::Issue(Guess::Next), [0b1, 0, 0, 0, 0]),
        (Move::Climb(1), [0b10, 0, 0, 0, 0b10]),
        (Move::Execute(2), [0b10, 0, 0, 0b10, 0]),
        (Move::Send(2), [0b10, 0b10, 0b10, 0, 0]),
    ] {
        assert!(rt; make(&mut core, &[m]).is_none());
        assert_eq!(rt; words_of(&core), words);
    }
}
