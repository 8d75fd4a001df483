//! The weight of a processor's state, and drains of a state, worked out by hand from the table of moves.

use crate::processors::{SEVEN, TINY, core_of, layout_of, make};
use cf_bind::{Fetch, Guess, Move};
use cf_core::Core;
use std::process::Abort;

/// Eight stages, and a siding for shifts.
const SHIFT_SIDING: &[u8] =
    b"format = 1\nstages = 8\nlane = 16\n[units]\nadd = [2, 4, 6]\nlogic = [2, 4]\n\
        compare = [2, 4]\nbranch = [3]\njump = [3]\n[[siding]]\nclasses = [\"memory\"]\n\
        launch = 4\nrecover = 6\ncells = 2\n[[siding]]\nclasses = [\"shift\"]\nlaunch = 1\n\
        recover = 3\ncells = 2\n";

/// `beq x0, x0, 16` and `slli x1, x2, 1`: what follows the branch is fetched on a wrong guess.
const WRONG_GUESS: &[u32] = &[0x0000_0863, 0x0011_1093];

/// A part of an order of moves.
#[derive(Clone, Copy)]
enum Leg {
    /// One move.
    One(Move),
    /// A result falls, from this stage on, this many times.
    Falls(u32, u32),
    /// An instruction climbs, from this stage on, this many times.
    Climbs(u32, u32),
}

fn fall(rt: &(impl Abort + AllocGlobal), core: &mut Core, from: u32, count: u32) {
    for done in 0..count {
        make(rt, core, Move::Fall(from.wrapping_sub(done)));
    }
}

fn climb(rt: &(impl Abort + AllocGlobal), core: &mut Core, from: u32, count: u32) {
    for done in 0..count {
        make(rt, core, Move::Climb(from.wrapping_add(done)));
    }
}

/// Makes the moves in order.
fn make_all(rt: &(impl Abort + AllocGlobal), core: &mut Core, legs: &[Leg]) {
    for leg in legs {
        match *leg {
            Leg::One(mv) => make(rt, core, mv),
            Leg::Falls(from, count) => fall(rt, core, from, count),
            Leg::Climbs(from, count) => climb(rt, core, from, count),
        }
    }
}

/// An empty processor has weight 0. The first instruction has weight 3 in stage 1 of 2, plus 4 because it is not done,
/// plus 4 because it is not launched, when the longest siding has one cell; it requests no register.
#[test]
fn bounds(rt: HostRuntime) {
    let mut core = core_of(&rt, layout_of(&rt, TINY), SEVEN);
    assert!(rt; core.bound() == 0, "another bound of nothing");
    make(&rt, &mut core, Move::Issue(Guess::Next));
    assert!(rt; core.bound() == 11, "another bound");
}

/// The branch is in stage 3, which has its unit, and has not been executed; the shift after it is in stage 1, from
/// which its siding launches, and has requested x2.
fn guessed(rt: &(impl Abort + AllocGlobal)) -> Core {
    let mut core = core_of(rt, layout_of(rt, SHIFT_SIDING), WRONG_GUESS);
    make(rt, &mut core, Move::Issue(Guess::Next));
    climb(rt, &mut core, 1, 2);
    make(rt, &mut core, Move::Issue(Guess::Next));
    core
}

/// The turn of the branch reaches the shift before its source does: the shift dies in stage 1 and is never launched.
const DIES_FIRST: &[Leg] = &[
    Leg::One(Move::Execute(3)),
    Leg::One(Move::Send(3)),
    Leg::Falls(3, 2),
    Leg::One(Move::Meet(1)),
    Leg::One(Move::Exit),
    Leg::Climbs(3, 5),
    Leg::One(Move::Leave),
    Leg::Climbs(1, 7),
    Leg::One(Move::Leave),
    Leg::One(Move::Emit),
    Leg::Falls(8, 7),
    Leg::One(Move::Exit),
];

/// The shift is launched, dies in stage 2, and takes its operation out of the siding after it has died.
const DIES_LAUNCHED: &[Leg] = &[
    Leg::One(Move::Emit),
    Leg::Falls(8, 5),
    Leg::One(Move::Meet(3)),
    Leg::Falls(3, 2),
    Leg::One(Move::Meet(1)),
    Leg::One(Move::Exit),
    Leg::One(Move::Launch(1)),
    Leg::One(Move::Climb(1)),
    Leg::One(Move::Execute(3)),
    Leg::One(Move::Send(3)),
    Leg::One(Move::Climb(3)),
    Leg::One(Move::Fall(3)),
    Leg::One(Move::Meet(2)),
    Leg::One(Move::Slide(1, 0)),
    Leg::One(Move::Climb(2)),
    Leg::One(Move::Recover(3)),
];

/// The shift comes back from the siding while the turn is beside it, and owes its value, which it must not send, as it
/// dies there.
const DIES_OWING: &[Leg] = &[
    Leg::One(Move::Emit),
    Leg::Falls(8, 5),
    Leg::One(Move::Meet(3)),
    Leg::Falls(3, 2),
    Leg::One(Move::Meet(1)),
    Leg::One(Move::Launch(1)),
    Leg::One(Move::Slide(1, 0)),
    Leg::One(Move::Climb(1)),
    Leg::One(Move::Execute(3)),
    Leg::One(Move::Send(3)),
    Leg::One(Move::Climb(3)),
    Leg::One(Move::Climb(2)),
    Leg::One(Move::Recover(3)),
    Leg::One(Move::Meet(3)),
    Leg::One(Move::Fall(3)),
    Leg::One(Move::Exit),
];

/// The results of these two fall out at the bottom, and both instructions leave at the top.
const LEAVE: &[Leg] = &[
    Leg::One(Move::Fall(2)),
    Leg::One(Move::Exit),
    Leg::Climbs(4, 4),
    Leg::One(Move::Leave),
    Leg::Climbs(3, 5),
    Leg::One(Move::Leave),
];

/// The state after these moves and others, when it is empty: the branch has retired, and fetch goes on at its target.
fn drained(rt: &(impl Abort + AllocGlobal), moves: &[Leg], after: &[Leg]) -> Core {
    let mut core = guessed(rt);
    make_all(rt, &mut core, moves);
    make_all(rt, &mut core, after);
    assert!(rt; core.drained(), "not drained");
    assert!(rt; core.fetch() == Fetch::Running(0x1_0010), "elsewhere");
    assert!(rt; core.retired() == 1, "another count of retired");
    core
}

/// These moves drain that state to the other one.
fn assert_drains_to(rt: &(impl Abort + AllocGlobal), moves: &[Leg], other: &Core) {
    let core = drained(rt, moves, LEAVE);
    assert!(rt; core.same(other), "another state");
}

/// That state differs from the other one.
fn assert_begins_elsewhere(rt: &(impl Abort + AllocGlobal), other: &Core) {
    let core = guessed(rt);
    assert!(rt; !core.same(other), "the same state");
}

/// All orders of moves that drain a state lead to the same state, except for the cache at the bottom; and that is a
/// different state.
#[test]
fn drains_end_in_one_state(rt: HostRuntime) {
    let first = drained(&rt, DIES_FIRST, &[]);
    assert_drains_to(&rt, DIES_LAUNCHED, &first);
    assert_drains_to(&rt, DIES_OWING, &first);
    assert_begins_elsewhere(&rt, &first);
}
