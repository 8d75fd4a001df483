//! Candidates that were worked out by hand from the table of moves, under the built-in layout: what no clause says is
//! that these moves are allowed where a reader of the table expects them to be.
use crate::processors::{BRANCH_BEHIND, core_of, enter_stage_2};
use cf_bind::{Guess, Move};
use cf_index::Candidates;
use cf_layout::plain;
use std::process::Abort;

/// These are the candidates, in this order.
fn assert_moves(rt: &impl Abort, candidates: &Candidates, moves: &[Move]) {
    assert!(rt; candidates.len() == moves.len(), "another count");
    for (place, mv) in moves.iter().enumerate() {
        assert!(rt; candidates.pick(place) == *mv, "another move");
    }
}

/// With the first instruction in stage 2, where it can be executed or can climb, the branch can be issued with three
/// guesses.
const AFTER: [Move; 5] = [
    Move::Issue(Guess::Next),
    Move::Issue(Guess::Taken),
    Move::Issue(Guess::Wait),
    Move::Climb(2),
    Move::Execute(2),
];

/// Of these candidates, the one after Climb(2) is the last, and the one after Serve, which comes after them all, is the
/// first. Holding back removes the Issues.
fn assert_after(rt: &impl Abort, candidates: &mut Candidates) {
    assert_moves(rt, candidates, &AFTER);
    assert!(rt;
        candidates.first_after(Some(Move::Climb(2))) == 4,
        "after Climb(2)"
    );
    assert!(rt;
        candidates.first_after(Some(Move::Serve)) == 0,
        "after Serve"
    );
    candidates.hold();
    assert_moves(rt, candidates, &[Move::Climb(2), Move::Execute(2)]);
}

/// At first only the first Issue can be made.
#[test]
fn an_instruction_and_the_branch_after_it(rt: HostRuntime) {
    let mut core = core_of(&rt, plain(), BRANCH_BEHIND);
    let mut candidates = Candidates::new(rt.alloc()).expect(&rt, "memory");
    candidates.fill(&core);
    assert_moves(&rt, &candidates, &[Move::Issue(Guess::Next)]);
    enter_stage_2(&rt, &mut core);
    candidates.fill(&core);
    assert_after(&rt, &mut candidates);
}
