//! Picks that were worked out by hand, and words of the generator. The words are those of PCG XSH RR 64/32 (O'Neill,
//! "PCG: a family of simple fast space-efficient statistically good algorithms for random number generation", 2014),
//! computed with integers in Python by a program that gives the words of the paper's C demo, 0xa15c02b7 and so on, for
//! state 42 and stream 54.
use crate::processors::{BRANCH_BEHIND, core_of, enter_stage_2};
use cf_bind::{Guess, Move};
use cf_core::Core;
use cf_index::Candidates;
use cf_layout::plain;
use cf_sched::{Drawn, Pace, Policy, Round};
use cf_semantics::Event;
use run_options::GuessRule;
use std::process::Abort;

/// The first words of the generator with a seed.
fn words(seed: u32) -> [u32; 4] {
    let mut drawn = Drawn::new(seed);
    [drawn.draw(), drawn.draw(), drawn.draw(), drawn.draw()]
}

#[test]
fn words_of_three_seeds(rt: HostRuntime) {
    assert_eq!(rt;
        [words(0), words(1), words(u32::MAX)],
        [
            [0x0f5d_eba9, 0x1842_96dd, 0x3576_43f4, 0xf8e8_4c31],
            [0xc982_8f91, 0x1592_e274, 0xc026_2657, 0xa5c2_b6d3],
            [0x4e56_3271, 0x1235_970d, 0x0624_2b0c, 0x2f2d_a124],
        ]
    );
}

/// A processor with the first instruction in stage 2: Issue with three guesses, Climb(2) and Execute(2) are allowed.
fn core(rt: &(impl Abort + AllocGlobal)) -> Core {
    let mut core = core_of(rt, plain(), BRANCH_BEHIND);
    enter_stage_2(rt, &mut core);
    core
}

/// Six consecutive picks from the same candidates.
fn picks<P: Policy>(rt: &impl Abort, policy: &mut P, candidates: &Candidates) -> [usize; 6] {
    let mut places = [0; 6];
    for place in places.iter_mut() {
        assert!(rt; !candidates.is_empty());
        *place = policy.pick(candidates);
    }
    places
}

/// Round starts again after the last; Drawn takes its words modulo 5.
#[test]
fn picks_from_five(rt: HostRuntime) {
    let mut candidates = Candidates::new(rt.alloc()).expect(&rt, "memory");
    candidates.fill(&core(&rt));
    let round = picks(&rt, &mut Round::new(), &candidates);
    let drawn = picks(&rt, &mut Drawn::new(0), &candidates);
    assert!(rt; round == [0, 1, 2, 3, 4, 0], "other picks of Round");
    assert!(rt; drawn == [2, 1, 2, 0, 2, 2], "other picks of Drawn");
}

/// Whether this pace offers this many candidates.
fn offers(pace: &Pace, core: &Core, candidates: &mut Candidates, count: usize) -> bool {
    pace.offer(core, candidates);
    candidates.len() == count
}

/// With two stages Issue is held back from the fourth Issue on.
fn assert_held_back(rt: &impl Abort, core: &Core, candidates: &mut Candidates) {
    let mut pace = Pace::new(GuessRule::Any, 2);
    for _ in 0..4 {
        assert!(rt; !pace.held() && offers(&pace, core, candidates, 5));
        pace.saw(Move::Issue(Guess::Next), &Event::Plain, false);
    }
    assert!(rt; pace.held() && offers(&pace, core, candidates, 2));
    pace.saw(Move::Climb(2), &Event::Plain, true);
    assert!(rt; !pace.held());
}

#[test]
fn issue_is_held_back(rt: HostRuntime) {
    let mut candidates = Candidates::new(rt.alloc()).expect(&rt, "memory");
    assert_held_back(&rt, &core(&rt), &mut candidates);
}
