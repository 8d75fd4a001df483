//! Searches of ladders: the expected values were counted by hand.

ghost use Rattle.std.specs.Prelude.{◌≤◌};

use crate::ladder::Ladder;
use order_search::{Orders, SearchAnswer, search};
use std::alloc::Global;
use std::process::Abort;

/// The answer of a search of a ladder from its first node, of at most this many nodes.
fn climb(rt: &impl Abort, alloc: Global, ladder: &mut Ladder, most: u32) -> SearchAnswer<u8, u8>
    requires { 1 ≤ most }
{
    let first = vec![in alloc; 0u8].expect(rt, "memory");
    search(alloc, ladder, first, most).expect(rt, "memory")
}

#[test]
fn counts_a_ladder(rt: HostRuntime) {
    let mut ladder = Ladder {
        last: 5,
        broken: None,
    };
    let SearchAnswer::Counted(reached) = climb(&rt, rt.alloc(), &mut ladder, 6) else {
        panic!(rt; "a ladder of six nodes is counted");
    };
    assert!(rt; reached.states() == 6, "nodes");
    assert!(rt; reached.edges() == 10, "edges");
    assert!(rt; reached.ends() == 1, "ends");
    assert!(rt;
        reached.orders() == Orders::Exactly(32),
        "two ways at each of five nodes"
    );
}

#[test]
fn counts_more_routes_than_a_number_holds(rt: HostRuntime) {
    let mut ladder = Ladder {
        last: 64,
        broken: None,
    };
    let SearchAnswer::Counted(reached) = climb(&rt, rt.alloc(), &mut ladder, 100) else {
        panic!(rt; "a ladder of 65 nodes is counted");
    };
    assert!(rt; reached.orders() == Orders::More, "2^64 routes");
}

#[test]
fn finds_the_first_fault(rt: HostRuntime) {
    let mut ladder = Ladder {
        last: 5,
        broken: Some(3),
    };
    let SearchAnswer::Found { labels, fault } = climb(&rt, rt.alloc(), &mut ladder, 4) else {
        panic!(rt; "the third node is broken");
    };
    assert!(rt;
        labels.as_slice() == [0, 0, 0].as_slice() && fault == 3,
        "the earlier edge at each node"
    );
}

#[test]
fn says_that_there_are_more(rt: HostRuntime) {
    let mut ladder = Ladder {
        last: 5,
        broken: Some(3),
    };
    let answer = climb(&rt, rt.alloc(), &mut ladder, 3);
    assert!(rt;
        matches!(&answer, SearchAnswer::Found { .. }),
        "the fault is tested before the nodes are counted"
    );
    let mut whole = Ladder {
        last: 5,
        broken: None,
    };
    let answer = climb(&rt, rt.alloc(), &mut whole, 5);
    assert!(rt;
        matches!(&answer, SearchAnswer::TooMany),
        "six nodes are more than five"
    );
}
