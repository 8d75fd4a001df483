//! What no clause says: that the definitions have the intended meaning. Three instructions, worked through by hand.

use cf_bind::{Binding, End, Guess, Packet, Passenger};
use cf_ends::Ends;
use cf_passengers::{answered, blank, finish, goto, issue, kind, requests};
use rv_inst::{Class, decode};
use std::process::Abort;

/// The `Passenger` that is issued for a word.
fn issued(ends: &Ends, word: u32, pc: u32, guess: Guess) -> Passenger {
    let mut passenger = blank(pc, guess);
    match decode(word) {
        Some(i) => issue(&mut passenger, ends, Ok(i)),
        None => {
            let end = End::Trap {
                cause: 2,
                pc,
                detail: word,
            };
            issue(&mut passenger, ends, Err(end))
        }
    }
    passenger
}

/// The instruction after its execution, if it adds or jumps.
fn executed(mut p: Passenger) -> Passenger {
    match kind(&p) {
        Class::Add | Class::Jump => finish(&mut p, None),
        _ => {}
    }
    p
}

/// A register with its value.
fn known(reg: u8, value: u32) -> Option<Binding> {
    Some(Binding {
        reg,
        value: Some(value),
    })
}

/// Registers with the value 0, and an empty cache.
fn zeros(rt: &(impl Abort + AllocGlobal)) -> Ends {
    Ends::new(rt.alloc(), [0; 32], 0x1_0000, 2).expect(rt, "memory for the lane")
}

/// `addi x1, x0, 5` has its value immediately.
#[test]
fn a_constant_is_added(rt: HostRuntime) {
    let five = executed(issued(&zeros(&rt), 0x0050_0093, 0x1_0000, Guess::Next));
    assert!(rt; five.src1.is_none() && five.dst == known(1, 5));
    assert!(rt; five.owes == Some(Packet::Value { reg: 1, value: 5 }));
}

/// `addi x2, x1, 1` needs x1, and finds it in the cache at the bottom.
#[test]
fn a_value_is_kept(rt: HostRuntime) {
    let mut ends = zeros(&rt);
    let waiting = issued(&ends, 0x0010_8113, 0x1_0004, Guess::Next);
    assert!(rt; requests(&waiting).first == Some(1));
    ends.keep(1, 5);
    let six = issued(&ends, 0x0010_8113, 0x1_0004, Guess::Next);
    assert!(rt; requests(&six).count() == 0 && six.src1 == known(1, 5));
    assert!(rt; executed(six).dst == known(2, 6));
}

/// `jal x0, 4`, after which fetch waits.
#[test]
fn a_jump_is_waited_for(rt: HostRuntime) {
    let jump = issued(&zeros(&rt), 0x0040_006f, 0x1_0004, Guess::Wait);
    assert!(rt; goto(&jump).is_none());
    let jump = executed(jump);
    assert!(rt; jump.owes == Some(Packet::Turn(0x1_0008)));
    assert!(rt; goto(&jump) == Some(0x1_0008));
}

/// ECALL, after which nothing is fetched until it is answered.
#[test]
fn a_call_is_answered(rt: HostRuntime) {
    let call = issued(&zeros(&rt), 0x0000_0073, 0x1_0000, Guess::Next);
    assert!(rt; call.src1.is_none() && goto(&call).is_none());
    let call = answered(call, 9);
    assert!(rt; call.dst == known(10, 9));
    assert!(rt; call.owes == Some(Packet::Turn(0x1_0004)));
}
