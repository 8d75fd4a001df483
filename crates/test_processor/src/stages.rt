//! What no clause says: that there is enough memory for stages, and that the definitions have the intended meaning. The
//! values are worked out by hand: two additions of 1 to x1 are in consecutive stages, and x1 is 0.

ghost use Rattle.std.specs.Prelude.{◌≡◌, Some};
ghost use Rattle.cf_semantics.specs.state.State.{cell_at};

use cf_bind::{Binding, Cell, Guess, Packet, Passenger};
use cf_stages::Stages;
use rv_inst::{ImmOp, Instr};
use std::process::Abort;

/// The binding of x1 to a value.
fn x1(value: Option<u32>) -> Option<Binding> {
    Some(Binding { reg: 1, value })
}

/// The addition at an address.
fn addition(pc: u32, source: Option<u32>, sum: Option<u32>) -> Passenger {
    let instruction = Instr::OpImm {
        op: ImmOp::Add,
        rd: 1,
        rs1: 1,
        imm: 1,
    };
    Passenger {
        pc,
        what: Some(instruction),
        guess: Guess::Next,
        src1: x1(source),
        src2: None,
        dst: x1(sum),
        done: sum.is_some(),
        launched: false,
        recovered: false,
        next: None,
        ending: None,
        owes: None,
        dead: false,
    }
}

fn value(value: u32) -> Option<Packet> {
    Some(Packet::Value { reg: 1, value })
}

/// The contents of a stage that exists.
fn cell(rt: &impl Abort, stages: &Stages, i: u32) -> Cell
    ensures { Some result ≡ cell_at stages.now i }
{
    assert!(rt; 0 < i && i <= stages.count());
    stages.cell(i)
}

fn climb(rt: &impl Abort, stages: &mut Stages, i: u32) {
    assert!(rt; 0 < i && i <= stages.count() && stages.may_climb(i));
    stages.climb(i);
}

fn fall(rt: &impl Abort, stages: &mut Stages, i: u32) {
    assert!(rt; 0 < i && i <= stages.count() && stages.may_fall(i));
    stages.fall(i);
}

fn meet(rt: &impl Abort, stages: &mut Stages, i: u32) {
    assert!(rt; 0 < i && i <= stages.count() && stages.is_full(i));
    stages.meet_at(i);
}

/// Puts a new addition into the lowest stage.
fn issue(rt: &impl Abort, stages: &mut Stages, pc: u32) {
    assert!(rt; cell(rt, stages, 1).passenger.is_none());
    stages.put_passenger(addition(pc, None, None));
}

/// Puts the value 0 of x1 into the highest stage.
fn emit(rt: &impl Abort, stages: &mut Stages) {
    let top = stages.count();
    assert!(rt; stages.packet(top).is_none());
    stages.put_packet(top, Packet::Value { reg: 1, value: 0 }, false);
}

/// The addition of 1 to 0 in a stage is executed.
fn execute(rt: &impl Abort, stages: &mut Stages, i: u32) {
    if let Some(passenger) = cell(rt, stages, i).passenger {
        *stages.passenger_mut(i) = addition(passenger.pc, Some(0), Some(1));
    }
}

#[test]
fn values_are_garnered_killed_and_updated(rt: HostRuntime) {
    let mut stages = Stages::new(rt.alloc(), 2).expect(&rt, "memory for stages");
    issue(&rt, &mut stages, 0x1_0000);
    climb(&rt, &mut stages, 1);
    issue(&rt, &mut stages, 0x1_0004);
    emit(&rt, &mut stages);
    meet(&rt, &mut stages, 2);
    let garnered = cell(&rt, &stages, 2);
    assert!(rt; garnered.passenger == Some(addition(0x1_0000, Some(0), None)));
    assert!(rt; garnered.packet.is_none() && !garnered.met, "killed");
    emit(&rt, &mut stages);
    execute(&rt, &mut stages, 2);
    meet(&rt, &mut stages, 2);
    let updated = cell(&rt, &stages, 2);
    assert!(rt; updated.packet == value(1) && updated.met, "updated");
    fall(&rt, &mut stages, 2);
    meet(&rt, &mut stages, 1);
    let garnered = cell(&rt, &stages, 1);
    assert!(rt; garnered.passenger == Some(addition(0x1_0004, Some(1), None)));
    assert!(rt; garnered.packet.is_none(), "killed");
}
