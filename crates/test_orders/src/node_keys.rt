//! What no clause says about keys: that there is enough memory for them, that they are short, and that the bytes are
//! the intended ones. The bytes are worked out by hand.

use arrayvec::ArrayVec;
use cf_bind::{Binding, Cell, Fetch, Guess, Packet, Passenger};
use mem_changes::{Change, Changes};
use order_keys::{Node, read_key, write_key};
use order_model::{SidingOps, Situation};
use rv_inst::{ImmOp, Instr};
use std::alloc::{AllocError, Global};

/// An empty stage.
const EMPTY: Cell = Cell {
    passenger: None,
    packet: None,
    met: false,
};

/// The node with x1 requested and 7 in x1, 300 instructions retired, a byte of memory changed, and two issued.
fn idle(alloc: Global) -> Result<Node, AllocError> {
    let mut lane = ArrayVec::new();
    let _ = lane.try_push(1);
    let mut regs = [0; 32];
    regs[1] = 7;
    let change = Change {
        addr: 0x1_0004,
        byte: 0xff,
    };
    Ok(Node {
        situation: Situation {
            cells: vec![in alloc; EMPTY, EMPTY]?,
            sidings: Vec::new(alloc),
            lane,
            fetch: Fetch::Running(0x1_0000),
            cache: [None; 32],
            regs,
            retired: 300,
            ending: None,
        },
        changes: Changes {
            bytes: vec![in alloc; change]?,
            code: Vec::new(alloc),
            program_break: 0x2_0000,
        },
        issues: 2,
    })
}

/// Two empty stages, no siding, x1 in the lane, fetch at 0x10000, an empty cache, 7 in x1, 300 retired, no ending, a
/// changed byte of memory, none of the code, the break, and two issued.
const IDLE_KEY: [u8; 36] = [
    2, 0, 0, 0, 1, 1, 0, 254, 0, 0, 1, 0, 32, 32, 32, 1, 7, 30, 253, 44, 1, 0, 1, 254, 4, 0, 1, 0,
    255, 0, 254, 0, 0, 2, 0, 2,
];

/// The binding of x1 to a value.
fn x1(value: Option<u32>) -> Option<Binding> {
    Some(Binding { reg: 1, value })
}

/// The addition of 1 to x1 at an address, which owes the sum.
fn addition(pc: u32, sum: u32) -> Cell {
    let instruction = Instr::OpImm {
        op: ImmOp::Add,
        rd: 1,
        rs1: 1,
        imm: 1,
    };
    let passenger = Passenger {
        pc,
        what: Some(instruction),
        guess: Guess::Next,
        src1: x1(Some(sum)),
        src2: None,
        dst: x1(Some(sum)),
        done: true,
        launched: false,
        recovered: false,
        next: Some(pc),
        ending: None,
        owes: Some(Packet::Value { reg: 1, value: sum }),
        dead: false,
    };
    Cell {
        passenger: Some(passenger),
        packet: None,
        met: false,
    }
}

/// Three additions in flight in the eight stages of `plain`, whose siding has two cells.
fn busy(alloc: Global) -> Result<Node, AllocError> {
    let mut node = idle(alloc)?;
    let one = addition(0x1_0000, 8);
    let two = addition(0x1_0004, 9);
    let three = addition(0x1_0008, 10);
    let cells = [three, EMPTY, two, EMPTY, one, EMPTY, EMPTY, EMPTY];
    node.situation.cells = Vec::from_array(alloc, cells)?;
    let siding = SidingOps::of(vec![in alloc; None, None]?);
    node.situation.sidings = vec![in alloc; siding]?;
    Ok(node)
}

#[test]
fn a_key_is_what_the_formats_say(rt: HostRuntime) {
    let node = idle(rt.alloc()).expect(&rt, "memory for a node");
    let key = write_key(rt.alloc(), &node).expect(&rt, "memory for a key");
    assert!(rt; key[..] == IDLE_KEY[..]);
}

#[test]
fn a_busy_node_has_a_short_key(rt: HostRuntime) {
    let node = busy(rt.alloc()).expect(&rt, "memory for a node");
    let key = write_key(rt.alloc(), &node).expect(&rt, "memory for a key");
    assert!(rt; key.len() <= 160, "short");
    let read = read_key(rt.alloc(), &key).expect(&rt, "memory for a node");
    let node = read.expect(&rt, "a node");
    let again = write_key(rt.alloc(), &node).expect(&rt, "memory for a key");
    assert!(rt; again == key);
}
