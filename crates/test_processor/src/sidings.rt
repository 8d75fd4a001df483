//! What no clause says: that there is enough memory for the sidings of a layout, and that an operation passes through
//! one.

use cf_layout::plain;
use cf_sidings::{Op, Sidings};
use rv_inst::{Instr, LoadKind};
use std::process::Abort;

/// LB x1, 1(x0).
fn load() -> Op {
    let instr = Instr::Load {
        kind: LoadKind::Byte,
        rd: 1,
        rs1: 0,
        imm: 1,
    };
    Op {
        pc: 0x1_0000,
        instr,
        a: 0,
        b: 0,
        answer: None,
    }
}

#[test]
#[tactic(auto, unfolding(cf_sidings::specs::Sidings::empty_sidings, cf_sidings::specs::Sidings::moved_on))]
fn an_operation_passes_through(rt: HostRuntime) {
    let mut sidings = Sidings::new(rt.alloc(), &plain()).expect(&rt, "memory for sidings");
    sidings.launch(0, load());
    sidings.slide(0, 0);
    assert!(rt; sidings.cell(0, 0).is_none());
    assert!(rt; sidings.recover(0) == load());
    assert!(rt; sidings.cell(0, 1).is_none());
}
