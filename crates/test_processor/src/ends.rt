//! What no clause says: that there is enough memory for the lane, and that requests are answered in their order, even
//! if the lane wraps around. The values are worked out by hand.

use cf_bind::Packet;
use cf_ends::Ends;
use std::process::Abort;

/// The value of a register that holds its own number.
fn own_number(reg: u8) -> Packet {
    Packet::Value {
        reg,
        value: u32::from(reg),
    }
}

#[test]
fn requests_are_answered_in_their_order(rt: HostRuntime) {
    let mut regs = [0; 32];
    regs[1] = 1;
    regs[2] = 2;
    regs[3] = 3;
    let mut ends = Ends::new(rt.alloc(), regs, 0x1_0000, 2).expect(&rt, "memory for the lane");
    ends.request(1);
    ends.request(2);
    let first = ends.answer();
    ends.request(3);
    let answers = [first, ends.answer(), ends.answer()];
    assert!(rt; answers == [own_number(1), own_number(2), own_number(3)]);
    assert!(rt; ends.lane_len() == 0);
}
