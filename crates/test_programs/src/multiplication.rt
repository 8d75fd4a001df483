//! Values from another source: the manual's table of edge cases of division, and the largest and smallest factors.
use rv_inst::MulOp;
use rv_mul::product;
use std::process::Abort;

/// The factors, and the result.
type Row = (MulOp, u32, u32, u32);

/// The largest word and the smallest signed one, worked out by hand from the manual's definitions.
const UPPER_WORDS: [Row; 4] = [
    (MulOp::Mul, 0xffff_ffff, 0xffff_ffff, 0x0000_0001),
    (MulOp::Mulh, 0x8000_0000, 0x8000_0000, 0x4000_0000),
    (MulOp::Mulhsu, 0xffff_ffff, 0xffff_ffff, 0xffff_ffff),
    (MulOp::Mulhu, 0xffff_ffff, 0xffff_ffff, 0xffff_fffe),
];

/// The manual's table "Semantics for division by zero and division overflow", and -7 by 2, which rounds toward zero.
const DIVISIONS: [Row; 8] = [
    (MulOp::Divu, 7, 0, 0xffff_ffff),
    (MulOp::Remu, 7, 0, 7),
    (MulOp::Div, 7, 0, 0xffff_ffff),
    (MulOp::Rem, 7, 0, 7),
    (MulOp::Div, 0x8000_0000, 0xffff_ffff, 0x8000_0000),
    (MulOp::Rem, 0x8000_0000, 0xffff_ffff, 0),
    (MulOp::Div, 0xffff_fff9, 2, 0xffff_fffd),
    (MulOp::Rem, 0xffff_fff9, 2, 0xffff_ffff),
];

fn assert_products(rt: &impl Abort, rows: &[Row]) {
    for (op, a, b, expected) in rows {
        assert!(*rt; product(*op, *a, *b) == *expected, "{a:08x} by {b:08x}");
    }
}

#[test]
fn upper_words_of_products(rt: HostRuntime) {
    assert_products(&rt, &UPPER_WORDS);
}

#[test]
fn divisions_at_the_edges(rt: HostRuntime) {
    assert_products(&rt, &DIVISIONS);
}
