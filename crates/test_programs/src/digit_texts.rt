//! Digits that were worked out by hand.
use texts::hex8;

#[test]
fn eight_digits(rt: HostRuntime) {
    let cases = [
        (0, b"00000000"),
        (0x0070_0513, b"00700513"),
        (0x89ab_cdef, b"89abcdef"),
        (u32::MAX, b"ffffffff"),
    ];
    for (word, digits) in &cases {
        assert!(rt; hex8(*word) == **digits);
    }
}
