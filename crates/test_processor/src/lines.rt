//! Lines that were worked out by hand.
use texts::retirement_line;

#[test]
fn lines(rt: HostRuntime) {
    let written = retirement_line(1, 0x1_0000, 0x0070_0513, 10, 7);
    let line = b"retire 1 00010000 00700513 x10=00000007\n".as_slice();
    assert!(rt; written.bytes() == line);
    let unwritten = retirement_line(2, 0x1_0004, 0x0000_000f, 0, 0);
    assert!(rt; unwritten.bytes() == b"retire 2 00010004 0000000f -\n".as_slice());
}
