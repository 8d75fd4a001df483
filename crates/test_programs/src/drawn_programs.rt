//! What no clause says: the first lines of programs, letter by letter, and an output that fails in mid-stream. The
//! first draws were worked out by hand: of 1 they are 1015568748 / 65536 = 15496 and 1586005467 / 65536 = 24200, and of
//! 3 the first is 1018897798 / 65536 = 15547. The other lines come from a script in another language, written only from
//! the description of the text.

ghost use Rattle.std.specs.Prelude.{◌≤◌};
ghost use Rattle.run_options.specs.Limits.{most_statements};

use crate::in_memory::sink_of;
use cf_gen::generate;
use cf_io::Failed;
use std::process::Abort;

/// Whether the program of this many statements begins with this text.
fn begins(rt: &(impl Abort + AllocGlobal), number: u32, text: &[u8]) -> bool
    requires some { 1 ≤ number }
    requires limit { number ≤ most_statements }
{
    let mut out = sink_of(rt, 1000, &[100]);
    generate(number, &mut out) == Ok(()) && out.bytes().starts_with(text)
}

#[test]
fn one_statement(rt: HostRuntime) {
    let text = b"    .text
    .globl _start
_start:
    la x7, buf
    li x8, 15496
    li x9, 24200
    li x10, 33046
    li x11, 46195
    li x12, 3312
    li x13, 24216
    li x14, 50774
    li x15, 36450
L1:
    add x13, x13, x8
L2:
    xor x8, x8, x9
";
    assert!(rt; begins(&rt, 1, text));
}

#[test]
fn three_statements(rt: HostRuntime) {
    let text = b"    .text
    .globl _start
_start:
    la x7, buf
    li x8, 15547
    li x9, 36089
    li x10, 57256
    li x11, 51047
    li x12, 25131
    li x13, 56684
    li x14, 41735
    li x15, 25460
L1:
    or x15, x12, x8
L2:
    or x13, x12, x13
L3:
    sll x13, x14, x13
L4:
    xor x8, x8, x9
";
    assert!(rt; begins(&rt, 3, text));
}

#[test]
fn output_fails_after_the_first_statement(rt: HostRuntime) {
    let mut out = sink_of(&rt, 1000, &[3]);
    assert!(rt; generate(3, &mut out) == Err(Failed));
    assert!(rt; out.bytes().ends_with(b"L1:\n    or x15, x12, x8\n"));
}
