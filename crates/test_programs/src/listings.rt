//! What no clause says: the lines of a listing, letter by letter.

use crate::in_memory::sink_of;
use asm_listing::put_flat_listing;
use std::process::Abort;

/// Whether the listing of a flat image is this text.
fn lists(rt: &(impl Abort + AllocGlobal), image: &[u8], text: &[u8]) -> bool {
    let mut out = sink_of(rt, 1000, &[]);
    put_flat_listing(image, &mut out) == Ok(()) && out.bytes() == text
}

#[test]
fn words_have_lines(rt: HostRuntime) {
    let image = b"\x13\x05\x70\0\x93\x08\xd0\x05\x73\0\0\0";
    let text =
        b"00010000 00700513 addi x10, x0, 7\n00010004 05d00893 addi x17, x0, 93\n00010008 00000073 ecall\n";
    assert!(rt; lists(&rt, image, text));
}

#[test]
fn a_word_that_is_no_instruction_is_written_as_it_is(rt: HostRuntime) {
    assert!(rt;
        lists(
            &rt,
            b"\xff\xff\xff\xff\x01",
            b"00010000 ffffffff .word 0xffffffff\n"
        )
    );
}

#[test]
fn later_instructions_are_named(rt: HostRuntime) {
    let text = b"00010000 0000100f fence.i\n00010004 02c58533 mul x10, x11, x12\n";
    assert!(rt; lists(&rt, b"\x0f\x10\0\0\x33\x85\xc5\x02", text));
}
