//! What no clause says: the texts of refusals, letter by letter.

use report_refusals::bad_source;
use rv_asm::{AsmErr, AsmKind};
use rv_text::TextErr;

/// A line number, what is wrong there, and the text.
const TEXTS: [(u32, AsmKind, &[u8]); 5] = [
    (
        1,
        AsmKind::TooFar(-4096),
        b"bad source line 1: TooFar -4096\n",
    ),
    (
        1,
        AsmKind::Text(TextErr::OutOfRange(2048)),
        b"bad source line 1: Text OutOfRange 2048\n",
    ),
    (
        12,
        AsmKind::Text(TextErr::WrongCount { got: 1, wanted: 3 }),
        b"bad source line 12: Text WrongCount 1 3\n",
    ),
    (
        0,
        AsmKind::TooLarge(1048577),
        b"bad source line 0: TooLarge 1048577\n",
    ),
    (7, AsmKind::LabelTwice, b"bad source line 7: LabelTwice\n"),
];

#[test]
fn names_and_numbers_are_written(rt: HostRuntime) {
    for (line, kind, text) in &TEXTS {
        let page = bad_source(AsmErr {
            line: *line,
            kind: *kind,
        });
        assert!(rt; page.bytes() == *text);
    }
}
