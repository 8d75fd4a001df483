//! The report of an assembly source that is refused.
#![tactic(auto, unfolding(crate::specs::Sources::instruction_refusal, crate::specs::Sources::source_refusal, crate::specs::Sources::bad_source))]

ghost use Rattle.std.specs.Prelude.{◌≡◌, ◌+◌, ◌≤◌, ◌++◌, length};
ghost use Rattle.report_refusals.specs.Sources.{instruction_refusal, source_refusal, bad_source as report_of};
ghost use Rattle.texts.specs.Room.{page_room};

use crate::kept::KeptValue::{Integer, Number};
use crate::kept::push_variant;
use rv_asm::{AsmErr, AsmKind};
use rv_text::TextErr;
use texts::Page;

fn push_instruction(page: &mut Page, error: TextErr)
    requires { length page.old + 60 ≤ page_room }
    ensures text { page.new ≡ page.old ++ instruction_refusal error }
    ensures size { length page.new ≤ length page.old + 60 }
{
    match error {
        TextErr::UnknownName => push_variant(page, b"UnknownName", &[]),
        TextErr::BadRegister => push_variant(page, b"BadRegister", &[]),
        TextErr::BadNumber => push_variant(page, b"BadNumber", &[]),
        TextErr::OutOfRange(number) => push_variant(page, b"OutOfRange", &[Integer(number)]),
        TextErr::WrongCount { got, wanted } => push_variant(
            page,
            b"WrongCount",
            &[Number(got.into()), Number(wanted.into())],
        ),
    }
}

fn push_source(page: &mut Page, kind: AsmKind)
    requires { length page.old + 70 ≤ page_room }
    ensures text { page.new ≡ page.old ++ source_refusal kind }
    ensures size { length page.new ≤ length page.old + 70 }
{
    match kind {
        AsmKind::Text(error) => {
            page.push(b"Text ");
            push_instruction(page, error);
        }
        AsmKind::UnknownDirective => push_variant(page, b"UnknownDirective", &[]),
        AsmKind::LabelTwice => push_variant(page, b"LabelTwice", &[]),
        AsmKind::NoLabel => push_variant(page, b"NoLabel", &[]),
        AsmKind::TooFar(distance) => push_variant(page, b"TooFar", &[Integer(distance)]),
        AsmKind::TooLarge(len) => push_variant(page, b"TooLarge", &[Number(len)]),
        AsmKind::NotAscii => push_variant(page, b"NotAscii", &[]),
        AsmKind::BadString => push_variant(page, b"BadString", &[]),
        AsmKind::Misplaced => push_variant(page, b"Misplaced", &[]),
        AsmKind::NoMemory => push_variant(page, b"NoMemory", &[]),
    }
}

/// The report of a source that is refused: one line with the line's number, the name of the refusal and what it keeps,
/// such as `bad source line 1: Text OutOfRange 2048`.
pub fn bad_source(error: AsmErr) -> Page
    ensures { result ≡ report_of error }
{
    let mut page = Page::new();
    page.push(b"bad source line ");
    page.push_decimal(u64::from(error.line));
    page.push(b": ");
    push_source(&mut page, error.kind);
    page.push(b"\n");
    page
}
