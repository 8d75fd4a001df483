//! The report of a refused layout.
#![tactic(auto, unfolding(crate::specs::Layouts::layout_refusal, crate::specs::Layouts::layout_file_refusal, crate::specs::Layouts::bad_layout))]

ghost use Rattle.std.specs.Prelude.{◌≡◌, ◌+◌, ◌≤◌, ◌++◌, length};
ghost use Rattle.report_refusals.specs.Layouts.{layout_refusal, layout_file_refusal, bad_layout as report_of};
ghost use Rattle.texts.specs.Room.{page_room};

use crate::kept::KeptValue::{Class, Integer, Number};
use crate::kept::{push_text, push_variant};
use cf_layout::LayoutErr;
use layout_file::FileErr;
use texts::Page;

fn push_layout(page: &mut Page, error: LayoutErr)
    requires { length page.old + 100 ≤ page_room }
    ensures text { page.new ≡ page.old ++ layout_refusal error }
    ensures size { length page.new ≤ length page.old + 100 }
{
    match error {
        LayoutErr::StagesOutOfRange(stages) => push_variant(
            page,
            b"StagesOutOfRange",
            &[Integer(stages)],
        ),
        LayoutErr::LaneOutOfRange(lane) => push_variant(page, b"LaneOutOfRange", &[Integer(lane)]),
        LayoutErr::StageOutOfRange(class, stage) => push_variant(
            page,
            b"StageOutOfRange",
            &[Class(class), Integer(stage)],
        ),
        LayoutErr::ClassTwice(class) => push_variant(page, b"ClassTwice", &[Class(class)]),
        LayoutErr::MissingUnit(class) => push_variant(page, b"MissingUnit", &[Class(class)]),
        LayoutErr::EmptyUnit(class) => push_variant(page, b"EmptyUnit", &[Class(class)]),
        LayoutErr::MemoryNotSiding => push_variant(page, b"MemoryNotSiding", &[]),
        LayoutErr::MemorySharesSiding => push_variant(page, b"MemorySharesSiding", &[]),
        LayoutErr::SidingOrder(launch, recover) => push_variant(
            page,
            b"SidingOrder",
            &[Integer(launch), Integer(recover)],
        ),
        LayoutErr::CellsOutOfRange(cells) => push_variant(
            page,
            b"CellsOutOfRange",
            &[Integer(cells)],
        ),
        LayoutErr::ControlAboveMemory(class, stage, launch) => push_variant(
            page,
            b"ControlAboveMemory",
            &[Class(class), Number(stage.into()), Number(launch.into())],
        ),
        LayoutErr::TooManySidings(sidings) => push_variant(
            page,
            b"TooManySidings",
            &[Number(sidings.into())],
        ),
        LayoutErr::EmptySiding(index) => push_variant(
            page,
            b"EmptySiding",
            &[Number(index.into())],
        ),
    }
}

fn push_fault(page: &mut Page, error: &FileErr)
    requires { length page.old + 110 ≤ page_room }
    ensures text { page.new ≡ page.old ++ layout_file_refusal error.now }
    ensures size { length page.new ≤ length page.old + 110 }
{
    match error {
        FileErr::TooLong => push_variant(page, b"TooLong", &[]),
        FileErr::NotToml => push_variant(page, b"NotToml", &[]),
        FileErr::UnknownKey(key) => push_text(page, b"UnknownKey", key.as_str()),
        FileErr::MissingKey(key) => push_text(page, b"MissingKey", key.as_str()),
        FileErr::WrongType(key) => push_text(page, b"WrongType", key.as_str()),
        FileErr::UnknownClass(word) => push_text(page, b"UnknownClass", word.as_str()),
        FileErr::UnknownFormat(format) => push_variant(page, b"UnknownFormat", &[Integer(*format)]),
        FileErr::Refused(error) => {
            page.push(b"Refused ");
            push_layout(page, *error);
        }
        FileErr::NoMemory => push_variant(page, b"NoMemory", &[]),
    }
}

/// The report of a file that is not a layout: one line with the name of the fault and what it keeps, such as `bad
/// layout: Refused MissingUnit shift`. Texts are truncated after 40 bytes.
pub fn bad_layout(error: &FileErr) -> Page
    ensures { result ≡ report_of error.now }
{
    let mut page = Page::new();
    page.push(b"bad layout: ");
    push_fault(&mut page, error);
    page.push(b"\n");
    page
}
