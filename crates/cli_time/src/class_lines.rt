//! The lines of the classes of instructions.
#![tactic(auto, unfolding(crate::specs::SiteLines::latency_line, crate::specs::SiteLines::class_of_place))]

ghost use Rattle.std.specs.Prelude.{◌≡◌, ◌+◌, ◌≤◌, ◌++◌, decimal, length};
ghost use Rattle.std.specs.List.{flat_map};
ghost use Rattle.cli_reports.specs.Reporting.{PutsInto};
ghost use Rattle.texts.specs.Room.{page_room};
ghost use Rattle.cf_semantics.specs.moves.Candidates.{counted_from};
ghost use Rattle.cf_timed.specs.Numbers.{number_at};
ghost use Rattle.cli_time.specs.SiteLines.{class_of_place, class_line, classes_text, latency_line, latency_text};

use cf_io::{Failed, Sink, put_all};
use itoa::Buffer;
use layout_file::class_name;
use run_ledger::Breakdown;
use rv_inst::Class;
use texts::Page;

/// All classes, in class order.
const CLASSES: [Class; 11] = [
    Class::Add,
    Class::Logic,
    Class::Shift,
    Class::Compare,
    Class::Branch,
    Class::Jump,
    Class::Memory,
    Class::Mul,
    Class::Div,
    Class::Serial,
    Class::Free,
];

/// The class at an index in class order.
fn class_at(place: usize) -> Class
    ensures { result ≡ class_of_place place }
{
    CLASSES.get(place).copied().unwrap_or(Class::Free)
}

/// A number of 128 bits.
fn push_wide(page: &mut Page, number: u128)
    requires { length page.old + 39 ≤ page_room }
    ensures text { page.new ≡ page.old ++ decimal number }
    ensures size { length page.new ≤ length page.old + 39 }
{
    let mut buffer = Buffer::new();
    page.push(buffer.format(number).as_bytes());
}

/// A class by its name, how many instructions of it retired, and how many ticks these took.
fn latency_page(name: &[u8], retired: u64, ticks: u128) -> Page
    requires { length name.now ≤ 10 }
    ensures { result ≡ latency_line name.now retired ticks }
{
    let mut page = Page::new();
    page.push(name);
    page.push(b" retired ");
    page.push_decimal(retired);
    page.push(b" ticks ");
    push_wide(&mut page, ticks);
    page.push(b"\n");
    page
}

/// Writes that line, if an instruction of the class retired.
#[tactic(auto, unfolding(crate::specs::SiteLines::latency_text))]
fn put_latency<R: Sink>(
    name: &[u8],
    retired: u64,
    ticks: u128,
    report: &mut R,
) -> Result<(), Failed>
    requires { length name.now ≤ 10 }
    ensures { PutsInto R.Sink report.old report.new (latency_text name.now retired ticks) result }
{
    if retired > 0 {
        let page = latency_page(name, retired, ticks);
        put_all(report, page.bytes())
    } else {
        Ok(())
    }
}

/// How many instructions of the class at an index retired.
fn retired_at(numbers: &[u64], place: usize) -> u64
    ensures { result ≡ number_at numbers.now place }
{
    numbers.get(place).copied().unwrap_or(0)
}

/// How many ticks these took.
fn latency_at(numbers: &[u128], place: usize) -> u128
    ensures { result ≡ number_at numbers.now place }
{
    numbers.get(place).copied().unwrap_or(0)
}

/// Writes the line of the class at an index in class order, if an instruction of it retired.
#[tactic(auto, using(crate::proofs::ClassNames::class_short))]
fn put_class<R: Sink>(made: &Breakdown, place: usize, report: &mut R) -> Result<(), Failed>
    ensures { PutsInto R.Sink report.old report.new (class_line made.now place) result }
{
    let retired = retired_at(&made.retired, place);
    let ticks = latency_at(&made.latencies, place);
    put_latency(
        class_name(class_at(place)).as_bytes(),
        retired,
        ticks,
        report,
    )
}

/// Writes the lines of all classes.
pub(crate) fn put_classes<R: Sink>(made: &Breakdown, report: &mut R) -> Result<(), Failed>
    ensures { PutsInto R.Sink report.old report.new (classes_text made.now) result }
{
    for place in 0..CLASSES.len() {
        put_class(made, place, report)?;
    }
    Ok(())
}
