//! The answers of the debugger.

ghost use Rattle.std.specs.Prelude.{◌≡◌, ◌+◌, ◌*◌, ◌<◌, ◌≤◌, ◌++◌, length, codes, map};
ghost use Rattle.texts.specs.Lines.{counted_line};
ghost use Rattle.texts.specs.Room.{page_room};
ghost use Rattle.mem_regions.specs.Ranges.{range_of};
ghost use Rattle.report_refusals.specs.Bars.{bar_text};
ghost use Rattle.cf_report.specs.Putting.{PutsText};
ghost use Rattle.cf_run.specs.Made.{retirement};
ghost use Rattle.cf_debug.specs.Replies.{back_text, break_text, bytes_text, memory_text, refusal_text, refused_line};

use crate::command::Refusal;
use cf_bind::{Bar, Move, MoveLine, move_text};
use cf_core::{Core, Event};
use cf_io::{Failed, Sink, put_all};
use cf_report::put_retired;
use report_refusals::{push_bar, push_script};
use texts::{Page, hex_digit};

/// Writes a text. After `Failed` a prefix of it was written.
fn put<R: Sink>(text: &[u8], report: &mut R) -> Result<(), Failed>
    ensures { PutsText (R.written report.old) (R.written report.new) (R.faults report.old) (R.faults report.new) text.now result }
{
    put_all(report, text)
}

/// Writes a line with a name and a number.
#[tactic(auto, unfolding(texts::specs::Lines::counted_line))]
pub(crate) fn put_counted<R: Sink>(name: &[u8], number: u64, report: &mut R) -> Result<(), Failed>
    requires { length name.now ≤ 100 }
    ensures { PutsText (R.written report.old) (R.written report.new) (R.faults report.old) (R.faults report.new)
        (counted_line name.now number) result }
{
    let mut page = Page::new();
    page.push_counted(name, number);
    put(page.bytes(), report)
}

/// Writes the line of a refusal.
pub(crate) fn refuse<R: Sink>(why: &[u8], report: &mut R) -> Result<(), Failed>
    requires { length why.now ≤ 100 }
    ensures { PutsText (R.written report.old) (R.written report.new) (R.faults report.old) (R.faults report.new)
        (refused_line why.now) result }
{
    let mut page = Page::new();
    page.push(b"? ");
    page.push_line(why);
    put(page.bytes(), report)
}

/// Writes the bar of a move.
pub(crate) fn refuse_bar<R: Sink>(bar: Bar, report: &mut R) -> Result<(), Failed>
    ensures { PutsText (R.written report.old) (R.written report.new) (R.faults report.old) (R.faults report.new)
        (refused_line (bar_text bar)) result }
{
    let mut page = Page::new();
    page.push(b"? ");
    push_bar(&mut page, bar);
    page.push(b"\n");
    put(page.bytes(), report)
}

/// Appends why a line is not a command.
#[tactic(auto, unfolding(crate::specs::Replies::refusal_text))]
fn push_refusal(page: &mut Page, refusal: Refusal)
    requires { length page.old + 20 ≤ page_room }
    ensures text { page.new ≡ page.old ++ refusal_text refusal }
    ensures size { length page.new ≤ length page.old + 20 }
{
    match refusal {
        Refusal::TooLong => page.push(b"TooLong"),
        Refusal::UnknownCommand => page.push(b"UnknownCommand"),
        Refusal::BadNumber => page.push(b"BadNumber"),
        Refusal::ExtraWords => page.push(b"ExtraWords"),
        Refusal::Script(kind) => push_script(page, kind),
    }
}

/// Writes why a line is not a command.
pub(crate) fn refuse_line<R: Sink>(refusal: Refusal, report: &mut R) -> Result<(), Failed>
    ensures { PutsText (R.written report.old) (R.written report.new) (R.faults report.old) (R.faults report.new)
        (refused_line (refusal_text refusal)) result }
{
    let mut page = Page::new();
    page.push(b"? ");
    push_refusal(&mut page, refusal);
    page.push(b"\n");
    put(page.bytes(), report)
}

/// Writes the line of an instruction that retired with a move, if one did.
pub(crate) fn put_retirement<R: Sink>(
    core: &Core,
    event: &Event,
    report: &mut R,
) -> Result<(), Failed>
    ensures { PutsText (R.written report.old) (R.written report.new) (R.faults report.old) (R.faults report.new)
        (retirement core.now.state.retired event.now) result }
{
    match event {
        Event::Retired(line) => put_retired(core.retired(), line, report),
        Event::Plain | Event::Killed | Event::Died | Event::Ended(_) => Ok(()),
    }
}

/// Writes `moved` for a move that was made, and the line of an instruction that retired with it, if one did.
pub(crate) fn put_moved<R: Sink>(core: &Core, event: &Event, report: &mut R) -> Result<(), Failed>
    ensures { PutsText (R.written report.old) (R.written report.new) (R.faults report.old) (R.faults report.new)
        (codes "moved\n" ++ retirement core.now.state.retired event.now) result }
{
    put(b"moved\n", report)?;
    put_retirement(core, event, report)
}

/// Appends bytes, each as two hexadecimal digits after a space.
#[tactic(auto, unfolding(crate::specs::Replies::bytes_text))]
fn push_bytes(page: &mut Page, bytes: &[u8])
    requires { length page.old + 3 * length bytes.now ≤ page_room }
    ensures text { page.new ≡ page.old ++ bytes_text bytes.now }
    ensures size { length page.new ≡ length page.old + 3 * length bytes.now }
{
    for byte in bytes {
        page.push(&[b' ', hex_digit(*byte / 16), hex_digit(*byte % 16)]);
    }
}

/// The line of some bytes, at most 16, from an address on.
#[tactic(auto, unfolding(crate::specs::Replies::memory_text))]
fn memory_page(address: u32, bytes: &[u8]) -> Page
    requires { length bytes.now ≤ 16 }
    ensures { result ≡ memory_text address (Some bytes.now) }
{
    let mut page = Page::new();
    page.push_hex(address);
    push_bytes(&mut page, bytes);
    page.push(b"\n");
    page
}

/// Writes some bytes of memory, at most 16, from an address on; or that memory does not have all of them.
#[tactic(auto, unfolding(crate::specs::Replies::memory_text))]
pub(crate) fn put_memory<R: Sink>(
    core: &Core,
    address: u32,
    len: u32,
    report: &mut R,
) -> Result<(), Failed>
    requires { len ≤ 16 }
    ensures { PutsText (R.written report.old) (R.written report.new) (R.faults report.old) (R.faults report.new)
        (memory_text address (range_of core.now.state.mem address len)) result }
{
    match core.memory().part(address, len) {
        Some(bytes) => put(memory_page(address, bytes).bytes(), report),
        None => refuse(b"NoAccess", report),
    }
}

/// The line of a break address, or that there is none.
#[tactic(auto, unfolding(crate::specs::Replies::break_text))]
fn break_page(stop: Option<u32>) -> Page
    ensures { result ≡ break_text stop }
{
    let mut page = Page::new();
    page.push(b"break ");
    match stop {
        Some(address) => page.push_hex(address),
        None => page.push(b"none"),
    }
    page.push(b"\n");
    page
}

/// Writes a break address, or that there is none.
pub(crate) fn put_break<R: Sink>(stop: Option<u32>, report: &mut R) -> Result<(), Failed>
    ensures { PutsText (R.written report.old) (R.written report.new) (R.faults report.old) (R.faults report.new)
        (break_text stop) result }
{
    put(break_page(stop).bytes(), report)
}

/// Writes the move that was taken back.
#[tactic(auto, unfolding(crate::specs::Replies::back_text))]
pub(crate) fn put_back<R: Sink>(mv: Move, report: &mut R) -> Result<(), Failed>
    ensures { PutsText (R.written report.old) (R.written report.new) (R.faults report.old) (R.faults report.new)
        (back_text mv) result }
{
    let mut line = MoveLine::new();
    move_text(mv, &mut line);
    put(b"back ", report)?;
    put(line.bytes(), report)?;
    put(b"\n", report)
}
