//! The line of a stage.
#![tactic(auto, unfolding(crate::specs::Passengers::held_text, crate::specs::Passengers::stage_line, crate::specs::Passengers::any_stage_line))]

ghost use Rattle.std.specs.Prelude.{◌≡◌, ◌+◌, ◌≤◌, ◌++◌, length, codes, decimal};
ghost use Rattle.cf_report.specs.Passengers.{packet_text, passenger_text, met_text as text_of_met, held_text, is_empty_cell, stage_line, any_stage_line};
ghost use Rattle.cf_report.specs.Putting.{PutsText};
ghost use Rattle.texts.specs.Lines.{line as line_of};
ghost use Rattle.texts.specs.Room.{page_room};

use crate::passengers::{push_packet, push_passenger};
use crate::putting::put_text;
use cf_bind::{Cell, Packet, Passenger};
use cf_io::{Failed, Sink};
use texts::Page;

fn met_text(met: bool) -> &'static [u8]
    ensures text { result.now ≡ text_of_met met }
    ensures short { length result.now ≤ 12 }
{
    if met { b" complete | " } else { b" full | " }
}

/// Appends an instruction and a result.
fn push_both(page: &mut Page, passenger: &Passenger, packet: Packet, met: bool)
    requires { length page.old + 110 ≤ page_room }
    ensures text { page.new ≡ page.old
        ++ (text_of_met met ++ passenger_text passenger.now ++ codes " | " ++ packet_text packet) }
    ensures size { length page.new ≤ length page.old + 110 }
{
    page.push(met_text(met));
    push_passenger(page, passenger);
    page.push(b" | ");
    push_packet(page, packet);
}

/// Appends an instruction alone in its stage.
fn push_instruction(page: &mut Page, passenger: &Passenger)
    requires { length page.old + 110 ≤ page_room }
    ensures text { page.new ≡ page.old ++ (codes " instruction | " ++ passenger_text passenger.now) }
    ensures size { length page.new ≤ length page.old + 110 }
{
    page.push(b" instruction | ");
    push_passenger(page, passenger);
}

/// Appends a result alone in its stage.
fn push_result(page: &mut Page, packet: Packet)
    requires { length page.old + 23 ≤ page_room }
    ensures text { page.new ≡ page.old ++ (codes " result | " ++ packet_text packet) }
    ensures size { length page.new ≤ length page.old + 23 }
{
    page.push(b" result | ");
    push_packet(page, packet);
}

/// Appends the contents of a stage.
fn push_held(page: &mut Page, cell: &Cell)
    requires { length page.old + 110 ≤ page_room }
    ensures text { page.new ≡ page.old ++ held_text cell.now.passenger cell.now.packet cell.now.met }
    ensures size { length page.new ≤ length page.old + 110 }
{
    match (&cell.passenger, cell.packet) {
        (Some(passenger), Some(packet)) => push_both(page, passenger, packet, cell.met),
        (Some(passenger), None) => push_instruction(page, passenger),
        (None, Some(packet)) => push_result(page, packet),
        (None, None) => {}
    }
}

fn push_number(page: &mut Page, stage: u32)
    requires { length page.old + 26 ≤ page_room }
    ensures text { page.new ≡ page.old ++ (codes "stage " ++ decimal stage) }
    ensures size { length page.new ≤ length page.old + 26 }
{
    page.push(b"stage ");
    page.push_decimal(u64::from(stage));
}

fn is_empty(cell: &Cell) -> bool
    ensures { result ≡ is_empty_cell cell.now }
{
    cell.passenger.is_none() && cell.packet.is_none()
}

fn stage_page(stage: u32, cell: &Cell) -> Page
    ensures { result ≡ stage_line stage cell.now }
{
    let mut page = Page::new();
    if is_empty(cell) {
        return page;
    }
    push_number(&mut page, stage);
    push_held(&mut page, cell);
    page.push(b"\n");
    page
}

/// The line of an empty stage.
fn empty_stage_page(stage: u32) -> Page
    ensures { result ≡ line_of ((codes "stage " ++ decimal stage) ++ codes " empty") }
{
    let mut page = Page::new();
    push_number(&mut page, stage);
    page.push(b" empty\n");
    page
}

/// The line of a stage; an empty stage has a line too.
pub fn any_stage_page(stage: u32, cell: &Cell) -> Page
    ensures { result ≡ any_stage_line stage cell.now }
{
    if is_empty(cell) {
        empty_stage_page(stage)
    } else {
        stage_page(stage, cell)
    }
}

/// Writes the line of a stage, and nothing for an empty one.
pub fn put_stage<R: Sink>(stage: u32, cell: &Cell, report: &mut R) -> Result<(), Failed>
    ensures { PutsText (R.written report.old) (R.written report.new)
        (R.faults report.old) (R.faults report.new) (stage_line stage cell.now) result }
{
    let page = stage_page(stage, cell);
    put_text(page.bytes(), report)
}
