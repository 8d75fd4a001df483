//! The text of an instruction and of a result in a picture.
#![tactic(auto, unfolding(crate::specs::Passengers::packet_text, crate::specs::Passengers::guess_field, crate::specs::Passengers::binding_text, crate::specs::Passengers::owed_text, crate::specs::Passengers::flag_text))]

ghost use Rattle.std.specs.Prelude.{◌≡◌, ◌+◌, ◌≤◌, ◌++◌, length, codes};
ghost use Rattle.cf_report.specs.Passengers.{value_text, packet_text, guess_field, binding_text, owed_text, progress_text, flag_text, standing_text, bindings_text, passenger_text};
ghost use Rattle.texts.specs.Room.{page_room};

use cf_bind::{Binding, End, Guess, Packet, Passenger};
use texts::Page;

/// Appends a register with its value.
pub(crate) fn push_value(page: &mut Page, register: u8, value: u32)
    requires { length page.old + 12 ≤ page_room }
    ensures text { page.new ≡ page.old ++ value_text register value }
    ensures size { length page.new ≤ length page.old + 12 }
{
    page.push_register_name(register);
    page.push(b"=");
    page.push_hex(value);
}

/// Appends a result.
pub(crate) fn push_packet(page: &mut Page, packet: Packet)
    requires { length page.old + 13 ≤ page_room }
    ensures text { page.new ≡ page.old ++ packet_text packet }
    ensures size { length page.new ≤ length page.old + 13 }
{
    match packet {
        Packet::Value { reg, value } => push_value(page, reg, value),
        Packet::Turn(pc) => {
            page.push(b"turn ");
            page.push_hex(pc);
        }
        Packet::Halt => page.push(b"halt"),
    }
}

fn push_guess(page: &mut Page, guess: Guess)
    requires { length page.old + 11 ≤ page_room }
    ensures text { page.new ≡ page.old ++ guess_field guess }
    ensures size { length page.new ≤ length page.old + 11 }
{
    match guess {
        Guess::Next => page.push(b"next"),
        Guess::Taken => page.push(b"taken"),
        Guess::Wait => page.push(b"wait"),
        Guess::To(target) => {
            page.push(b"to:");
            page.push_hex(target);
        }
    }
}

/// Appends a binding, or `-` if there is none, and a space.
fn push_binding(page: &mut Page, binding: Option<Binding>)
    requires { length page.old + 13 ≤ page_room }
    ensures text { page.new ≡ page.old ++ binding_text binding ++ codes " " }
    ensures size { length page.new ≤ length page.old + 13 }
{
    match binding {
        Some(
            Binding {
                reg,
                value: Some(value),
            },
        ) => push_value(page, reg, value),
        Some(Binding { reg, value: None }) => {
            page.push_register_name(reg);
            page.push(b"=?");
        }
        None => page.push(b"-"),
    }
    page.push(b" ");
}

fn push_owed(page: &mut Page, owes: Option<Packet>)
    requires { length page.old + 13 ≤ page_room }
    ensures text { page.new ≡ page.old ++ owed_text owes }
    ensures size { length page.new ≤ length page.old + 13 }
{
    match owes {
        Some(packet) => push_packet(page, packet),
        None => page.push(b"-"),
    }
}

/// How far a live instruction has come.
fn progress(ending: Option<End>, done: bool, launched: bool) -> &'static [u8]
    ensures text { result.now ≡ progress_text ending done launched }
    ensures short { length result.now ≤ 8 }
{
    match ending {
        Some(End::Trap { .. }) => b"trap",
        Some(End::Exit(_)) => b"exit",
        None if done => b"done",
        None if launched => b"out",
        None => b"new",
    }
}

/// The state of an instruction.
fn flag(passenger: &Passenger) -> &'static [u8]
    ensures text { result.now ≡ flag_text passenger.now }
    ensures short { length result.now ≤ 8 }
{
    if !passenger.dead {
        progress(passenger.ending, passenger.done, passenger.launched)
    } else if passenger.launched && !passenger.recovered {
        b"dead-out"
    } else {
        b"dead"
    }
}

fn push_standing(page: &mut Page, passenger: &Passenger)
    requires { length page.old + 30 ≤ page_room }
    ensures text { page.new ≡ page.old ++ standing_text passenger.now }
    ensures size { length page.new ≤ length page.old + 30 }
{
    page.push_hex(passenger.pc);
    page.push(b" ");
    push_guess(page, passenger.guess);
    page.push(b" ");
    page.push(flag(passenger));
    page.push(b" ");
}

fn push_bindings(page: &mut Page, passenger: &Passenger)
    requires { length page.old + 39 ≤ page_room }
    ensures text { page.new ≡ page.old ++ bindings_text passenger.now }
    ensures size { length page.new ≤ length page.old + 39 }
{
    push_binding(page, passenger.src1);
    push_binding(page, passenger.src2);
    push_binding(page, passenger.dst);
}

/// Appends an instruction: its address, guess and flag, its sources and destination, and what it still has to send.
#[tactic(auto, unfolding(crate::specs::Passengers::passenger_text))]
pub(crate) fn push_passenger(page: &mut Page, passenger: &Passenger)
    requires { length page.old + 82 ≤ page_room }
    ensures text { page.new ≡ page.old ++ passenger_text passenger.now }
    ensures size { length page.new ≤ length page.old + 82 }
{
    push_standing(page, passenger);
    push_bindings(page, passenger);
    push_owed(page, passenger.owes);
}
