//! The report of an instruction that retires.

ghost use Rattle.std.specs.Prelude.{◌≡◌, IfSome};
ghost use Rattle.rv_inst.specs.Ranges.{Fits};
ghost use Rattle.cf_semantics.specs.runs.Lines.{line_of};
ghost use Rattle.cf_semantics.specs.moves.Events.{IsLeaving, Shows, register_in as register_told};

use crate::reading::{instruction, value_in};
use cf_bind::{Binding, Passenger};
use cf_semantics::Event;
use rv_inst::encode;
use rv_machine::Retired;

/// The register of a destination, or 0 if there is none.
#[inline(always)]
fn register_in(destination: Option<Binding>) -> u8
    ensures { result ≡ register_told destination }
{
    match destination {
        Some(binding) => binding.reg,
        None => 0,
    }
}

/// The line of the instruction, whose fields are in range.
#[inline(always)]
pub fn retirement(p: &Passenger) -> Retired
    requires { IfSome p.now.what (λ i. Fits i) }
    ensures { Shows (line_of p.now) result }
{
    Retired {
        pc: p.pc,
        word: encode(instruction(p)),
        reg: register_in(p.dst),
        value: value_in(p.dst),
    }
}

/// The event of an instruction that leaves at the top: a live instruction ends the program or retires, and a dead
/// instruction shows nothing. The fields of the instruction are in range.
#[inline(always)]
pub fn leaving(p: &Passenger) -> Event
    requires { IfSome p.now.what (λ i. Fits i) }
    ensures { IsLeaving p.now result }
{
    if p.dead {
        return Event::Plain;
    }
    match p.ending {
        Some(end) => Event::Ended(end),
        None => Event::Retired(retirement(p)),
    }
}
