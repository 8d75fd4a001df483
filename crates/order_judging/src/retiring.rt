//! Whether an instruction retires with the line of the machine's next step.

ghost use Rattle.std.specs.Prelude.{◌≡◌, ◌↔◌, [], ◌∷◌, IsTrue};
ghost use Rattle.cf_semantics.specs.runs.Lines.{line_of, line_read, named as named_by};
ghost use Rattle.cf_semantics.specs.state.Layouts.{isa_of as set_of};
ghost use Rattle.order_judging.specs.Judgements.{HasPartsOf, LeavesApart, RetiresApart, lines_without};
ghost use Rattle.order_judging.specs.Places.{next_lines};

use cf_bind::{Binding, Move, Passenger};
use cf_layout::LooseLayout;
use cf_passengers::instruction;
use cf_passengers::loose::isa_of;
use order_machine::{NextStep, Waypoint};
use order_model::{Rule, Situation};
use rv_inst::{Instr, Isa, decode_as};
use rv_machine::Retired;

/// The register that a line names, with the value there; none for x0.
fn named(line: &Retired) -> Option<Binding>
    ensures { result ≡ named_by line.now.reg line.now.value }
{
    if line.reg == 0 {
        return None;
    }
    Some(Binding {
        reg: line.reg,
        value: Some(line.value),
    })
}

/// The instruction of a line.
fn decoded(isa: Isa, line: &Retired) -> Instr
    ensures { result ≡ (line_read isa line.now).what }
{
    match decode_as(isa, line.word) {
        Some(i) => i,
        None => Instr::Ebreak,
    }
}

/// Whether the two are the same instruction.
pub(crate) fn same_instruction(i: &Instr, other: &Instr) -> bool
    ensures { IsTrue result ↔ (i.now ≡ other.now) }
{
    i == other
}

/// Whether the same register got the same value, or neither got one.
fn same_destination(binding: &Option<Binding>, other: &Option<Binding>) -> bool
    ensures { IsTrue result ↔ (binding.now ≡ other.now) }
{
    binding == other
}

/// Whether the parts of the line are those of the instruction that leaves.
fn has_parts_of(isa: Isa, line: &Retired, p: &Passenger) -> bool
    ensures { IsTrue result ↔ HasPartsOf (line_read isa line.now) (line_of p.now) }
{
    line.pc == p.pc
        && same_instruction(&decoded(isa, line), &instruction(p))
        && same_destination(&named(line), &p.dst)
}

/// Whether the line is that of the instruction that leaves.
fn is_line_of(isa: Isa, line: &Retired, p: &Passenger) -> bool
    ensures { IsTrue result ↔ (line_read isa line.now ≡ line_of p.now) }
{
    has_parts_of(isa, line, p)
}

/// Whether the step retires the instruction that leaves.
#[tactic(auto, using(crate::proofs::LineParts::lines_of_steps))]
fn is_next(isa: Isa, next: &NextStep, p: &Passenger) -> bool
    ensures { IsTrue result ↔ (next_lines isa next.now ≡ line_of p.now ∷ []) }
{
    match next {
        NextStep::Retires(line) => is_line_of(isa, line, p),
        NextStep::Ends(_) => false,
    }
}

/// Whether an instruction leaves that is not that of the machine's next step.
fn leaves_apart(isa: Isa, next: &NextStep, leaving: Option<Passenger>) -> bool
    ensures { IsTrue result ↔ LeavesApart isa next.now leaving }
{
    match leaving {
        Some(p) => !is_next(isa, next, &p),
        None => false,
    }
}

/// Whether the allowed move retires an instruction with a line other than that of the machine's next step.
#[tactic(auto, using(crate::proofs::LineParts::lines_of_moves))]
pub(crate) fn retires_apart(
    away: Option<Rule>,
    layout: &LooseLayout,
    place: &Waypoint,
    s: &Situation,
    m: Move,
) -> bool
    ensures { IsTrue result ↔ RetiresApart (next_lines (set_of layout.now) place.now.next) (lines_without away layout.now s.now m) }
{
    leaves_apart(isa_of(layout), &place.next, s.retiring(away, layout, m))
}
