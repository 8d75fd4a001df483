//! Where the program goes on after an instruction, and which guesses are made.

ghost use Rattle.std.specs.Prelude.{◌≡◌};
ghost use Rattle.cf_layout.specs.Accepted.{is_control as turns_control};
ghost use Rattle.cf_semantics.specs.moves.Instructions.{is_indirect as is_jalr, target_of, word_after as next_word};
ghost use Rattle.cf_semantics.specs.state.Passengers.{goto as goes_to, guessed as place_guessed};
ghost use Rattle.cf_semantics.specs.moves.Bars.{may_guess as is_allowed};

use crate::reading::{instruction, kind};
use cf_bind::{Guess, Passenger};
use rv_inst::{Class, Instr};

/// The address of the next word.
#[inline(always)]
pub(crate) fn word_after(pc: u32) -> u32
    ensures { result ≡ next_word pc }
{
    pc.wrapping_add(4)
}

/// Whether the class turns control.
#[inline(always)]
pub(crate) fn is_control(class: Class) -> bool
    ensures { result ≡ turns_control class }
{
    matches!(class, Class::Branch | Class::Jump)
}

/// Whether the target of the jump is not in the instruction.
#[inline(always)]
#[tactic(auto, unfolding(cf_semantics::specs::moves::Instructions::is_indirect))]
fn is_indirect(i: Instr) -> bool
    ensures { result ≡ is_jalr i }
{
    matches!(i, Instr::Jalr { .. })
}

/// The target of a branch or of JAL; for any other instruction the next word.
#[inline(always)]
#[tactic(auto, unfolding(cf_semantics::specs::moves::Instructions::target_of))]
fn target(i: Instr, pc: u32) -> u32
    ensures { result ≡ target_of i pc }
{
    match i {
        Instr::Jal { imm, .. } => pc.wrapping_add(imm.cast_unsigned()),
        Instr::Branch { imm, .. } => pc.wrapping_add(imm.cast_unsigned()),
        _ => word_after(pc),
    }
}

/// The address that the guess names after the instruction at `pc`; `None` if fetch waits.
#[inline(always)]
pub fn guessed(guess: Guess, i: Instr, pc: u32) -> Option<u32>
    ensures { result ≡ place_guessed guess i pc }
{
    match guess {
        Guess::Next => Some(word_after(pc)),
        Guess::Taken => Some(target(i, pc)),
        Guess::Wait => None,
        Guess::To(pc) => Some(pc),
    }
}

/// Whether the instruction may be issued with the guess. Only branches and jumps may have another guess than `Next`:
/// JALR an address, the others their target.
#[inline(always)]
pub fn may_guess(guess: Guess, p: &Passenger) -> bool
    ensures { result ≡ is_allowed guess p.now }
{
    match guess {
        Guess::Next => true,
        Guess::Wait => is_control(kind(p)),
        Guess::Taken => is_control(kind(p)) && !is_indirect(instruction(p)),
        Guess::To(_) => is_control(kind(p)) && is_indirect(instruction(p)),
    }
}

/// The address at which the program goes on after the instruction: its next address if it is done, and otherwise the
/// guessed one. It is `None` if the instruction ends the program, after ECALL and FENCE.I until they are done, and if
/// fetch waits.
#[inline(always)]
pub fn goto(p: &Passenger) -> Option<u32>
    ensures { result ≡ goes_to p.now }
{
    if p.done {
        match p.ending {
            Some(_) => None,
            None => p.next,
        }
    } else {
        match kind(p) {
            Class::Serial => None,
            _ => guessed(p.guess, instruction(p), p.pc),
        }
    }
}
