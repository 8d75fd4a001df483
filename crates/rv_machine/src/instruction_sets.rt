//! Which instructions an instruction set has.

ghost use Rattle.std.specs.Prelude.{◌≡◌, Some, IfSome};
ghost use Rattle.rv_inst.specs.Ranges.{Fits};
ghost use Rattle.rv_inst.specs.Decoding.{decoded_as, decoded_m};
ghost use Rattle.rv_machine.specs.Decoded.{if_m, in_set};

use rv_inst::{Instr, Isa};

/// An instruction of the M extension, if the set has it.
#[inline(always)]
fn if_m(isa: Isa, i: Instr) -> Option<Instr>
    ensures { result ≡ if_m isa i }
{
    match isa {
        Isa::Rv32i => None,
        Isa::Rv32im => Some(i),
    }
}

/// The instruction, if the set has it.
#[inline(always)]
#[tactic(auto, unfolding(crate::specs::Decoded::in_set))]
fn in_set(isa: Isa, i: Instr) -> Option<Instr>
    ensures { result ≡ in_set isa i }
{
    match i {
        Instr::Mul { .. } => if_m(isa, i),
        _ => Some(i),
    }
}

/// The instruction that the word encodes, if the set has it.
#[inline(always)]
#[tactic(auto, using(crate::proofs::Sets::sets))]
pub(crate) fn read_in(isa: Isa, word: u32, i: Instr) -> Option<Instr>
    requires { decoded_m word ≡ Some i }
    ensures exact { result ≡ decoded_as isa word }
    ensures fits { IfSome result (λ i. Fits i) }
{
    in_set(isa, i)
}
