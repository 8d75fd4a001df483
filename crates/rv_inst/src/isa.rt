//! Which instructions a machine has.
#![tactic(auto, unfolding(crate::specs::Decoding::decoded_as))]

ghost use Rattle.std.specs.Prelude.{◌≡◌, IfSome};
ghost use Rattle.rv_inst.specs.Encoding.{Encodes};
ghost use Rattle.rv_inst.specs.Ranges.{Fits};
ghost use Rattle.rv_inst.specs.Decoding.{decoded_as};

use crate::decoding::{decode, decode_m};
use crate::instruction::Instr;

/// An instruction set.
#[derive(Clone, Copy, PartialEq, Eq)]
pub enum Isa {
    /// RV32I with FENCE.I.
    Rv32i,
    /// RV32I with FENCE.I and the M extension.
    Rv32im,
}

/// The instruction of the set that the word encodes, as [`decode`] or [`decode_m`] returns it.
#[inline(always)]
pub fn decode_as(isa: Isa, word: u32) -> Option<Instr>
    ensures exact { result ≡ decoded_as isa word }
    ensures found { IfSome result (λ i. Encodes word i) }
    ensures fits { IfSome result (λ i. Fits i) }
{
    match isa {
        Isa::Rv32i => decode(word),
        Isa::Rv32im => decode_m(word),
    }
}
