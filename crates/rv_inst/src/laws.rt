//! The laws of the encoding, each the contract of a function that does nothing.
ghost use Rattle.std.specs.Prelude.{◌≡◌, ◌<◌, ◌^◌, ℕ, Some, IsTrue};
ghost use Rattle.rv_inst.specs.declared.instruction.Instr.{Instr as Instruction};
ghost use Rattle.rv_inst.specs.Encoding.{Encodes, is_base};
ghost use Rattle.rv_inst.specs.Decoding.{decoded, decoded_m};

/// No word encodes two instructions.
#[tactic(auto, using(crate::proofs::Reading::laws))]
pub fn one_instruction()
    ensures { (w : ℕ) (i j : Instruction) → Encodes w i → Encodes w j → i ≡ j }
{}

/// No instruction has two words.
#[tactic(auto, using(crate::proofs::Reading::laws))]
pub fn one_word()
    ensures { (v w : ℕ) (i : Instruction) → v < 2 ^ 32 → w < 2 ^ 32 → Encodes v i → Encodes w i → v ≡ w }
{}

/// A word is decoded to an instruction if and only if it encodes that instruction.
#[tactic(auto, using(crate::proofs::Reading::laws))]
pub fn read_where_encoded()
    ensures complete { (w : ℕ) (i : Instruction) → Encodes w i → decoded_m w ≡ Some i }
    ensures sound { (w : ℕ) (i : Instruction) → decoded_m w ≡ Some i → Encodes w i }
{}

/// The same for RV32I with FENCE.I only.
#[tactic(auto, using(crate::proofs::Reading::laws))]
pub fn read_where_base_encoded()
    ensures complete { (w : ℕ) (i : Instruction) → IsTrue (is_base i) → Encodes w i → decoded w ≡ Some i }
    ensures sound { (w : ℕ) (i : Instruction) → decoded w ≡ Some i → Encodes w i }
    ensures base { (w : ℕ) (i : Instruction) → decoded w ≡ Some i → IsTrue (is_base i) }
{}
