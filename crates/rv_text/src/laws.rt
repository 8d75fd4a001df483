//! The law of texts, as the contract of a function that does nothing.
ghost use Rattle.std.specs.Prelude.{◌≡◌, ◌<◌, ◌^◌, ℕ, Ok};
ghost use Rattle.rv_inst.specs.declared.instruction.Instr.{Instr as Instruction};
ghost use Rattle.rv_inst.specs.Ranges.{Fits};
ghost use Rattle.rv_text.specs.Writing.{text_of};
ghost use Rattle.rv_text.specs.Reading.{read_text};

/// The text of an instruction at an address, read back at that address, gives the instruction.
#[tactic(auto, using(crate::proofs::RoundTrip::reading_back))]
pub fn read_back()
    ensures { (i : Instruction) (pc : ℕ) → Fits i → pc < 2 ^ 32 → read_text (text_of i pc) pc ≡ Ok i }
{}
