//! The laws of the assembler, each the contract of a function that does nothing.

ghost use Rattle.std.specs.Prelude.{ℕ, List};
ghost use Rattle.rv_asm.specs.Assembling.{assembled};
ghost use Rattle.rv_asm.specs.Sized.{IsSized};

/// The sizes by which the first pass places the lines are the lengths of what the second pass writes there.
#[tactic(auto, using(crate::proofs::Sized::sized))]
pub fn sizes_and_bytes_agree()
    ensures { (source : List ℕ) → IsSized (assembled source) }
{}
