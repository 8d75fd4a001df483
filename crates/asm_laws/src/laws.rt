//! The laws of assembled programs, each the contract of a function that does nothing.

ghost use Rattle.std.specs.Prelude.{ℕ, List};
ghost use Rattle.rv_asm.specs.declared.object.Object.{Object as Assembled};
ghost use Rattle.rv_asm.specs.Assembling.{assembled};
ghost use Rattle.rv_text.specs.Lines.{text_lines};
ghost use Rattle.rv_asm.specs.Objects.{Objects};
ghost use Rattle.asm_laws.specs.Programs.{IsProgram};

/// The object that a source represents is the program of its lines: each line denotes its item at the position where
/// the earlier lines end, and what the item places is at that address.
#[tactic(auto, using(crate::proofs::Programs::programs))]
pub fn objects_are_programs()
    ensures { (source : List ℕ) (object : Assembled) → Objects object (assembled source) → IsProgram (text_lines source) object }
{}
