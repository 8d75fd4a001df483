//! The laws of drawn programs, each the contract of a function that does nothing.

ghost use Rattle.std.specs.Prelude.{◌≤◌, ℕ, length};
ghost use Rattle.cf_gen.specs.Program.{program_text};
ghost use Rattle.run_options.specs.Limits.{most_statements};
ghost use Rattle.asm_drawn.specs.Unrefused.{IsUnrefused};

/// The text of a drawn program is no longer than a source may be.
#[tactic(auto, using(crate::proofs::Programs::accepting))]
pub fn drawn_text_fits()
    ensures { (number : ℕ) → number ≤ most_statements → length (program_text number) ≤ 1048576 }
{}

/// The assembler refuses no drawn program: each line is in its grammar, each label is defined once, and each distance
/// is in range.
#[tactic(auto, using(crate::proofs::Programs::accepting))]
pub fn drawn_programs_are_accepted()
    ensures { (number : ℕ) → number ≤ most_statements → IsUnrefused (program_text number) }
{}
