//! The law of changes, the contract of a function that does nothing.

ghost use Rattle.std.specs.Prelude.{◌≡◌};
ghost use Rattle.mem_regions.specs.Memory.{Memory};
ghost use Rattle.mem_changes.specs.Differing.{AreChangesOf};
ghost use Rattle.mem_changes.specs.Images.{IsAsLoaded};
ghost use Rattle.mem_changes.specs.MemoryChanges.{MemoryChanges};

/// A memory has only one list of changes: equal memories have equal changes.
#[tactic(auto, using(crate::proofs::Once::listed_once))]
pub fn one_list()
    ensures { (m other : Memory) (j k : MemoryChanges) → IsAsLoaded m → AreChangesOf m other j → AreChangesOf m other k → j ≡ k }
{}
