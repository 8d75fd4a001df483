//! How the memory of a program differs from the memory as it was loaded.

ghost use Rattle.std.specs.Prelude.{◌≡◌, ◌↔◌, IfOk, IsTrue};
ghost use Rattle.mem_changes.specs.Differing.{AreChangesOf};

use crate::image::Image;
use std::alloc::{AllocError, Global};
use std::marker::Model;

/// A byte that is not the one that was loaded.
#[derive(Clone, Copy, PartialEq, Eq)]
pub struct Change {
    /// Its address.
    pub addr: u32,

    /// What it is now.
    pub byte: u8,
}

/// How a memory differs from the memory as it was loaded. The two lists are in ascending order of the addresses.
#[derive(Drop)]
pub struct Changes {
    /// The bytes that differ.
    pub bytes: Vec<Change>,

    /// The bytes of the code, as it is fetched, that differ.
    pub code: Vec<Change>,

    /// The program break.
    pub program_break: u32,
}

impl Model for Changes {
    ghost use Rattle.mem_changes.specs.MemoryChanges.{MemoryChanges};

    ghost Value = { MemoryChanges };

    ghost view = { λ k. record { bytes = k.bytes.items; code = k.code.items; program_break = k.program_break } };
}

/// Whether the two lists have the same changes in the same order.
fn same_lists(list: &[Change], other: &[Change]) -> bool
    ensures { IsTrue result ↔ (list.now ≡ other.now) }
{
    match (list, other) {
        ([], []) => true,
        ([first, rest @ ..], [other_first, other_rest @ ..]) => {
            first.addr == other_first.addr
                && first.byte == other_first.byte
                && same_lists(rest, other_rest)
        }
        _ => false,
    }
}

impl Changes {
    /// No changes.
    #[tactic(auto, using(crate::proofs::Made::nothing))]
    pub fn none(alloc: Global, image: &Image) -> Changes
        ensures { AreChangesOf image.now image.now result }
    {
        Changes {
            bytes: Vec::new(alloc),
            code: Vec::new(alloc),
            program_break: image.memory().brk(),
        }
    }

    /// A copy of the changes; or an error if there is not enough memory for them.
    pub fn copy(&self) -> Result<Changes, AllocError>
        ensures { IfOk result (λ k. k ≡ self.now) }
    {
        Ok(Changes {
            bytes: self.bytes.clone()?,
            code: self.code.clone()?,
            program_break: self.program_break,
        })
    }

    /// Whether they are the same changes.
    pub fn same(&self, other: &Changes) -> bool
        ensures { IsTrue result ↔ (self.now ≡ other.now) }
    {
        self.program_break == other.program_break
            && same_lists(self.bytes.as_slice(), other.bytes.as_slice())
            && same_lists(self.code.as_slice(), other.code.as_slice())
    }
}
