//! The ring of moves that can be taken back.

ghost use Rattle.std.specs.Prelude.{◌≡◌, [], ◌∷◌, ◌++◌, IfOk, MatchOption};
ghost use Rattle.cf_core.specs.Undo.{kept_by};
ghost use Rattle.cf_debug.specs.Rings.{with_record};

use cf_core::Undo;
use circular_buffer::HeapCircularBuffer;
use std::alloc::{AllocError, Global};
use std::marker::Model;

/// The records of the last moves of a session, at most 1,024, with which they can be taken back. Contracts see it as
/// the list of records, the oldest first. Only `new` allocates memory.
#[derive(Drop)]
pub struct Ring {
    records: HeapCircularBuffer<Undo>,
}

impl Model for Ring {
    ghost use Rattle.std.specs.Prelude.{◌≡◌, List, map};
    ghost use Rattle.cf_semantics.specs.moves.Kept.{Kept};
    ghost use Rattle.cf_core.specs.Undo.{kept_by};

    ghost Value = { List Kept };

    ghost view = { λ ring. map kept_by ring.records.items };

    ghost invariant = { λ ring. ring.records.capacity ≡ 1024 };
}

impl Ring {
    /// An empty ring, whose memory is allocated here.
    pub fn new(alloc: Global) -> Result<Ring, AllocError>
        ensures { IfOk result (λ ring. ring ≡ []) }
    {
        Ok(Ring {
            records: HeapCircularBuffer::with_capacity(alloc, 1024)?,
        })
    }

    /// Appends a record; a full ring drops its oldest.
    #[tactic(auto, using(crate::proofs::Kept::kept_more))]
    pub(crate) fn push(&mut self, undo: Undo)
        ensures { self.new ≡ with_record self.old (kept_by undo) }
    {
        self.records.push_back(undo);
    }

    /// Removes the last record.
    pub(crate) fn pop(&mut self) -> Option<Undo>
        ensures { MatchOption result ((self.old ≡ []) × (self.new ≡ [])) (λ undo. self.old ≡ self.new ++ kept_by undo ∷ []) }
    {
        self.records.pop_back()
    }

    /// Removes all records.
    pub(crate) fn clear(&mut self)
        ensures { self.new ≡ [] }
    {
        self.records.clear();
    }
}
