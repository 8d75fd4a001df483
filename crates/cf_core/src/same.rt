//! Whether two processors are the same.

ghost use Rattle.std.specs.Prelude.{◌≡◌, ◌↔◌, IsTrue};
ghost use Rattle.cf_core.specs.Processors.{AreSame, AreSameEnds, IsProcessor};

use crate::counterflow::Core;
use crate::processor::Processor;
use cf_bind::{End, Fetch, Op};
use cf_ends::Ends;

/// Whether the two lists have the same operations in the same cells.
fn same_ops(ops: &[Option<Op>], other: &[Option<Op>]) -> bool
    ensures { IsTrue result ↔ (ops.now ≡ other.now) }
{
    ops == other
}

/// Whether fetch does the same.
fn same_fetch(fetch: Fetch, other: Fetch) -> bool
    ensures { IsTrue result ↔ (fetch ≡ other) }
{
    fetch == other
}

/// Whether both programs go on, or both ended in the same way.
fn same_ending(ending: Option<End>, other: Option<End>) -> bool
    ensures { IsTrue result ↔ (ending ≡ other) }
{
    ending == other
}

/// Whether the same registers wait in the two lanes, in the same order.
#[tactic(auto, using(crate::proofs::Entries::entries))]
fn same_lane(ends: &Ends, other: &Ends) -> bool
    ensures { IsTrue result ↔ (ends.now.lane ≡ other.now.lane) }
{
    if ends.lane_len() != other.lane_len() {
        return false;
    }
    for entry in 0..ends.lane_len() {
        if ends.lane_at(entry) != other.lane_at(entry) {
            return false;
        }
    }
    true
}

impl Processor {
    /// Whether the sidings of two processors of one layout have the same operations in the same cells.
    #[tactic(auto, using(crate::proofs::Entries::entries, crate::proofs::Entries::sidings, crate::proofs::Weights::weights))]
    fn same_sidings(&self, other: &Processor) -> bool
        requires own { IsProcessor self.now.plan self.now.state }
        requires other { IsProcessor other.now.plan other.now.state }
        requires layout { self.now.plan ≡ other.now.plan }
        ensures { IsTrue result ↔ (self.now.state.sidings ≡ other.now.state.sidings) }
    {
        for k in 0..self.layout.siding_count() {
            if !same_ops(self.sidings.siding(k), other.sidings.siding(k)) {
                return false;
            }
        }
        true
    }

    /// Whether what is beside the pipes is the same: the lane, fetch and the registers.
    fn same_ends(&self, other: &Processor) -> bool
        ensures { IsTrue result ↔ AreSameEnds self.now.state other.now.state }
    {
        same_lane(&self.ends, &other.ends)
            && same_fetch(self.ends.fetch(), other.ends.fetch())
            && self.ends.regs() == other.ends.regs()
    }
}

impl Core {
    /// Whether the two processors are the same except for the cached values: in the layout, the stages, the sidings,
    /// the lane, fetch, the registers, the memory with its code and break, the retired count, the ending, and whether
    /// input or output has failed.
    pub fn same(&self, other: &Core) -> bool
        ensures { IsTrue result ↔ AreSame self.now other.now }
    {
        let (own, other) = (&self.processor, &other.processor);
        own.layout.same(&other.layout)
            && own.stages.same(&other.stages)
            && own.same_sidings(other)
            && own.same_ends(other)
            && own.memory.same(&other.memory)
            && own.retired == other.retired
            && same_ending(own.ending, other.ending)
            && own.failed == other.failed
    }
}
