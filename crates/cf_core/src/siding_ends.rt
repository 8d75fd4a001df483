//! The two ends of a siding, and Memory's siding, at whose end the port to memory is.

ghost use Rattle.std.specs.Prelude.{◌≡◌, length, ◌<◌};
ghost use Rattle.cf_semantics.specs.moves.Bars.{last_op as op_at_end};
ghost use Rattle.cf_semantics.specs.moves.Instructions.{is_memory as loads_or_stores};
ghost use Rattle.cf_semantics.specs.state.Layouts.{port as port_of};
ghost use Rattle.cf_semantics.specs.state.State.{siding_at};
ghost use Rattle.cf_core.specs.Processors.{IsProcessor};

use crate::processor::Processor;
use cf_bind::Op;
use rv_inst::Class;

/// Whether the class is that of loads and stores.
#[inline(always)]
pub(crate) fn is_memory(class: Class) -> bool
    ensures { result ≡ loads_or_stores class }
{
    matches!(class, Class::Memory)
}

impl Processor {
    /// How many cells the siding of that number has: none if there is no such siding.
    #[inline(always)]
    #[tactic(auto, using(crate::proofs::Berths::berths))]
    pub(crate) fn cells_in(&self, k: u32) -> u32
        requires { IsProcessor self.now.plan self.now.state }
        ensures { result ≡ length (siding_at self.now.state k) }
    {
        if k < self.layout.siding_count() {
            self.layout.cells_of(k)
        } else {
            0
        }
    }

    /// The operation at the end of the siding of that number, which has cells.
    #[inline(always)]
    #[tactic(auto, using(crate::proofs::Berths::berths))]
    pub(crate) fn last_op(&self, k: u32) -> &Option<Op>
        requires facts { IsProcessor self.now.plan self.now.state }
        requires within { 0 < length (siding_at self.now.state k) }
        ensures { result.now ≡ op_at_end (siding_at self.now.state k) }
    {
        let cells = self.sidings.siding(k);
        &cells[cells.len() - 1]
    }

    /// The number of Memory's siding, at whose end the port to memory is.
    #[inline(always)]
    #[tactic(auto, using(crate::proofs::Ported::port_number))]
    pub(crate) fn port(&self) -> u32
        ensures { result ≡ port_of self.now.plan }
    {
        match self.station(Class::Memory).siding {
            Some(site) => site.number,
            None => 0,
        }
    }
}
