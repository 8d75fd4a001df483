//! Whether the stages are empty, and whether two `Stages` are the same.

ghost use Rattle.std.specs.List.{list_any};
ghost use Rattle.std.specs.Prelude.{◌≡◌, ◌↔◌, IsTrue, not};
ghost use Rattle.cf_semantics.specs.state.Drained.{is_occupied};

use crate::stages::Stages;
use cf_bind::Cell;

/// Whether two stages have the same contents.
#[tactic(auto, using(crate::proofs::Deciding::cell_decides))]
fn is_same(cell: Cell, other: Cell) -> bool
    ensures { IsTrue result ↔ (cell ≡ other) }
{
    cell == other
}

impl Stages {
    /// Whether there is neither an instruction nor a result anywhere.
    #[inline(always)]
    pub fn is_empty(&self) -> bool
        ensures { result ≡ not (list_any is_occupied self.now) }
    {
        self.passenger_mask == 0 && self.packet_mask == 0
    }

    /// Whether each stage has the same contents in both.
    pub fn same(&self, other: &Stages) -> bool
        ensures { IsTrue result ↔ (self.now ≡ other.now) }
    {
        if self.count() != other.count() {
            return false;
        }
        for below in 0..self.count() {
            if !is_same(self.cell(below + 1), other.cell(below + 1)) {
                return false;
            }
        }
        true
    }
}
