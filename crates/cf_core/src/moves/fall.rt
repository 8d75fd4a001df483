//! Fall: the result of a stage moves one stage down.

ghost use Rattle.std.specs.Prelude.{◌≡◌, Some, None};
ghost use Rattle.cf_bind.specs.declared.moves.Move.TheVariants as mv;
ghost use Rattle.cf_semantics.specs.moves.Bars.{fall_bar as bar_between, row_bar};
ghost use Rattle.cf_core.specs.Processors.{IsProcessor, after_move};

use crate::processor::Processor;
use crate::rows::first_of;
use cf_bind::{Bar, Cell};

/// The first bar of Fall from a stage with this content into one with that below.
#[inline(always)]
fn fall_between(cell: Cell, below: Cell) -> Option<Bar>
    ensures { result ≡ bar_between cell (Some below) }
{
    let is_full = cell.passenger.is_some() && cell.packet.is_some() && !cell.met;
    first_of(&[
        (cell.packet.is_none(), Bar::NoPacket),
        (is_full, Bar::NotMet),
        (below.packet.is_some(), Bar::Occupied),
    ])
}

impl Processor {
    /// The first bar of Fall from this stage.
    #[inline(always)]
    pub(crate) fn fall_bar(&self, i: u32) -> Option<Bar>
        requires { IsProcessor self.now.plan self.now.state }
        ensures { result ≡ row_bar self.now.plan self.now.state (mv.Fall i) }
    {
        if i <= 1 || self.stages.count() < i {
            return Some(Bar::NoSuchSite);
        }
        fall_between(self.stages.cell(i), self.stages.cell(i - 1))
    }

    /// The result of the stage moves one stage down.
    #[inline(always)]
    #[tactic(auto, unfolding(cf_stages::specs::Changes::falls, cf_stages::specs::Changes::cells_fallen, cf_semantics::specs::moves::Moves::moved))]
    pub(crate) fn fall(&mut self, i: u32)
        requires { row_bar self.old.plan self.old.state (mv.Fall i) ≡ None }
        ensures { self.new ≡ after_move self.old (mv.Fall i) }
    {
        self.stages.fall(i);
    }
}
