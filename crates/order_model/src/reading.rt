//! What can be observed of a state.

ghost use Rattle.std.specs.List.{list_any};
ghost use Rattle.std.specs.Prelude.{◌≡◌, None, Some};
ghost use Rattle.cf_semantics.specs.runs.Lines.{line_of};
ghost use Rattle.cf_semantics.specs.state.Drained.{is_drained as nothing_there, is_occupied};
ghost use Rattle.cf_semantics.specs.state.Options.{is_some, on};
ghost use Rattle.order_model.specs.RuleMoves.{retires_without};

use crate::Rule;
use crate::end_moves::leaving;
use crate::siding_ops::SidingOps;
use crate::situation::Situation;
use cf_bind::{Cell, End, Fetch, Move, Passenger};
use cf_layout::LooseLayout;

/// Whether an instruction or a result is in one of the stages.
fn any_occupied(cells: &[Cell]) -> bool
    ensures { result ≡ list_any is_occupied cells.now }
{
    cells
        .iter()
        .any(|cell| cell.passenger.is_some() || cell.packet.is_some())
}

/// Whether one of the sidings holds an operation.
fn any_held(sidings: &[SidingOps]) -> bool
    ensures { result ≡ list_any (list_any is_some) sidings.now }
{
    sidings.iter().any(|siding| siding.holds_some())
}

impl Situation {
    /// How the program ended, if it has.
    pub fn ending(&self) -> Option<End>
        ensures { result ≡ self.now.ending }
    {
        self.ending
    }

    /// How many instructions have retired.
    pub fn retired(&self) -> u64
        ensures { result ≡ self.now.retired }
    {
        self.retired
    }

    /// The registers.
    pub fn regs(&self) -> &[u32; 32]
        ensures { result.now ≡ self.now.regs }
    {
        &self.regs
    }

    /// What fetch does.
    pub fn fetch(&self) -> Fetch
        ensures { result ≡ self.now.fetch }
    {
        self.fetch
    }

    /// Whether there is no instruction, result, request or operation anywhere.
    #[tactic(auto, unfolding(cf_semantics::specs::state::Drained::is_drained))]
    pub fn is_drained(&self) -> bool
        ensures { result ≡ nothing_there self.now }
    {
        !any_occupied(&self.cells) && self.lane.is_empty() && !any_held(&self.sidings)
    }

    /// The instruction that retires with the allowed move, if one does, as it leaves: its address, the instruction and
    /// its destination make up the line.
    #[tactic(auto, unfolding(crate::specs::RuleMoves::retires_without))]
    pub fn retiring(&self, away: Option<Rule>, layout: &LooseLayout, m: Move) -> Option<Passenger>
        ensures { on result None (λ p. Some (line_of p)) ≡ retires_without away layout.now self.now m }
    {
        let Move::Leave = m else {
            return None;
        };
        let cell = self.cell(layout.stages() as usize)?;
        let passenger = cell.passenger?;
        if passenger.dead || passenger.ending.is_some() {
            return None;
        }
        Some(leaving(away, passenger))
    }
}
