//! What is counted of the moves of a list.

ghost use Rattle.std.specs.Prelude.{◌≡◌, ◌+◌, ◌-◌, ◌<◌, ◌^◌, if◌then◌else◌};
ghost use Rattle.order_graph.specs.CountsMade.{AreCountsUpTo, counts_between, counts_with, has_dead as is_dead_in, has_live as is_live_in, has_packet as is_result_in, no_counts};
ghost use Rattle.order_graph.specs.KeyGraph.{node_next};

use crate::found::OrderCounts;
use crate::trial::Trial;
use cf_bind::{Cell, Move};
use order_keys::Node;

/// Whether a result is in the stage.
#[inline(always)]
pub(crate) fn has_packet(cell: Option<Cell>) -> bool
    ensures { result ≡ is_result_in cell }
{
    match cell {
        Some(cell) => cell.packet.is_some(),
        None => false,
    }
}

/// Whether a live instruction is in the stage.
fn has_live(cell: Option<Cell>) -> bool
    ensures { result ≡ is_live_in cell }
{
    match cell {
        Some(
            Cell {
                passenger: Some(p),
                ..
            },
        ) => !p.dead,
        _ => false,
    }
}

/// Whether a dead instruction is in the stage.
fn has_dead(cell: Option<Cell>) -> bool
    ensures { result ≡ is_dead_in cell }
{
    match cell {
        Some(
            Cell {
                passenger: Some(p),
                ..
            },
        ) => p.dead,
        _ => false,
    }
}

/// A count, plus one if this holds.
fn plus(count: u64, more: bool) -> u64
    requires { count + 1 < 2 ^ 64 }
    ensures { result ≡ count + (if more then 1 else 0) }
{
    if more { count + 1 } else { count }
}

impl OrderCounts {
    /// Nothing is counted yet.
    pub(crate) fn none() -> OrderCounts
        ensures { result ≡ no_counts }
    {
        OrderCounts {
            meets: 0,
            kills: 0,
            dead: 0,
        }
    }

    /// The counts with one more meeting, given the contents of its stage before and after it.
    fn with_meeting(self, found: Option<Cell>, left: Option<Cell>) -> OrderCounts
        requires { AreCountsUpTo (2 ^ 64 - 2) self }
        ensures { result ≡ counts_between found left self }
    {
        OrderCounts {
            meets: plus(self.meets, true),
            kills: plus(self.kills, has_packet(found) && !has_packet(left)),
            dead: plus(self.dead, has_live(found) && has_dead(left)),
        }
    }

    /// The counts with one more move, which leads from one node to the next.
    #[tactic(auto, unfolding(crate::specs::CountsMade::counts_with))]
    pub(crate) fn with(self, trial: &Trial, node: &Node, m: Move, next: &Node) -> OrderCounts
        requires next { next.now ≡ node_next trial.now node.now m }
        requires few { AreCountsUpTo (2 ^ 64 - 2) self }
        ensures { result ≡ counts_with trial.now.away node.now.situation m self }
    {
        match m {
            Move::Meet(i) => self.with_meeting(
                node.situation.cell(i as usize),
                next.situation.cell(i as usize),
            ),
            _ => self,
        }
    }
}
