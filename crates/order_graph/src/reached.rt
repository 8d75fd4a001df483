//! What a search of all orders has reached.

ghost use Rattle.std.specs.Prelude.{◌≡◌, ◌<◌, length, IfOk, OnOk};
ghost use Rattle.std.specs.List.{slice_index_or};
ghost use Rattle.order_graph.specs.OrderAnswers.{AreNumberedMoves, IsSearched, states_of};

use crate::graph::OrderGraph;
use crate::trial::note_trial;
use cf_bind::Move;
use order_search::{NumberedEdge, Orders, Reached};
use std::alloc::{AllocError, Global};

/// The states that lists of moves reach, each with the number of Issue moves on the way, numbered from 0 in the order in which
/// they were first reached.
#[derive(Drop)]
pub struct OrdersReached {
    pub(crate) graph: OrderGraph,
    pub(crate) reached: Reached,
}

impl OrdersReached {
    /// How many states were reached.
    pub fn states(&self) -> usize
        ensures { result ≡ length (states_of self.now) }
    {
        self.reached.states()
    }

    /// How many moves lead on from them.
    pub fn moves(&self) -> u64
        ensures { result ≡ self.now.reached.edges }
    {
        self.reached.edges()
    }

    /// From how many of the states no move leads on.
    pub fn ends(&self) -> u32
        ensures { result ≡ self.now.reached.ends }
    {
        self.reached.ends()
    }

    /// How many lists of moves lead from the start to such states. All lists end, so this is never [`Orders::Endless`].
    pub fn orders(&self) -> Orders
        ensures { result ≡ self.now.reached.orders }
    {
        self.reached.orders()
    }

    /// The moves that lead on from the state with a number, in their order, each with the number of the state to which it leads.
    pub fn moves_from(
        &mut self,
        alloc: Global,
        number: usize,
    ) -> Result<Vec<NumberedEdge<Move>>, AllocError>
        requires searched { IsSearched self.old }
        requires inside { number < length (states_of self.old) }
        ensures moves { IfOk result (λ moves. AreNumberedMoves self.old.graph.trial (states_of self.old) number moves.items) }
        ensures same { OnOk result (self.new ≡ self.old) }
    {
        note_trial(&self.graph.trial);
        let moves = self.reached.edges_of(alloc, &mut self.graph, number)?;
        Ok(moves)
    }
}
