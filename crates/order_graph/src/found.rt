//! The answer of a search of all orders.

use crate::reached::OrdersReached;
use cf_bind::{Move, Passenger};
use order_claims::WrongKind;
use order_model::Situation;
use rv_machine::Retired;

/// What the report of a run counts of its moves.
#[derive(Clone, Copy)]
pub struct OrderCounts {
    /// How many are meetings.
    pub meets: u64,

    /// How many results the moves kill.
    pub kills: u64,

    /// How many live instructions die of the moves.
    pub dead: u64,
}

/// The first wrong list of moves.
#[derive(Drop)]
pub struct WrongOrder {
    /// The moves.
    pub moves: Vec<Move>,

    /// In which way the last of them is wrong.
    pub kind: WrongKind,

    /// The state that the moves lead to, without its memory.
    pub reached: Situation,

    /// The counts of the moves.
    pub counts: OrderCounts,

    /// The instruction that retires with the last move, as it leaves, if one does.
    pub seen: Option<Passenger>,

    /// The line of the sequential machine's next step before that move, if that step does not end the program.
    pub wanted: Option<Retired>,
}

/// The answer of a search of all orders.
#[derive(Drop)]
pub enum OrdersFound {
    /// A list of moves is wrong, and none that comes before it in the order of the search is.
    Wrong(WrongOrder),

    /// No list of moves is wrong; what they reach.
    Reached(OrdersReached),

    /// They reach more states than the limit, before any is wrong.
    TooMany,
}
