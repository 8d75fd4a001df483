//! The laws of all orders, each the contract of a function that does nothing.

ghost use Rattle.order_claims.specs.Claims.{NoneIsWrong, OrdersEnd, RetiresWhatWasIssued};

/// If no rule is taken away, no list of moves is wrong, whatever the limit on its Issue moves.
#[tactic(auto, using(crate::proofs::NoneWrong::judging))]
pub fn no_order_is_wrong()
    ensures { NoneIsWrong }
{}

/// Whichever rule is taken away, no list of moves retires more instructions than it issues.
#[tactic(auto, using(crate::proofs::Held::holding))]
pub fn retires_no_more_than_issued()
    ensures { RetiresWhatWasIssued }
{}

/// Whichever rule is taken away, lists of moves end: for each moment there is a number that no list from there exceeds
/// in length.
#[tactic(auto, using(crate::proofs::ending::Ending::ending))]
pub fn orders_end()
    ensures { OrdersEnd }
{}
