//! The laws of the table without a rule, each the contract of a function that does nothing.

ghost use Rattle.order_model.specs.RuleClaims.{HasTheBars, HasTheMoves, BarsNoMore, IsBarredByTheRule};

/// If no rule is taken away, the table without a rule is the table.
#[tactic(auto, using(crate::proofs::Unchanged::unchanged))]
pub fn the_table_itself()
    ensures bars { HasTheBars }
    ensures moves { HasTheMoves }
{}

/// Taking a rule away bars nothing, and allows only what the rule barred.
#[tactic(auto, using(crate::proofs::Lifted::lifting))]
pub fn allows_what_it_barred()
    ensures less { BarsNoMore }
    ensures rule { IsBarredByTheRule }
{}
