//! The laws of the names of rules, the contract of a function that does nothing.

ghost use Rattle.order_rules.specs.NameClaims.{AreNamed, IsNamedOnce};

/// A text names a rule if and only if it is the name of that rule.
#[tactic(auto, using(crate::proofs::Named::naming))]
pub fn named_by_name()
    ensures named { AreNamed }
    ensures once { IsNamedOnce }
{}
