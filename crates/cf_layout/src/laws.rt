//! The laws of layouts, each the contract of a function that does nothing.

ghost use Rattle.std.specs.Prelude.{◌≡◌, None};
ghost use Rattle.cf_layout.specs.declared.parts.Parts.{Parts as Asked};
ghost use Rattle.cf_layout.specs.Asked.{plan_of};
ghost use Rattle.cf_layout.specs.Accepted.{IsEquipped, IsAccepted};
ghost use Rattle.cf_layout.specs.Acceptable.{AreComputed, AreEquipped, IsAcceptable};
ghost use Rattle.cf_layout.specs.Refusal.{loose_refusal, first_refusal, beside_control};

/// The tests, in their order, refuse the parts if and only if these are not acceptable.
#[tactic(auto, using(crate::proofs::Acceptance::acceptable, crate::proofs::Unrefused::not_refused))]
pub fn refused_unless_acceptable()
    ensures acceptable { (parts : Asked) → first_refusal parts ≡ None → IsAcceptable parts }
    ensures not_refused { (parts : Asked) → IsAcceptable parts → first_refusal parts ≡ None }
{}

/// The layout that acceptable parts describe is accepted.
#[tactic(auto, using(crate::proofs::Control::described))]
pub fn acceptable_describe_accepted()
    ensures { (parts : Asked) → AreComputed parts → IsAcceptable parts → IsAccepted (plan_of parts) }
{}

/// The layout that equipped parts describe is equipped.
#[tactic(auto, using(crate::proofs::Control::described_equipped))]
pub fn equipped_describe_equipped()
    ensures { (parts : Asked) → AreComputed parts → AreEquipped parts → IsEquipped (plan_of parts) }
{}

/// The tests before the last refuse as all tests do, unless that is because of where control turns.
#[tactic(auto, using(crate::proofs::Beside::loosely))]
pub fn refused_loosely()
    ensures { (parts : Asked) → loose_refusal parts ≡ beside_control (first_refusal parts) }
{}
