//! The laws of guess rules.

ghost use Rattle.std.specs.Prelude.{◌≡◌, ◌<◌, ◌∷◌, ◌++◌, [], ℕ, length};
ghost use Rattle.run_options.specs.declared.guess_rule.GuessRule.{GuessRule};
ghost use Rattle.run_options.specs.declared.guess_rule.GuessRule.TheVariants as rules;
ghost use Rattle.cf_bind.specs.declared.moves.Move.TheVariants.{Issue};
ghost use Rattle.cf_layout.specs.Layout.{Plan};
ghost use Rattle.cf_semantics.specs.moves.Candidates.{candidates};
ghost use Rattle.cf_semantics.specs.moves.Holding.{offered};
ghost use Rattle.cf_semantics.specs.state.State.{State};
ghost use Rattle.cf_index.specs.Allowed.{allowed_issues, allowed_others, kept_issues};
ghost use Rattle.cf_index.specs.GuessRules.{guess_at, guided};
ghost use Rattle.cf_sched.specs.Paces.{offered_by};

/// A guess rule keeps each candidate that is not an Issue. If an Issue is a candidate, it keeps exactly one, by its
/// guess for what fetch runs at; `Any` keeps each. So a move is offered if one is under `Any`.
pub fn guess_rules()
    ensures parts { (plan : Plan) (s : State) → candidates plan s ≡ allowed_issues plan s ++ allowed_others plan s }
    ensures left { (r : GuessRule) (plan : Plan) (s : State) → guided r plan s ≡ kept_issues r plan s ++ allowed_others plan s }
    ensures one { (r : GuessRule) (plan : Plan) (s : State) → (r ≡ rules.Any → ⊥) → 0 < length (allowed_issues plan s) →
        kept_issues r plan s ≡ Issue (guess_at r plan s) ∷ [] }
    ensures any { (plan : Plan) (count : ℕ) (s : State) → offered_by rules.Any plan count s ≡ offered plan count s }
    ensures some { (r : GuessRule) (plan : Plan) (count : ℕ) (s : State) → 0 < length (offered plan count s) →
        0 < length (offered_by r plan count s) }
{}
