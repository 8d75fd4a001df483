//! The rules by which Issue is offered: with which guess, and when it is held back.

ghost use Rattle.std.specs.Prelude.{◌≡◌, ℕ};
ghost use Rattle.cf_semantics.specs.moves.Holding.{is_held, is_retirement, paced};
ghost use Rattle.run_options.specs.declared.guess_rule.GuessRule.{GuessRule as Rule};
ghost use Rattle.cf_layout.specs.Layout.{Plan};
ghost use Rattle.cf_semantics.specs.claims.Weight.{is_issue};
ghost use Rattle.cf_sched.specs.Paces.{HasCounted, holds_issue, saw};

use cf_bind::Move;
use cf_semantics::Event;
use run_options::GuessRule;
use std::marker::Model;

/// Keeps the guess rule, and counts the Issue moves since the start, the last retirement, or the last drained state,
/// whichever is latest. When there are twice as many as stages, Issue is held back. The count stops there, so it cannot
/// overflow.
#[derive(Drop)]
pub struct Pace {
    rule: GuessRule,
    stages: u32,
    count: u64,
}

impl Model for Pace {
    ghost use Rattle.std.specs.Prelude.{◌≤◌, ◌*◌};
    ghost use Rattle.cf_sched.specs.Paces.{PaceCount};

    ghost Value = { PaceCount };

    ghost view = { λ p. record { rule = p.rule; stages = p.stages; count = p.count } };

    ghost invariant = { λ p. p.count ≤ 2 * p.stages };
}

/// Whether an instruction retired.
#[inline(always)]
fn is_retirement(event: &Event) -> bool
    ensures { result ≡ is_retirement event.now }
{
    matches!(event, Event::Retired(_))
}

/// Whether the move is an Issue.
#[inline(always)]
fn is_issue(mv: Move) -> bool
    ensures { result ≡ is_issue mv }
{
    matches!(mv, Move::Issue(_))
}

impl Pace {
    /// A pace that has counted no Issue.
    pub fn new(rule: GuessRule, stages: u32) -> Pace
        ensures { HasCounted rule stages 0 result }
    {
        Pace {
            rule,
            stages,
            count: 0,
        }
    }

    /// The guess rule.
    #[inline(always)]
    pub fn rule(&self) -> GuessRule
        ensures { result ≡ self.now.rule }
    {
        self.rule
    }

    /// Whether Issue is held back.
    #[inline(always)]
    pub fn held(&self) -> bool
        ensures value { result ≡ holds_issue self.now }
        ensures held { (r : Rule) (plan : Plan) (count : ℕ) → HasCounted r plan.stages count self.now → result ≡ is_held plan count }
    {
        2 * self.stages as u64 <= self.count
    }

    /// Records a move: its event, and whether the state after it is drained.
    #[inline(always)]
    #[tactic(auto, unfolding(cf_semantics::specs::moves::Holding::paced))]
    pub fn saw(&mut self, mv: Move, event: &Event, drained: bool)
        ensures value { self.new ≡ saw self.old mv event.now drained }
        ensures counted { (r : Rule) (stages count : ℕ) → HasCounted r stages count self.old → HasCounted r stages (paced count mv event.now drained) self.new }
    {
        if is_retirement(event) || drained {
            self.count = 0;
        } else if is_issue(mv) {
            self.count = (self.count + 1).min(2 * self.stages as u64);
        }
    }
}
