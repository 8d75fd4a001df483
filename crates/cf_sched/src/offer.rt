//! What a policy is offered.

ghost use Rattle.std.specs.Prelude.{◌≡◌, ℕ};
ghost use Rattle.run_options.specs.declared.guess_rule.GuessRule.{GuessRule as Rule};
ghost use Rattle.cf_sched.specs.Paces.{HasCounted, offered_by, offers};

use crate::pace::Pace;
use cf_core::Core;
use cf_index::Candidates;

impl Pace {
    /// Fills in the candidates of the processor that the guess rule keeps, without Issue if it is held back.
    #[inline(always)]
    #[tactic(auto, unfolding(crate::specs::Paces::offers))]
    pub fn offer(&self, core: &Core, candidates: &mut Candidates)
        ensures value { candidates.new ≡ offers self.now core.now.plan core.now.state }
        ensures offered { (r : Rule) (count : ℕ) → HasCounted r core.now.plan.stages count self.now → candidates.new ≡ offered_by r core.now.plan count core.now.state }
    {
        candidates.fill_by(core, self.rule());
        if self.held() {
            candidates.hold();
        }
    }
}
