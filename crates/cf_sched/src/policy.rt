//! Policies: they pick the next move of a run.

ghost use Rattle.std.specs.Prelude.{◌≡◌, ℕ, ◌<◌, List, Some, length, slice_get};
ghost use Rattle.cf_bind.specs.declared.moves.Move.{Move as Step};
ghost use Rattle.cf_sched.specs.Paces.{offers};

use crate::pace::Pace;
use cf_bind::Move;
use cf_core::Core;
use cf_index::Candidates;

/// Picks one candidate after another. The pick, and the policy's next state, depend only on the policy's state and on
/// the list of candidates.
pub trait Policy {
    /// The index of its pick in the list.
    ghost picked: { Self → List Step → ℕ };

    /// The policy after the pick.
    ghost onward: { Self → List Step → Self };

    /// Picks one of the candidates, by its index.
    fn pick(&mut self, candidates: &Candidates) -> usize
        requires { 0 < length candidates.now }
        ensures within { result < length candidates.now }
        ensures picked { result ≡ picked self.old candidates.now }
        ensures onward { self.new ≡ onward self.old candidates.now };

    /// Picks one of the moves that a processor offers under the guess rule and the hold rule. Nothing is promised about
    /// the contents of `candidates` afterwards, so a policy that needs few of them need not fill in all.
    #[inline(always)]
    fn choose(&mut self, core: &Core, candidates: &mut Candidates, pace: &Pace) -> Move
        requires { 0 < length (offers pace.now core.now.plan core.now.state) }
        ensures choice { Some result ≡ slice_get (offers pace.now core.now.plan core.now.state)
            (picked self.old (offers pace.now core.now.plan core.now.state)) }
        ensures onward { self.new ≡ onward self.old (offers pace.now core.now.plan core.now.state) }
    {
        pace.offer(core, candidates);
        let place = self.pick(candidates);
        candidates.pick(place)
    }
}
