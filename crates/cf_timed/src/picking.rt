//! The move that finishes earliest of those that are offered.

ghost use Rattle.std.specs.Prelude.{◌≡◌, ◌<◌, None, Some, length, slice_get};
ghost use Rattle.cf_sched.specs.Paces.{offered_by, offers};
ghost use Rattle.cf_timed.specs.Clocks.{capped, clocked};
ghost use Rattle.cf_timed.specs.DueMoves.{AreDue, IsLeft};
ghost use Rattle.cf_timed.specs.Earliest.{first_least};
ghost use Rattle.cf_timed.specs.Soonest.{IsSoonest};

use crate::clock::Clock;
use crate::due_moves::DueMoves;
use crate::least::Least;
use crate::soonest::Due;
use cf_bind::Move;
use cf_core::Core;
use cf_index::Candidates;
use cf_sched::Pace;

impl Clock {
    /// The first of the candidates that finish earliest.
    #[inline(always)]
    fn first_least(&self, core: &Core, candidates: &Candidates) -> Move
        requires { 0 < length candidates.now }
        ensures { Some result ≡ slice_get candidates.now (first_least (capped (clocked self.now core.now.state)) candidates.now) }
    {
        let mut least = Least::new(self, core);
        // Their number fits, so the index cannot overflow.
        let _count = candidates.len();
        candidates.visit(&mut least);
        // If no time is below the maximum `u64`, all are equal.
        if least.time < u64::MAX {
            least.mv
        } else {
            candidates.pick(0)
        }
    }

    /// The first of the offered moves that finish earliest; `candidates` is filled in for it.
    #[inline(never)]
    fn earliest_filled(&self, core: &Core, candidates: &mut Candidates, pace: &Pace) -> Due
        requires { 0 < length (offers pace.now core.now.plan core.now.state) }
        ensures { IsSoonest (clocked self.now core.now.state) (offers pace.now core.now.plan core.now.state) result }
    {
        pace.offer(core, candidates);
        let mv = self.first_least(core, candidates);
        self.timed(core, mv)
    }

    /// The first of the offered moves that finish earliest.
    #[inline(always)]
    #[tactic(auto, using(crate::proofs::DueMoves::left_all, crate::proofs::Sooner::soonest_offered))]
    fn earliest_offered(
        &self,
        core: &Core,
        candidates: &mut Candidates,
        pace: &Pace,
        kept: &mut DueMoves,
    ) -> Due
        requires plan { self.now.plan ≡ core.now.plan }
        requires some { 0 < length (offers pace.now core.now.plan core.now.state) }
        requires due { AreDue core.now.plan (clocked self.now core.now.state) kept.old }
        ensures soonest { IsSoonest (clocked self.now core.now.state) (offers pace.now core.now.plan core.now.state) result }
        ensures left { IsLeft core.now.plan (clocked self.now core.now.state) kept.new result.mv }
    {
        match self.soonest(core, pace.rule(), pace.held(), kept) {
            Some(due) => due,
            None => {
                // Its fields are copied one by one, so that what is picked as a rule need not go through memory.
                let filled = self.earliest_filled(core, candidates, pace);
                Due {
                    mv: filled.mv,
                    delay: filled.delay,
                    time: filled.time,
                }
            }
        }
    }

    /// The first of the offered moves that finish earliest, by the pace of a processor with as many stages.
    #[inline(always)]
    #[tactic(auto, using(cf_run::proofs::Stopped::offering))]
    pub(crate) fn earliest(
        &self,
        core: &Core,
        candidates: &mut Candidates,
        pace: &Pace,
        kept: &mut DueMoves,
    ) -> Due
        requires plan { self.now.plan ≡ core.now.plan }
        requires stages { pace.now.stages ≡ core.now.plan.stages }
        requires some { 0 < length (offered_by pace.now.rule core.now.plan pace.now.count core.now.state) }
        requires due { AreDue core.now.plan (clocked self.now core.now.state) kept.old }
        ensures soonest { IsSoonest (clocked self.now core.now.state) (offered_by pace.now.rule core.now.plan pace.now.count core.now.state) result }
        ensures left { IsLeft core.now.plan (clocked self.now core.now.state) kept.new result.mv }
    {
        self.earliest_offered(core, candidates, pace, kept)
    }
}
