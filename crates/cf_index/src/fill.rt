//! Computing the candidates from a processor.

ghost use Rattle.std.specs.Prelude.{◌≡◌, filter, true};
ghost use Rattle.cf_semantics.specs.moves.Candidates.{candidates, slides_from};
ghost use Rattle.cf_core.specs.Masks.{masks_of};
ghost use Rattle.cf_index.specs.Allowed.{all_entering, all_leaving, all_passing, is_allowed, passing_of, withheld};
ghost use Rattle.cf_index.specs.GuessRules.{guided, keeps_move};
ghost use Rattle.cf_index.specs.Words.{goes_on as is_going};
ghost use Rattle.cf_index.specs.Listed.{entering_moves, leaving_moves, passing_moves, slides_of};

use crate::candidates::Candidates;
use crate::entering::Entering;
use crate::guiding::guided;
use crate::idle::accesses;
use crate::leaving::Leaving;
use crate::passing::Passing;
use crate::pipe_ends::{exits, leaves_among, serves_among};
use crate::stages::{
    climbs_among, executes, falls, goes_on, know_stages, launches, meets, sends, stages,
};
use cf_core::{Core, Masks};
use run_options::GuessRule;

/// The cells from which Slide is allowed.
#[inline(always)]
pub(crate) fn slides(core: &Core) -> u64
    ensures { slides_of result ≡ filter (is_allowed core.now.plan core.now.state) (slides_from 0 core.now.plan.sidings) }
{
    let _layout = core.layout();
    core.slides()
}

/// The candidates by which something enters; of the Issues, those that the guess rule keeps.
#[inline(always)]
#[tactic(auto, unfolding(crate::specs::Listed::entering_moves))]
fn entering(core: &Core, rule: GuessRule) -> Entering
    ensures { entering_moves result ≡ filter (keeps_move rule core.now.plan core.now.state) (filter (is_allowed core.now.plan core.now.state) all_entering) }
{
    let issuable = guided(core, rule);
    Entering {
        next: issuable.next,
        taken: issuable.taken,
        wait: issuable.wait,
        emit: core.may_emit(),
    }
}

/// The words of the candidates within the stages, given the number of stages and whether the processor goes on.
#[inline(always)]
pub(crate) fn passing_words(core: &Core, masks: &Masks, stages: u32, on: bool) -> Passing
    requires stages { stages ≡ core.now.plan.stages }
    requires on { on ≡ is_going core.now.state }
    requires masks { masks.now ≡ masks_of core.now.plan core.now.state }
    ensures { result ≡ passing_of core.now.plan core.now.state }
{
    Passing {
        climb: climbs_among(core, masks, stages, on),
        fall: falls(core, masks, on),
        meet: meets(core, masks, on),
        execute: executes(core, masks),
        send: sends(core, masks, on),
        launch: launches(core, masks),
    }
}

/// The candidates within the stages, given the number of these and whether the processor goes on.
#[inline(always)]
pub(crate) fn passing_if(core: &Core, masks: &Masks, stages: u32, on: bool) -> Passing
    requires stages { stages ≡ core.now.plan.stages }
    requires on { on ≡ is_going core.now.state }
    requires masks { masks.now ≡ masks_of core.now.plan core.now.state }
    ensures { passing_moves result ≡ filter (is_allowed core.now.plan core.now.state) (all_passing core.now.plan) }
{
    know_stages(core);
    passing_words(core, masks, stages, on)
}

/// The candidates within the stages.
#[inline(always)]
pub(crate) fn passing(core: &Core, masks: &Masks) -> Passing
    requires { masks.now ≡ masks_of core.now.plan core.now.state }
    ensures { passing_moves result ≡ filter (is_allowed core.now.plan core.now.state) (all_passing core.now.plan) }
{
    passing_if(core, masks, stages(core), goes_on(core))
}

/// The candidates by which something leaves.
#[inline(always)]
pub(crate) fn leaving(core: &Core, masks: &Masks) -> Leaving
    requires { masks.now ≡ masks_of core.now.plan core.now.state }
    ensures { leaving_moves result ≡ filter (is_allowed core.now.plan core.now.state) (all_leaving core.now.plan) }
{
    know_stages(core);
    Leaving {
        access: accesses(core),
        recover: masks.recover,
        leave: core.may_leave(),
        exit: core.may_exit(),
        serve: core.may_serve(),
    }
}

/// The candidates by which something leaves, of a processor that goes on, given the number of stages.
#[inline(always)]
pub(crate) fn open_leaving(core: &Core, masks: &Masks, stages: u32) -> Leaving
    requires stages { stages ≡ core.now.plan.stages }
    requires on { is_going core.now.state ≡ true }
    requires masks { masks.now ≡ masks_of core.now.plan core.now.state }
    ensures { leaving_moves result ≡ filter (is_allowed core.now.plan core.now.state) (all_leaving core.now.plan) }
{
    know_stages(core);
    Leaving {
        access: accesses(core),
        recover: masks.recover,
        leave: leaves_among(core, masks, stages),
        exit: exits(core, masks),
        serve: serves_among(core, stages),
    }
}

impl Candidates {
    /// The moves that are allowed now and that the guess rule keeps, with Issue held back or not.
    #[inline(always)]
    pub fn of(core: &Core, rule: GuessRule, held: bool) -> Candidates
        ensures { result ≡ withheld held (guided rule core.now.plan core.now.state) }
    {
        let masks = core.masks();
        let entering = entering(core, rule);
        let passing = passing(core, &masks);
        let slides = slides(core);
        let leaving = leaving(core, &masks);
        let candidates = Candidates {
            entering,
            passing,
            slides,
            leaving,
        };
        candidates.held_if(held)
    }

    /// Them without each Issue, if it is held back and there is another candidate.
    #[inline(always)]
    fn held_if(self, held: bool) -> Candidates
        ensures { result ≡ withheld held self }
    {
        let mut candidates = self;
        if held {
            candidates.hold();
        }
        candidates
    }

    /// Replaces them by the moves that are allowed now.
    #[inline(always)]
    pub fn fill(&mut self, core: &Core)
        ensures { self.new ≡ candidates core.now.plan core.now.state }
    {
        self.fill_by(core, GuessRule::Any);
    }

    /// Replaces them by the moves that are allowed now and that the guess rule keeps.
    #[inline(always)]
    pub fn fill_by(&mut self, core: &Core, rule: GuessRule)
        ensures { self.new ≡ guided rule core.now.plan core.now.state }
    {
        let masks = core.masks();
        self.entering = entering(core, rule);
        self.passing = passing(core, &masks);
        self.slides = slides(core);
        self.leaving = leaving(core, &masks);
    }
}
