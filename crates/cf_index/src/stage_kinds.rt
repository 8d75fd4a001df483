//! The kinds of moves that a sweep lists stage by stage: the stages at which such a move is left are a word that is made
//! once, and changed after each move.

ghost use Rattle.std.specs.Prelude.{◌≡◌, ℕ, ◌-◌, ◌≤◌, Bool, List, Some, true};
ghost use Rattle.run_options.specs.declared.guess_rule.GuessRule.{GuessRule};
ghost use Rattle.cf_bind.specs.declared.moves.Move.{Move as Step};
ghost use Rattle.cf_bind.specs.declared.moves.Move.TheVariants as mv;
ghost use Rattle.cf_layout.specs.Layout.{Plan};
ghost use Rattle.cf_semantics.specs.state.State.{State};
ghost use Rattle.cf_core.specs.Climbing.{ClimbsTo, climbed};
ghost use Rattle.cf_core.specs.Processors.{IsProcessor, Processor};
ghost use Rattle.cf_index.specs.Left.{AreLeft, IsLowest, IsMadeAt};
ghost use Rattle.cf_index.specs.Order.{kind_place};
ghost use Rattle.cf_index.specs.Words.{goes_on};
ghost use Rattle.cf_index.specs.PickedFrom.{IsPickedFrom, from_climb, from_execute, from_fall, from_launch, from_leave, from_meet, from_recover, from_send, left_then, outward_on};

use crate::stages::{climbs, executes, falls, know_stages, launches, meets, sends};
use crate::words::{past, resting, with_next, without_lowest};
use cf_bind::Move;
use cf_core::Core;

/// A kind of move that a sweep lists stage by stage: Fall, Meet, Execute, Send, Launch or Recover.
pub trait StageKind {
    /// The move of this kind at a stage.
    ghost at_stage: { ℕ → Step };

    /// What is allowed of this kind and of those after it.
    ghost from: { Plan → State → List Step };

    /// What is allowed of the kinds after it.
    ghost beyond: { Plan → State → List Step };

    /// The move at the stage.
    fn at(i: u32) -> Move
        ensures value { result ≡ at_stage i }
        ensures after { 1 ≤ kind_place result }
        ensures before { kind_place result ≤ 10 }
        ensures picked { (rule : GuessRule) (held : Bool) (plan : Plan) (s : State) (w : ℕ) → plan.stages ≤ 32 → AreLeft plan s i at_stage w →
            IsPickedFrom rule held plan s (Some result) (left_then at_stage w beyond plan s) };

    /// The stages at which the move is allowed, as a word with bit i - 1 for stage i.
    fn left(core: &Core) -> u32
        requires { goes_on core.now.state ≡ true }
        ensures stages { AreLeft core.now.plan core.now.state 0 at_stage result }
        ensures listed { left_then at_stage result beyond core.now.plan core.now.state ≡ from core.now.plan core.now.state };

    /// The stages that are left after the move was made at the first of them.
    fn left_after(core: &Core, i: u32, left: u32) -> u32
        requires { goes_on core.now.state ≡ true }
        ensures { (old : State) (a : ℕ) → IsProcessor core.now.plan old → IsMadeAt core.now.plan old core.now.state a at_stage left i →
            AreLeft core.now.plan core.now.state i at_stage result };
}

/// Fall, by stage.
pub struct FallKind;

/// Meet, by stage.
pub struct MeetKind;

/// Execute, by stage.
pub struct ExecuteKind;

/// Send, by stage.
pub struct SendKind;

/// Launch, by stage.
pub struct LaunchKind;

/// Recover, by stage.
pub struct RecoverKind;

impl StageKind for FallKind {
    ghost at_stage = { mv.Fall };

    ghost from = { from_fall };

    ghost beyond = { from_meet };

    #[inline(always)]
    #[tactic(auto, using(crate::proofs::PickedFrom::fallen_on))]
    fn at(i: u32) -> Move {
        Move::Fall(i)
    }

    #[inline(always)]
    #[tactic(auto, using(crate::proofs::PickedFrom::listing), unfolding(crate::specs::Allowed::passing_of))]
    fn left(core: &Core) -> u32 {
        let masks = core.open_masks();
        falls(core, &masks, true)
    }

    // The stage that the result has left has none now, so the result of the stage above can fall to it.
    #[inline(always)]
    fn left_after(core: &Core, _stage: u32, left: u32) -> u32 {
        know_stages(core);
        let masks = core.open_masks();
        with_next(left, resting(&masks))
    }
}

impl StageKind for MeetKind {
    ghost at_stage = { mv.Meet };

    ghost from = { from_meet };

    ghost beyond = { from_execute };

    #[inline(always)]
    #[tactic(auto, using(crate::proofs::PickedFrom::met_on))]
    fn at(i: u32) -> Move {
        Move::Meet(i)
    }

    #[inline(always)]
    #[tactic(auto, using(crate::proofs::PickedFrom::listing), unfolding(crate::specs::Allowed::passing_of))]
    fn left(core: &Core) -> u32 {
        let masks = core.open_masks();
        meets(core, &masks, true)
    }

    #[inline(always)]
    fn left_after(_core: &Core, _stage: u32, left: u32) -> u32 {
        without_lowest(left)
    }
}

impl StageKind for ExecuteKind {
    ghost at_stage = { mv.Execute };

    ghost from = { from_execute };

    ghost beyond = { from_send };

    #[inline(always)]
    #[tactic(auto, using(crate::proofs::PickedFrom::executed_on))]
    fn at(i: u32) -> Move {
        Move::Execute(i)
    }

    #[inline(always)]
    #[tactic(auto, using(crate::proofs::PickedFrom::listing), unfolding(crate::specs::Allowed::passing_of))]
    fn left(core: &Core) -> u32 {
        let masks = core.open_masks();
        executes(core, &masks)
    }

    #[inline(always)]
    fn left_after(_core: &Core, _stage: u32, left: u32) -> u32 {
        without_lowest(left)
    }
}

impl StageKind for SendKind {
    ghost at_stage = { mv.Send };

    ghost from = { from_send };

    ghost beyond = { from_launch };

    #[inline(always)]
    #[tactic(auto, using(crate::proofs::PickedFrom::sent_on))]
    fn at(i: u32) -> Move {
        Move::Send(i)
    }

    #[inline(always)]
    #[tactic(auto, using(crate::proofs::PickedFrom::listing), unfolding(crate::specs::Allowed::passing_of))]
    fn left(core: &Core) -> u32 {
        let masks = core.open_masks();
        sends(core, &masks, true)
    }

    #[inline(always)]
    fn left_after(_core: &Core, _stage: u32, left: u32) -> u32 {
        without_lowest(left)
    }
}

impl StageKind for LaunchKind {
    ghost at_stage = { mv.Launch };

    ghost from = { from_launch };

    ghost beyond = { outward_on };

    #[inline(always)]
    #[tactic(auto, using(crate::proofs::PickedFrom::launched_on))]
    fn at(i: u32) -> Move {
        Move::Launch(i)
    }

    #[inline(always)]
    #[tactic(auto, using(crate::proofs::PickedFrom::listing), unfolding(crate::specs::Allowed::passing_of))]
    fn left(core: &Core) -> u32 {
        let masks = core.open_masks();
        launches(core, &masks)
    }

    // The siding that the operation has entered may be that of another stage too.
    #[inline(always)]
    fn left_after(core: &Core, i: u32, _left: u32) -> u32 {
        past(Self::left(core), i)
    }
}

impl StageKind for RecoverKind {
    ghost at_stage = { mv.Recover };

    ghost from = { from_recover };

    ghost beyond = { from_leave };

    #[inline(always)]
    #[tactic(auto, using(crate::proofs::PickedFrom::recovered_on))]
    fn at(i: u32) -> Move {
        Move::Recover(i)
    }

    #[inline(always)]
    #[tactic(auto, using(crate::proofs::LeftStages::left_all, crate::proofs::PickedFrom::all_recovers), unfolding(cf_core::specs::Masks::masks_of))]
    fn left(core: &Core) -> u32 {
        know_stages(core);
        let masks = core.open_masks();
        masks.recover
    }

    // The siding that the operation has left may be that of another stage too.
    #[inline(always)]
    fn left_after(core: &Core, i: u32, _left: u32) -> u32 {
        past(Self::left(core), i)
    }
}

/// The stages at which a Climb is allowed, as a word with bit i - 1 for stage i.
#[inline(always)]
#[tactic(auto, using(crate::proofs::PickedFrom::listing), unfolding(crate::specs::Allowed::passing_of))]
pub fn all_climbs(core: &Core) -> u32
    requires { goes_on core.now.state ≡ true }
    ensures stages { AreLeft core.now.plan core.now.state 0 mv.Climb result }
    ensures listed { left_then mv.Climb result from_fall core.now.plan core.now.state ≡ from_climb core.now.plan core.now.state }
{
    let masks = core.open_masks();
    climbs(core, &masks, true)
}

/// The Climbs that are left after the instruction of the lowest stage has climbed as far as it can.
#[inline(always)]
#[tactic(auto, using(crate::proofs::LeftClimbs::left_climbs))]
pub fn climbs_left(i: u32, left: u32) -> u32
    requires { IsLowest left i }
    ensures { (p : Processor) (j a : ℕ) → AreLeft p.plan p.state a mv.Climb left → IsProcessor p.plan p.state → ClimbsTo p i j →
        AreLeft p.plan (climbed p i (j - i)).state (j - 1) mv.Climb result }
{
    let _stage = i;
    without_lowest(left)
}
