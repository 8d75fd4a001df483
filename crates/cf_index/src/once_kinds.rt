//! The kinds of moves that have one move alone, since it has no stage, and by which nothing leaves the processor: Emit and Access.

ghost use Rattle.std.specs.Prelude.{◌≡◌, ◌≤◌, Bool, List, Some, false, slice_get, true};
ghost use Rattle.run_options.specs.declared.guess_rule.GuessRule.{GuessRule};
ghost use Rattle.cf_bind.specs.declared.moves.Move.{Move as Step};
ghost use Rattle.cf_bind.specs.declared.moves.Move.TheVariants as mv;
ghost use Rattle.cf_layout.specs.Layout.{Plan};
ghost use Rattle.cf_semantics.specs.state.State.{State};
ghost use Rattle.cf_index.specs.Order.{kind_place};
ghost use Rattle.cf_index.specs.Words.{goes_on};
ghost use Rattle.cf_index.specs.PickedFrom.{IsPickedFrom, from_access, from_climb, from_emit, from_recover};

use crate::pipe_ends::emits;
use cf_bind::Move;
use cf_core::Core;

/// A kind that has one move alone: Emit or Access.
pub trait OnceKind {
    /// The move of this kind.
    ghost only_move: { Step };

    /// What is allowed of this kind and of those after it.
    ghost from: { Plan → State → List Step };

    /// What is allowed of the kinds after it.
    ghost beyond: { Plan → State → List Step };

    /// The move of this kind.
    fn only() -> Move
        ensures value { result ≡ only_move }
        ensures after { 1 ≤ kind_place result }
        ensures before { kind_place result ≤ 10 }
        ensures picked { (rule : GuessRule) (held : Bool) (plan : Plan) (s : State) → plan.stages ≤ 32 → IsPickedFrom rule held plan s (Some result) (beyond plan s) };

    /// Whether the move is allowed.
    fn is_left(core: &Core) -> bool
        requires { goes_on core.now.state ≡ true }
        ensures here { result ≡ true → slice_get (from core.now.plan core.now.state) 0 ≡ Some only_move }
        ensures gone { result ≡ false → beyond core.now.plan core.now.state ≡ from core.now.plan core.now.state };
}

/// Emit.
pub struct EmitKind;

/// Access.
pub struct AccessKind;

impl OnceKind for EmitKind {
    ghost only_move = { mv.Emit };

    ghost from = { from_emit };

    ghost beyond = { from_climb };

    #[inline(always)]
    #[tactic(auto, using(crate::proofs::PickedFrom::emitted_on))]
    fn only() -> Move {
        Move::Emit
    }

    #[inline(always)]
    #[tactic(auto, using(crate::proofs::PickedFrom::emitting))]
    fn is_left(core: &Core) -> bool {
        let masks = core.open_masks();
        emits(core, &masks)
    }
}

impl OnceKind for AccessKind {
    ghost only_move = { mv.Access };

    ghost from = { from_access };

    ghost beyond = { from_recover };

    #[inline(always)]
    #[tactic(auto, using(crate::proofs::PickedFrom::accessed_on))]
    fn only() -> Move {
        Move::Access
    }

    #[inline(always)]
    #[tactic(auto, using(crate::proofs::PickedFrom::accessing))]
    fn is_left(core: &Core) -> bool {
        core.may_access()
    }
}
