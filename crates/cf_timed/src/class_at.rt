//! The class of the instruction that a move acts on.

ghost use Rattle.std.specs.Prelude.{◌≡◌};
ghost use Rattle.cf_semantics.specs.state.State.{cell_at};
ghost use Rattle.cf_timed.specs.DelayedRuns.{class_of_move, class_in};

use cf_bind::Move;
use cf_core::Core;
use rv_inst::{Class, class_of};

/// The class of the instruction in a stage; `Free` if there is none, or if nothing was decoded for it.
#[inline(always)]
#[tactic(auto, using(crate::proofs::Classes::past_stages), unfolding(crate::specs::DelayedRuns::class_in))]
fn class_in(core: &Core, i: u32) -> Class
    ensures { result ≡ class_in (cell_at core.now.state.cells i) }
{
    if i == 0 || core.layout().stages() < i {
        return Class::Free;
    }
    match core.stage(i).passenger {
        Some(passenger) => match passenger.what {
            Some(instr) => class_of(instr),
            None => Class::Free,
        },
        None => Class::Free,
    }
}

/// The class of the instruction that the move executes, launches or recovers; `Free` for any other move.
#[inline(always)]
#[tactic(auto, unfolding(crate::specs::DelayedRuns::class_of_move))]
pub(crate) fn class_at(core: &Core, mv: Move) -> Class
    ensures { result ≡ class_of_move core.now.state mv }
{
    match mv {
        Move::Execute(i) | Move::Launch(i) | Move::Recover(i) => class_in(core, i),
        Move::Issue(_)
        | Move::Emit
        | Move::Climb(_)
        | Move::Fall(_)
        | Move::Meet(_)
        | Move::Send(_)
        | Move::Slide(_, _)
        | Move::Access
        | Move::Leave
        | Move::Exit
        | Move::Serve => Class::Free,
    }
}
