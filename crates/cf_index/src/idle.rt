//! Whether the sidings hold no operation. Then none of the moves by which an operation goes through them is allowed.

ghost use Rattle.std.specs.List.{list_any};
ghost use Rattle.std.specs.Prelude.{◌≡◌, ℕ, false, not, true};
ghost use Rattle.cf_semantics.specs.state.Options.{is_some};
ghost use Rattle.cf_semantics.specs.state.State.{siding_at};
ghost use Rattle.cf_bind.specs.declared.moves.Move.TheVariants as mv;
ghost use Rattle.cf_index.specs.Allowed.{is_allowed};
ghost use Rattle.cf_index.specs.PickedFrom.{from_leave, outward_on};

use crate::candidates::Candidates;
use cf_core::Core;

/// Whether no siding has an operation.
#[inline(always)]
#[tactic(auto, using(crate::proofs::EmptySidings::all_empty))]
pub(crate) fn are_empty(core: &Core) -> bool
    ensures empty { result ≡ not (list_any (list_any is_some) core.now.state.sidings) }
    ensures each { result ≡ true → (k : ℕ) → list_any is_some (siding_at core.now.state k) ≡ false }
{
    !core.holds_operations()
}

/// Whether Access is allowed. Where the sidings are empty nothing else is looked at.
#[inline(always)]
pub(crate) fn accesses(core: &Core) -> bool
    ensures { result ≡ is_allowed core.now.plan core.now.state mv.Access }
{
    if are_empty(core) {
        false
    } else {
        core.may_access()
    }
}

impl Candidates {
    /// Whether no siding has an operation. Then of the moves after those over the stages only Leave, Exit and Serve can be
    /// allowed.
    #[inline(always)]
    #[tactic(auto, using(crate::proofs::EmptySidings::idle_outward))]
    pub fn sidings_empty(core: &Core) -> bool
        ensures empty { result ≡ not (list_any (list_any is_some) core.now.state.sidings) }
        ensures skips { result ≡ true → from_leave core.now.plan core.now.state ≡ outward_on core.now.plan core.now.state }
    {
        are_empty(core)
    }
}
