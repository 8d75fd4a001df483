//! Whether an instruction can be issued, whatever it is.

ghost use Rattle.std.specs.Prelude.{◌≡◌, true, not};
ghost use Rattle.cf_bind.specs.declared.moves.Move.TheVariants as mv;
ghost use Rattle.cf_bind.specs.declared.passenger.Guess.TheVariants as guess;
ghost use Rattle.cf_semantics.specs.state.Options.{is_some};
ghost use Rattle.cf_stages.specs.Changes.{passenger_at};
ghost use Rattle.cf_index.specs.Allowed.{is_allowed, issues_any, is_running as runs};
ghost use Rattle.cf_index.specs.Words.{goes_on};

use crate::stages::know_stages;
use cf_bind::Fetch;
use cf_core::Core;
use cf_stages::has_bit;

/// Whether fetch runs at an address.
#[inline(always)]
pub(crate) fn is_running(fetch: Fetch) -> bool
    ensures { result ≡ runs fetch }
{
    matches!(fetch, Fetch::Running(_))
}

/// Whether the lowest stage has no instruction.
#[inline(always)]
pub(crate) fn is_lowest_free(core: &Core) -> bool
    ensures { result ≡ not (is_some (passenger_at core.now.state.cells 1)) }
{
    know_stages(core);
    let masks = core.masks();
    !has_bit(masks.passengers, 1)
}

/// Whether an instruction can be issued with the guess Next, whatever it is, given whether the processor goes on: it does,
/// fetch runs, the lowest stage has no instruction, and the lane has room for two requests, the most of an instruction.
/// Nothing is decoded.
#[inline(always)]
#[tactic(auto, using(crate::proofs::AnyIssue::any_allowed))]
pub(crate) fn issues_any(core: &Core, on: bool) -> bool
    requires { on ≡ goes_on core.now.state }
    ensures value { result ≡ issues_any core.now.plan core.now.state }
    ensures allowed { result ≡ true → is_allowed core.now.plan core.now.state (mv.Issue guess.Next) ≡ true }
{
    know_stages(core);
    let has_room = core.lane_len() + 1 < core.layout().lane();
    let is_running = is_running(core.fetch());
    let is_free = is_lowest_free(core);
    on && is_running && is_free && has_room
}
