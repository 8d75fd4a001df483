//! The first move over the stages that comes after another in the order of all moves. The word of a kind is computed only
//! when no kind before it has such a move.

ghost use Rattle.std.specs.Prelude.{◌≡◌, ℕ, ◌+◌, ◌&&◌, filter, find};
ghost use Rattle.cf_bind.specs.declared.moves.Move.TheVariants as mv;
ghost use Rattle.cf_layout.specs.Words.{has_bit};
ghost use Rattle.cf_core.specs.Masks.{masks_of};
ghost use Rattle.cf_index.specs.Allowed.{all_passing, is_allowed, passing_of};
ghost use Rattle.cf_index.specs.Allowed.{launch_on, send_on, execute_on, meet_on, fall_on, climb_on};
ghost use Rattle.cf_index.specs.Ranks.{is_past};
ghost use Rattle.cf_index.specs.Words.{goes_on as runs_on};

use crate::bits::lowest;
use crate::rank::{CLIMB, EXECUTE, FALL, LAUNCH, MEET, Rank, SEND};
use crate::stages::{climbs, executes, falls, goes_on, know_stages, launches, meets, sends};
use cf_bind::Move;
use cf_core::{Core, Masks};

/// The stages where a Climb comes after the rank.
// The word is made only if a Climb can be after the rank.
#[inline(always)]
pub(crate) fn climbs_after(core: &Core, masks: &Masks, last: Rank, on: bool) -> u32
    requires on { on ≡ runs_on core.now.state }
    requires masks { masks.now ≡ masks_of core.now.plan core.now.state }
    ensures { (k : ℕ) → has_bit result k ≡ (has_bit (passing_of core.now.plan core.now.state).climb k && is_past last (mv.Climb (k + 1))) }
{
    if last.kind > CLIMB {
        0
    } else {
        last.after(CLIMB, climbs(core, masks, on))
    }
}

/// The stages where a Fall comes after the rank.
// The word is made only if a Fall can be after the rank.
#[inline(always)]
pub(crate) fn falls_after(core: &Core, masks: &Masks, last: Rank, on: bool) -> u32
    requires on { on ≡ runs_on core.now.state }
    requires masks { masks.now ≡ masks_of core.now.plan core.now.state }
    ensures { (k : ℕ) → has_bit result k ≡ (has_bit (passing_of core.now.plan core.now.state).fall k && is_past last (mv.Fall (k + 1))) }
{
    if last.kind > FALL {
        0
    } else {
        last.after(FALL, falls(core, masks, on))
    }
}

/// The first Launch after the rank.
#[inline(always)]
fn next_launch(core: &Core, masks: &Masks, last: Rank) -> Option<Move>
    requires { masks.now ≡ masks_of core.now.plan core.now.state }
    ensures { result ≡ find (is_past last) (launch_on core.now.plan core.now.state) }
{
    match lowest(last.after(LAUNCH, launches(core, masks))) {
        Some(k) => Some(Move::Launch(k + 1)),
        None => None,
    }
}

/// The first Send after the rank, or otherwise the first move of the kinds after Send.
#[inline(always)]
fn next_send(core: &Core, masks: &Masks, last: Rank) -> Option<Move>
    requires { masks.now ≡ masks_of core.now.plan core.now.state }
    ensures { result ≡ find (is_past last) (send_on core.now.plan core.now.state) }
{
    match lowest(last.after(SEND, sends(core, masks, goes_on(core)))) {
        Some(k) => Some(Move::Send(k + 1)),
        None => next_launch(core, masks, last),
    }
}

/// The first Execute after the rank, or otherwise the first move of the kinds after Execute.
// Few searches come here, so the words that only these kinds need are read here.
#[inline(always)]
fn next_execute(core: &Core, last: Rank) -> Option<Move>
    ensures { result ≡ find (is_past last) (execute_on core.now.plan core.now.state) }
{
    let masks = core.masks();
    match lowest(last.after(EXECUTE, executes(core, &masks))) {
        Some(k) => Some(Move::Execute(k + 1)),
        None => next_send(core, &masks, last),
    }
}

/// The first Meet after the rank, or otherwise the first move of the kinds after Meet.
#[inline(always)]
fn next_meet(core: &Core, masks: &Masks, last: Rank) -> Option<Move>
    requires { masks.now ≡ masks_of core.now.plan core.now.state }
    ensures { result ≡ find (is_past last) (meet_on core.now.plan core.now.state) }
{
    match lowest(last.after(MEET, meets(core, masks, goes_on(core)))) {
        Some(k) => Some(Move::Meet(k + 1)),
        None => next_execute(core, last),
    }
}

/// The first Fall after the rank, or otherwise the first move of the kinds after Fall.
#[inline(always)]
fn next_fall(core: &Core, masks: &Masks, last: Rank) -> Option<Move>
    requires { masks.now ≡ masks_of core.now.plan core.now.state }
    ensures { result ≡ find (is_past last) (fall_on core.now.plan core.now.state) }
{
    match lowest(falls_after(core, masks, last, goes_on(core))) {
        Some(k) => Some(Move::Fall(k + 1)),
        None => next_meet(core, masks, last),
    }
}

/// The first Climb after the rank, or otherwise the first move of the kinds after Climb.
#[inline(always)]
fn next_climb(core: &Core, masks: &Masks, last: Rank) -> Option<Move>
    requires { masks.now ≡ masks_of core.now.plan core.now.state }
    ensures { result ≡ find (is_past last) (climb_on core.now.plan core.now.state) }
{
    match lowest(climbs_after(core, masks, last, goes_on(core))) {
        Some(k) => Some(Move::Climb(k + 1)),
        None => next_fall(core, masks, last),
    }
}

/// The first move over the stages after the rank.
#[inline(always)]
pub(crate) fn next_passing(core: &Core, masks: &Masks, last: Rank) -> Option<Move>
    requires { masks.now ≡ masks_of core.now.plan core.now.state }
    ensures { result ≡ find (is_past last) (filter (is_allowed core.now.plan core.now.state) (all_passing core.now.plan)) }
{
    know_stages(core);
    next_climb(core, masks, last)
}
