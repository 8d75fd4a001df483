//! The first move after another one, within the sidings or among those by which something leaves. A move is tested only
//! if no move before it was found.

ghost use Rattle.std.specs.Prelude.{◌≡◌, ◌≢◌, ◌∷◌, ◌++◌, [], IfSome, filter, find, slice_get};
ghost use Rattle.cf_bind.specs.declared.moves.Move.TheVariants as mv;
ghost use Rattle.cf_semantics.specs.moves.Candidates.{at_stages, slides_from};
ghost use Rattle.cf_core.specs.Masks.{masks_of};
ghost use Rattle.cf_index.specs.Allowed.{all_leaving, is_allowed};
ghost use Rattle.cf_index.specs.Listed.{slides_of};
ghost use Rattle.cf_index.specs.Order.{kind_place, slide_place};
ghost use Rattle.cf_index.specs.Ranks.{is_past};

use crate::bits::lowest;
use crate::fill::slides;
use crate::rank::{ACCESS, EXIT, LEAVE, RECOVER, Rank, SERVE, SLIDE};
use crate::stages::know_stages;
use cf_bind::Move;
use cf_core::{Core, Masks};

/// Serve, if it is allowed and comes after the rank.
#[inline(always)]
fn next_serve(core: &Core, last: Rank) -> Option<Move>
    ensures { result ≡ find (is_past last) (filter (is_allowed core.now.plan core.now.state) (mv.Serve ∷ [])) }
{
    if last.kind < SERVE && core.may_serve() {
        Some(Move::Serve)
    } else {
        None
    }
}

/// Exit, if it is allowed and comes after the rank, or otherwise the first move of the kinds after Exit.
#[inline(always)]
fn next_exit(core: &Core, last: Rank) -> Option<Move>
    ensures { result ≡ find (is_past last) (filter (is_allowed core.now.plan core.now.state) (mv.Exit ∷ mv.Serve ∷ [])) }
{
    if last.kind < EXIT && core.may_exit() {
        Some(Move::Exit)
    } else {
        next_serve(core, last)
    }
}

/// Leave, if it is allowed and comes after the rank, or otherwise the first move of the kinds after Leave.
#[inline(always)]
fn next_leave(core: &Core, last: Rank) -> Option<Move>
    ensures { result ≡ find (is_past last) (filter (is_allowed core.now.plan core.now.state) (mv.Leave ∷ mv.Exit ∷ mv.Serve ∷ [])) }
{
    if last.kind < LEAVE && core.may_leave() {
        Some(Move::Leave)
    } else {
        next_exit(core, last)
    }
}

/// The first Recover after the rank, or otherwise the first move of the kinds after Recover.
#[inline(always)]
fn next_recover(core: &Core, masks: &Masks, last: Rank) -> Option<Move>
    requires { masks.now ≡ masks_of core.now.plan core.now.state }
    ensures { result ≡ find (is_past last) (filter (is_allowed core.now.plan core.now.state) (at_stages core.now.plan mv.Recover ++ mv.Leave ∷ mv.Exit ∷ mv.Serve ∷ [])) }
{
    know_stages(core);
    match lowest(last.after(RECOVER, masks.recover)) {
        Some(k) => Some(Move::Recover(k + 1)),
        None => next_leave(core, last),
    }
}

/// The first move after the rank by which something leaves.
#[inline(always)]
fn next_leaving(core: &Core, last: Rank) -> Option<Move>
    ensures { result ≡ find (is_past last) (filter (is_allowed core.now.plan core.now.state) (all_leaving core.now.plan)) }
{
    if last.kind < ACCESS && core.may_access() {
        Some(Move::Access)
    } else {
        let masks = core.masks();
        next_recover(core, &masks, last)
    }
}

/// The first move within the sidings.
#[inline(always)]
#[tactic(auto, using(crate::proofs::Ranks::first_sliding))]
pub(crate) fn first_slide(slides: u64) -> Option<Move>
    ensures first { result ≡ slice_get (slides_of slides) 0 }
    ensures slide { IfSome result (λ next. kind_place next ≡ slide_place) }
{
    if slides == 0 {
        None
    } else {
        let place = slides.trailing_zeros();
        Some(Move::Slide(place / 8, place % 8))
    }
}

/// The first move within the sidings after a move that is not one of them.
#[inline(always)]
fn next_slide(core: &Core, last: Rank) -> Option<Move>
    ensures slide { IfSome result (λ next. kind_place next ≡ slide_place) }
    ensures first { last.kind ≢ slide_place → result ≡ find (is_past last) (filter (is_allowed core.now.plan core.now.state) (slides_from 0 core.now.plan.sidings)) }
{
    if last.kind < SLIDE {
        first_slide(slides(core))
    } else {
        None
    }
}

/// The first move within the sidings, or otherwise by which something leaves, after a move that is not within them.
#[inline(always)]
pub(crate) fn next_outward(core: &Core, last: Rank) -> Option<Move>
    ensures { last.kind ≢ slide_place → result ≡ find (is_past last) (filter (is_allowed core.now.plan core.now.state) (slides_from 0 core.now.plan.sidings) ++ filter (is_allowed core.now.plan core.now.state) (all_leaving core.now.plan)) }
{
    match next_slide(core, last) {
        Some(next) => Some(next),
        None => next_leaving(core, last),
    }
}
