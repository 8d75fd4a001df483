//! The first candidate after a move, found without computing all candidates.

ghost use Rattle.std.specs.Prelude.{◌≡◌, ◌≢◌, ◌++◌, false, IfSome, Some, filter, find, slice_get};
ghost use Rattle.cf_bind.specs.declared.moves.Move.{Move as Step};
ghost use Rattle.cf_semantics.specs.moves.Candidates.{slides_from};
ghost use Rattle.cf_semantics.specs.claims.Weight.{is_issue};
ghost use Rattle.cf_index.specs.Allowed.{all_leaving, all_passing, allowed_others, is_allowed, withheld};
ghost use Rattle.cf_index.specs.GuessRules.{guided};
ghost use Rattle.cf_index.specs.Order.{first_after, slide_place};
ghost use Rattle.cf_index.specs.Ranks.{is_past, rank_of};

use crate::ahead::next_passing;
use crate::candidates::Candidates;
use crate::outward::next_outward;
use crate::rank::{ISSUE, Rank, SLIDE};
use crate::stages::goes_on;
use cf_bind::Move;
use cf_core::Core;
use run_options::GuessRule;

/// The first move by which nothing enters, after one that is not within the sidings.
#[inline(always)]
pub(crate) fn next(core: &Core, last: Rank) -> Option<Move>
    ensures { last.kind ≢ slide_place → result ≡ find (is_past last) (filter (is_allowed core.now.plan core.now.state) (all_passing core.now.plan) ++ (filter (is_allowed core.now.plan core.now.state) (slides_from 0 core.now.plan.sidings) ++ filter (is_allowed core.now.plan core.now.state) (all_leaving core.now.plan))) }
{
    let masks = core.masks();
    match next_passing(core, &masks, last) {
        Some(next) => Some(next),
        None => next_outward(core, last),
    }
}

/// The first move that is not an Issue.
#[inline(always)]
fn first_other(core: &Core) -> Option<Move>
    ensures { result ≡ slice_get (allowed_others core.now.plan core.now.state) 0 }
{
    if core.may_emit() {
        Some(Move::Emit)
    } else {
        next(core, Rank::of(Move::Emit))
    }
}

/// The first candidate that the guess rule keeps, whether or not Issue is held back.
// The search rarely starts over, and is then a call, so that the search after a move is part of the loop of a run.
#[inline(never)]
#[tactic(auto, using(crate::proofs::Firsts::firsts))]
fn look_for_first(core: &Core, rule: GuessRule, held: bool) -> Option<Move>
    ensures { IfSome result (λ next. Some next ≡ slice_get (withheld held (guided rule core.now.plan core.now.state)) 0) }
{
    if held {
        return first_other(core);
    }
    match Candidates::first_issue(core, rule) {
        Some(next) => Some(next),
        None => first_other(core),
    }
}

/// The first candidate, found by a call.
// The result of the call has a place in memory here, which is written only if the call is made.
#[inline(always)]
fn first(core: &Core, rule: GuessRule, held: bool) -> Option<Move>
    ensures { IfSome result (λ next. Some next ≡ slice_get (withheld held (guided rule core.now.plan core.now.state)) 0) }
{
    look_for_first(core, rule, held)
}

/// The first candidate, if it is not an Issue.
#[inline(always)]
fn first_unissued(core: &Core, rule: GuessRule, held: bool) -> Option<Move>
    ensures first { IfSome result (λ next. Some next ≡ slice_get (withheld held (guided rule core.now.plan core.now.state)) 0) }
    ensures other { IfSome result (λ next. is_issue next ≡ false) }
{
    match first(core, rule, held) {
        Some(Move::Issue(_)) => None,
        next => next,
    }
}

impl Candidates {
    /// Of the candidates that the guess rule keeps, the first after the move of this rank, or the first of all if none
    /// comes after it, whether or not Issue is held back. There is no answer after a Slide, nor if one Issue may follow
    /// another: then all candidates are needed.
    #[inline(always)]
    pub fn soon(core: &Core, last: Rank, rule: GuessRule, held: bool) -> Option<Move>
        ensures next { (mv : Step) → last ≡ rank_of mv → IfSome result (λ next. Some next ≡ slice_get (withheld held (guided rule core.now.plan core.now.state))
            (first_after (Some mv) (withheld held (guided rule core.now.plan core.now.state)))) }
        ensures slide { last.kind ≡ slide_place → result ≡ None }
    {
        if !goes_on(core) || last.kind == SLIDE {
            return None;
        }
        if last.kind == ISSUE {
            return first_unissued(core, rule, held);
        }
        match next(core, last) {
            Some(next) => Some(next),
            None => first(core, rule, held),
        }
    }
}
