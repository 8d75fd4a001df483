//! Whether the search after a move starts over, with no Issue offered.

ghost use Rattle.std.specs.Prelude.{◌≡◌, ◌≢◌, ◌≤◌, ◌++◌, [], IfSome, None, Some, false, filter, find, true};
ghost use Rattle.run_options.specs.declared.guess_rule.GuessRule.{GuessRule as Rule};
ghost use Rattle.cf_bind.specs.declared.moves.Move.{Move as Step};
ghost use Rattle.cf_index.specs.Allowed.{all_passing, is_allowed, unheld_issues};
ghost use Rattle.cf_index.specs.Order.{kind_place, slide_place};
ghost use Rattle.cf_index.specs.PickedFrom.{IsLast, IsPicked, IsPickedFrom, from_emit, outward_on};
ghost use Rattle.cf_index.specs.Ranks.{is_past, rank_of};
ghost use Rattle.cf_index.specs.Words.{goes_on};

use crate::candidates::Candidates;
use crate::plainly::{is_lowest_free, is_running};
use crate::rank::{ISSUE, LEAVE, Rank};
use crate::soon::next;
use crate::stages::know_stages;
use cf_bind::Move;
use cf_core::Core;
use run_options::GuessRule;

/// Whether no Issue is offered because the lowest stage has an instruction, because Issue is held back, or because fetch
/// waits. Nothing is decoded, so any other reason is not seen.
// The first is the usual reason.
#[inline(always)]
#[tactic(auto, using(crate::proofs::StartsOver::issuing_none))]
fn issues_none(core: &Core, held: bool) -> bool
    ensures none { (rule : Rule) → result ≡ true → unheld_issues held rule core.now.plan core.now.state ≡ [] }
    ensures unheld { result ≡ false → held ≡ false }
{
    if !is_lowest_free(core) {
        return true;
    }
    if held {
        return true;
    }
    !is_running(core.fetch())
}

/// Whether the move of this rank was an Issue, or is of one of the last kinds and no move comes after it except one
/// that enters.
// For an earlier kind the search would be made again if a move comes after it.
#[inline(always)]
fn is_at_end(core: &Core, last: Rank) -> bool
    ensures outside { result ≡ true → last.kind ≢ slide_place }
    ensures none { result ≡ true → last.kind ≢ 0 →
        find (is_past last) (filter (is_allowed core.now.plan core.now.state) (all_passing core.now.plan) ++ outward_on core.now.plan core.now.state) ≡ None }
{
    if last.kind == ISSUE {
        return true;
    }
    LEAVE <= last.kind && next(core, last).is_none()
}

impl Candidates {
    /// Whether it is known that no Issue is offered after the move of this rank, and that the move was an Issue or no
    /// other comes after it: the search then finds the first of all allowed moves but Issue.
    #[inline(always)]
    pub fn starts_over(core: &Core, last: Rank, held: bool) -> bool
        ensures { (rule : Rule) (mv : Step) → last ≡ rank_of mv → result ≡ true →
            IsPickedFrom rule held core.now.plan core.now.state (Some mv) (from_emit core.now.plan core.now.state) }
    {
        know_stages(core);
        issues_none(core, held) && is_at_end(core, last)
    }

    /// The Issue that is picked, if one is offered, when no other move comes after the last pick. If none is, the
    /// search starts over with the first of all allowed moves but Issue.
    #[inline(always)]
    pub fn next_issue(core: &Core, rule: GuessRule, held: bool) -> Option<Move>
        requires { goes_on core.now.state ≡ true }
        ensures issue { IfSome result (λ next. kind_place next ≡ 0) }
        ensures picked { (last : Step) → 1 ≤ kind_place last → IsLast core.now.plan core.now.state (Some last) →
            IfSome result (λ next. IsPicked rule held core.now.plan core.now.state (Some last) next) }
        ensures none { result ≡ None → (last : Step) → 1 ≤ kind_place last → IsLast core.now.plan core.now.state (Some last) →
            IsPickedFrom rule held core.now.plan core.now.state (Some last) (from_emit core.now.plan core.now.state) }
    {
        know_stages(core);
        if issues_none(core, held) {
            None
        } else {
            Candidates::first_issue_if(core, rule, true)
        }
    }
}
