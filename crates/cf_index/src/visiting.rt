//! Showing the candidates to a visitor, one after another. Those of a kind are found by walking the bits of its word.

ghost use Rattle.std.specs.Prelude.{◌≡◌, ◌<◌, ◌≤◌, ◌∷◌, [], filter, fold, length, map, slice_get, true};
ghost use Rattle.cf_bind.specs.declared.moves.Move.{Move as Step};
ghost use Rattle.cf_bind.specs.declared.moves.Move.TheVariants as mv;
ghost use Rattle.cf_core.specs.Masks.{masks_of};
ghost use Rattle.cf_semantics.specs.moves.Candidates.{slides_from};
ghost use Rattle.cf_index.specs.Allowed.{all_leaving, all_passing, allowed_others, is_allowed, kept_issues};
ghost use Rattle.cf_index.specs.Listed.{entering_moves, flagged, leaving_moves, passing_moves, slides_of};
ghost use Rattle.cf_index.specs.Most.{most_leaving, most_of_kind, most_others, most_passing};
ghost use Rattle.cf_index.specs.Places.{set_places};
ghost use Rattle.cf_index.specs.Spread.{numbered};
ghost use Rattle.cf_index.specs.Words.{goes_on as is_going};

use crate::bits::count;
use crate::candidates::Candidates;
use crate::entering::Entering;
use crate::fill::{open_leaving, passing_if, slides};
use crate::guiding::{guided, own_guess};
use crate::idle::are_empty;
use crate::leaving::Leaving;
use crate::passing::Passing;
use crate::pipe_ends::emits_among;
use crate::plainly::issues_any;
use crate::stages::{goes_on, stages};
use cf_bind::{Guess, Move};
use cf_core::{Core, Masks};
use run_options::GuessRule;

/// Something that is shown moves one after another. Its new state depends only on its old state and the move.
pub trait Visitor {
    /// The visitor after a move.
    ghost after: { Self → Step → Self };

    /// Shows it a move.
    fn visit(&mut self, mv: Move)
        ensures { self.new ≡ after self.old mv };
}

/// The kinds of moves that have a word, with one bit for each stage or for each cell of the sidings.
#[derive(Clone, Copy)]
pub(crate) enum Spread {
    Climb,
    Fall,
    Meet,
    Execute,
    Send,
    Launch,
    Slide,
    Recover,
}

impl Spread {
    /// The move of a number in the word: k is for stage k + 1, or 8k + c for cell c of siding k.
    #[inline(always)]
    fn numbered(self, number: u32) -> Move
        requires { number < 64 }
        ensures { result ≡ numbered self number }
    {
        match self {
            Spread::Climb => Move::Climb(number + 1),
            Spread::Fall => Move::Fall(number + 1),
            Spread::Meet => Move::Meet(number + 1),
            Spread::Execute => Move::Execute(number + 1),
            Spread::Send => Move::Send(number + 1),
            Spread::Launch => Move::Launch(number + 1),
            Spread::Slide => Move::Slide(number / 8, number % 8),
            Spread::Recover => Move::Recover(number + 1),
        }
    }
}

/// Shows a move if it is a candidate.
#[inline(always)]
fn visit_if<V: Visitor>(visitor: &mut V, there: bool, mv: Move)
    ensures { visitor.new ≡ fold V.after visitor.old (flagged there mv) }
{
    if there {
        visitor.visit(mv);
    }
}

/// Shows the moves of a word.
#[inline(always)]
#[tactic(auto, using(crate::proofs::Shown::shown_next, crate::proofs::Shown::shown_none, crate::proofs::Shown::lowest_within, crate::proofs::Shown::less_word))]
fn visit_word<V: Visitor>(visitor: &mut V, kind: Spread, word: u64)
    ensures { visitor.new ≡ fold V.after visitor.old (map (numbered kind) (set_places 64 word)) }
{
    let mut rest = word;
    while rest != 0 {
        visitor.visit(kind.numbered(rest.trailing_zeros()));
        rest &= rest - 1;
    }
}

impl Entering {
    /// Shows each of them.
    #[inline(always)]
    #[tactic(auto, using(crate::proofs::Shown::shown_parts), unfolding(crate::specs::Listed::entering_moves))]
    fn visit<V: Visitor>(&self, visitor: &mut V)
        ensures { visitor.new ≡ fold V.after visitor.old (entering_moves self.now) }
    {
        visit_if(visitor, self.next, Move::Issue(Guess::Next));
        visit_if(visitor, self.taken, Move::Issue(Guess::Taken));
        visit_if(visitor, self.wait, Move::Issue(Guess::Wait));
        visit_if(visitor, self.emit, Move::Emit);
    }
}

impl Passing {
    /// Shows each of them.
    #[inline(always)]
    #[tactic(auto, using(crate::proofs::Shown::shown_parts), unfolding(crate::specs::Listed::passing_moves, crate::specs::Listed::at_word))]
    fn visit<V: Visitor>(&self, visitor: &mut V)
        ensures { visitor.new ≡ fold V.after visitor.old (passing_moves self.now) }
    {
        visit_word(visitor, Spread::Climb, self.climb as u64);
        visit_word(visitor, Spread::Fall, self.fall as u64);
        visit_word(visitor, Spread::Meet, self.meet as u64);
        visit_word(visitor, Spread::Execute, self.execute as u64);
        visit_word(visitor, Spread::Send, self.send as u64);
        visit_word(visitor, Spread::Launch, self.launch as u64);
    }
}

impl Leaving {
    /// Shows each of them.
    #[inline(always)]
    #[tactic(auto, using(crate::proofs::Shown::shown_parts), unfolding(crate::specs::Listed::leaving_moves, crate::specs::Listed::at_word))]
    fn visit<V: Visitor>(&self, visitor: &mut V)
        ensures { visitor.new ≡ fold V.after visitor.old (leaving_moves self.now) }
    {
        visit_if(visitor, self.access, Move::Access);
        visit_word(visitor, Spread::Recover, self.recover as u64);
        visit_if(visitor, self.leave, Move::Leave);
        visit_if(visitor, self.exit, Move::Exit);
        visit_if(visitor, self.serve, Move::Serve);
    }
}

impl Candidates {
    /// Shows each of them, in the order of all moves.
    #[inline(always)]
    #[tactic(auto, using(crate::proofs::Shown::shown_parts), unfolding(crate::specs::Listed::slides_of))]
    pub fn visit<V: Visitor>(&self, visitor: &mut V)
        ensures { visitor.new ≡ fold V.after visitor.old self.now }
    {
        self.entering.visit(visitor);
        self.passing.visit(visitor);
        visit_word(visitor, Spread::Slide, self.slides);
        self.leaving.visit(visitor);
    }
}

/// Shows Emit if it is allowed, given the number of stages.
#[inline(always)]
#[tactic(auto, using(crate::proofs::Others::emit_chosen))]
fn visit_emit<V: Visitor>(core: &Core, masks: &Masks, stages: u32, visitor: &mut V)
    requires stages { stages ≡ core.now.plan.stages }
    requires on { is_going core.now.state ≡ true }
    requires masks { masks.now ≡ masks_of core.now.plan core.now.state }
    ensures { visitor.new ≡ fold V.after visitor.old (filter (is_allowed core.now.plan core.now.state) (mv.Emit ∷ [])) }
{
    visit_if(visitor, emits_among(core, masks, stages), Move::Emit);
}

/// Shows the allowed moves within the stages, given their number.
#[inline(always)]
fn visit_passing<V: Visitor>(core: &Core, masks: &Masks, stages: u32, visitor: &mut V)
    requires stages { stages ≡ core.now.plan.stages }
    requires on { is_going core.now.state ≡ true }
    requires masks { masks.now ≡ masks_of core.now.plan core.now.state }
    ensures shown { visitor.new ≡ fold V.after visitor.old (filter (is_allowed core.now.plan core.now.state) (all_passing core.now.plan)) }
    ensures few { length (filter (is_allowed core.now.plan core.now.state) (all_passing core.now.plan)) ≤ most_passing }
{
    let passing = passing_if(core, masks, stages, true);
    let _count = passing.len();
    passing.visit(visitor);
}

/// Shows the allowed moves within the sidings: none where these are empty.
#[inline(always)]
#[tactic(auto, using(crate::proofs::Parts::lengths), unfolding(crate::specs::Listed::slides_of))]
fn visit_slides<V: Visitor>(core: &Core, visitor: &mut V)
    ensures shown { visitor.new ≡ fold V.after visitor.old (filter (is_allowed core.now.plan core.now.state) (slides_from 0 core.now.plan.sidings)) }
    ensures few { length (filter (is_allowed core.now.plan core.now.state) (slides_from 0 core.now.plan.sidings)) ≤ most_of_kind }
{
    if are_empty(core) {
        return;
    }
    let slides = slides(core);
    let _count = count(slides);
    visit_word(visitor, Spread::Slide, slides);
}

/// Shows the allowed moves by which something leaves, given the number of stages.
#[inline(always)]
fn visit_leaving<V: Visitor>(core: &Core, masks: &Masks, stages: u32, visitor: &mut V)
    requires stages { stages ≡ core.now.plan.stages }
    requires on { is_going core.now.state ≡ true }
    requires masks { masks.now ≡ masks_of core.now.plan core.now.state }
    ensures shown { visitor.new ≡ fold V.after visitor.old (filter (is_allowed core.now.plan core.now.state) (all_leaving core.now.plan)) }
    ensures few { length (filter (is_allowed core.now.plan core.now.state) (all_leaving core.now.plan)) ≤ most_leaving }
{
    let leaving = open_leaving(core, masks, stages);
    let _count = leaving.len();
    leaving.visit(visitor);
}

/// Shows each allowed move except the Issues, where the processor goes on.
#[inline(always)]
#[tactic(auto, using(crate::proofs::Shown::shown_parts, crate::proofs::Others::few_parts))]
fn visit_open<V: Visitor>(core: &Core, visitor: &mut V)
    requires { is_going core.now.state ≡ true }
    ensures shown { visitor.new ≡ fold V.after visitor.old (allowed_others core.now.plan core.now.state) }
    ensures few { length (allowed_others core.now.plan core.now.state) ≤ most_others }
{
    let masks = core.open_masks();
    let stages = stages(core);
    visit_emit(core, &masks, stages, visitor);
    visit_passing(core, &masks, stages, visitor);
    visit_slides(core, visitor);
    visit_leaving(core, &masks, stages, visitor);
}

impl Candidates {
    /// Shows each allowed move of the processor except the Issues, in the order of all moves. No candidates are filled
    /// in.
    #[inline(always)]
    #[tactic(auto, using(crate::proofs::Others::none_once_over))]
    pub fn visit_others<V: Visitor>(core: &Core, visitor: &mut V)
        ensures shown { visitor.new ≡ fold V.after visitor.old (allowed_others core.now.plan core.now.state) }
        ensures few { length (allowed_others core.now.plan core.now.state) ≤ most_others }
    {
        if goes_on(core) {
            visit_open(core, visitor);
        }
    }

    /// The first of the allowed Issues that the guess rule keeps, given whether the processor goes on. If an instruction
    /// can be issued, whatever it is, the rule's own guess can be made, and an instruction is decoded for that guess alone.
    #[inline(always)]
    #[tactic(auto, using(crate::proofs::Others::issues, crate::proofs::Guided::own_first))]
    pub(crate) fn first_issue_if(core: &Core, rule: GuessRule, on: bool) -> Option<Move>
        requires { on ≡ is_going core.now.state }
        ensures { result ≡ slice_get (kept_issues rule core.now.plan core.now.state) 0 }
    {
        if issues_any(core, on) {
            return Some(Move::Issue(own_guess(core, rule)));
        }
        let issuable = guided(core, rule);
        if issuable.next {
            Some(Move::Issue(Guess::Next))
        } else if issuable.taken {
            Some(Move::Issue(Guess::Taken))
        } else if issuable.wait {
            Some(Move::Issue(Guess::Wait))
        } else {
            None
        }
    }

    /// The first of the allowed Issues that the guess rule keeps.
    #[inline(always)]
    pub fn first_issue(core: &Core, rule: GuessRule) -> Option<Move>
        ensures { result ≡ slice_get (kept_issues rule core.now.plan core.now.state) 0 }
    {
        Candidates::first_issue_if(core, rule, goes_on(core))
    }
}
