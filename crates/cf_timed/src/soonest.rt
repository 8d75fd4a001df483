//! The move that finishes earliest, found without filling in the candidates.

ghost use Rattle.std.specs.Prelude.{◌≡◌, ◌-◌, ◌≤◌, ◌^◌, Bool, IfSome, None, [], false, slice_get, true};
ghost use Rattle.std.specs.List.{AllByRecursion};
ghost use Rattle.run_options.specs.declared.guess_rule.GuessRule.{GuessRule as Rule};
ghost use Rattle.cf_bind.specs.declared.passenger.Guess.TheVariants as guesses;
ghost use Rattle.cf_bind.specs.declared.moves.Move.TheVariants as mv;
ghost use Rattle.cf_index.specs.Allowed.{allowed_others, kept_issues, unheld_issues, withheld};
ghost use Rattle.cf_index.specs.GuessRules.{guided};
ghost use Rattle.cf_timed.specs.Clocks.{capped, clocked};
ghost use Rattle.cf_timed.specs.DueMoves.{AreDue, IsLeft, still_due};
ghost use Rattle.cf_timed.specs.Soonest.{AreLater, IsFirstDue, IsIssueBy, IsSoonest, IsTimed, NoIssueBy};

use crate::clock::Clock;
use crate::due_moves::DueMoves;
use crate::looking::Looking;
use cf_bind::{Fetch, Guess, Move};
use cf_core::Core;
use cf_index::Candidates;
use cf_stages::has_bit;
use run_options::GuessRule;

/// A move, how many ticks it takes if it is made now, and when it finishes then.
#[derive(Clone, Copy)]
pub(crate) struct Due {
    pub(crate) mv: Move,
    pub(crate) delay: u64,
    pub(crate) time: u64,
}

/// Whether no Issue is allowed because the lowest stage has an instruction, or because fetch waits. Nothing is decoded,
/// so any other reason is not seen.
#[inline(always)]
fn issues_none(core: &Core) -> bool
    ensures { (rule : Rule) (held : Bool) → result ≡ true → unheld_issues held rule core.now.plan core.now.state ≡ [] }
{
    let _layout = core.layout();
    let masks = core.masks();
    match core.fetch() {
        Fetch::Running(_) => has_bit(masks.passengers, 1),
        Fetch::Waiting => true,
    }
}

/// The first of the allowed Issues that the guess rule keeps.
// It is asked for rarely, and decodes an instruction if no template is kept for its address.
#[inline(never)]
fn first_issue(core: &Core, rule: GuessRule) -> Option<Move>
    ensures { result ≡ slice_get (kept_issues rule core.now.plan core.now.state) 0 }
{
    Candidates::first_issue(core, rule)
}

impl Clock {
    /// The move, how many ticks it takes if it is made now, and when it finishes then, capped at the maximum `u64`.
    #[inline(always)]
    #[tactic(auto, unfolding(crate::specs::Clocks::finish_time))]
    pub(crate) fn timed(&self, core: &Core, mv: Move) -> Due
        ensures mv { result.mv ≡ mv }
        ensures timed { IsTimed (clocked self.now core.now.state) result }
    {
        let delay = self.delay(core, mv);
        Due {
            mv,
            delay,
            time: self.reach(mv).saturating_add(delay),
        }
    }

    /// The same for an Issue that guesses the next instruction.
    // The sites of no other kind of move are read, so that it stays small.
    #[inline(always)]
    #[tactic(auto, unfolding(crate::specs::Clocks::finish_time))]
    fn timed_issue(&self, core: &Core) -> Due
        ensures mv { result.mv ≡ mv.Issue guesses.Next }
        ensures timed { IsTimed (clocked self.now core.now.state) result }
    {
        let mv = Move::Issue(Guess::Next);
        let delay = self.delay(core, mv);
        Due {
            mv,
            delay,
            time: self.reach_issue().saturating_add(delay),
        }
    }

    /// The first Issue that is allowed, kept by the guess rule and not held back, if it finishes by
    /// this time. The search is made only if an Issue would finish by then, since an instruction
    /// for whose address no template is kept has to be decoded; all Issues use the same sites. No
    /// time is computed if the lowest stage has an instruction, or if fetch waits.
    #[inline(always)]
    #[tactic(auto, using(crate::proofs::Sooner::issue_due))]
    fn issue_by(&self, core: &Core, rule: GuessRule, held: bool, by: u64) -> Option<Due>
        ensures some { IfSome result (λ due. IsIssueBy (clocked self.now core.now.state) (unheld_issues held rule core.now.plan core.now.state) by due) }
        ensures none { result ≡ None → AreLater (clocked self.now core.now.state) (unheld_issues held rule core.now.plan core.now.state) by }
    {
        if issues_none(core) {
            return None;
        }
        if held {
            return None;
        }
        let next = self.timed_issue(core);
        if by < next.time {
            return None;
        }
        match first_issue(core, rule) {
            Some(mv) => Some(Due { mv, ..next }),
            None => None,
        }
    }

    /// Whether no allowed Issue finishes by this time, whatever it guesses. An instruction is decoded
    /// only if an Issue would finish by then. Whether Issue is held back is not asked.
    #[inline(always)]
    fn no_issue_by(&self, core: &Core, by: u64) -> bool
        ensures none { result ≡ true → NoIssueBy core.now.plan (clocked self.now core.now.state) by }
        ensures some { NoIssueBy core.now.plan (clocked self.now core.now.state) by → result ≡ true }
    {
        if issues_none(core) {
            return true;
        }
        if by < self.timed_issue(core).time {
            return true;
        }
        first_issue(core, GuessRule::Any).is_none()
    }

    /// Whether Issue is held back, or no allowed Issue finishes by this time, whatever it guesses.
    // If Issue is held back, this is lost once it no longer is: a retirement may end that.
    #[inline(always)]
    pub(crate) fn offers_no_issue(&self, core: &Core, held: bool, by: u64) -> bool
        ensures none { result ≡ true → held ≡ false → NoIssueBy core.now.plan (clocked self.now core.now.state) by }
        ensures held { held ≡ true → result ≡ true }
        ensures some { NoIssueBy core.now.plan (clocked self.now core.now.state) by → result ≡ true }
    {
        held || self.no_issue_by(core, by)
    }

    /// Looks at the allowed moves other than Issue, and keeps those that finish earliest. It keeps none if no time is
    /// below the maximum `u64`.
    // A look is needed for one move in four, and is much larger than the rest of what picks a move.
    #[inline(never)]
    pub(crate) fn look(&self, core: &Core, kept: &mut DueMoves)
        ensures due { AreDue core.now.plan (clocked self.now core.now.state) kept.new }
        ensures still { still_due self.now kept.new ≡ kept.new.moves }
        ensures some { kept.new.moves ≡ [] → AllByRecursion (λ mv. 2 ^ 64 - 1 ≤ capped (clocked self.now core.now.state) mv) (allowed_others core.now.plan core.now.state) }
    {
        self.known();
        let _layout = core.layout();
        kept.next = 0;
        kept.found.clear_to(u64::MAX);
        let mut looking = Looking {
            clock: self,
            core,
            found: &mut kept.found,
        };
        Candidates::visit_others(core, &mut looking);
        kept.found.clear_if_never();
    }

    /// The first of the kept moves that is still due; those before it are left out.
    #[inline(always)]
    fn first_kept(&self, core: &Core, kept: &mut DueMoves) -> Option<Due>
        requires plan { self.now.plan ≡ core.now.plan }
        requires due { AreDue core.now.plan (clocked self.now core.now.state) kept.old }
        ensures due { AreDue core.now.plan (clocked self.now core.now.state) kept.new }
        ensures first { IfSome result (λ due. IsFirstDue (clocked self.now core.now.state) kept.new due) }
        ensures none { result ≡ None → still_due self.now kept.new ≡ [] }
        ensures keeps { still_due self.now kept.new ≡ still_due self.now kept.old }
    {
        let _core = core;
        while let Some(mv) = kept.first() {
            let time = kept.time();
            let begin = self.reach_kept(mv);
            if begin < time {
                return Some(Due {
                    mv: *mv,
                    delay: time - begin,
                    time,
                });
            }
            kept.skip();
        }
        None
    }

    /// The first of the moves that a look finds.
    #[inline(always)]
    fn first_looked(&self, core: &Core, kept: &mut DueMoves) -> Option<Due>
        requires plan { self.now.plan ≡ core.now.plan }
        ensures due { AreDue core.now.plan (clocked self.now core.now.state) kept.new }
        ensures first { IfSome result (λ due. IsFirstDue (clocked self.now core.now.state) kept.new due) }
    {
        self.look(core, kept);
        self.first_kept(core, kept)
    }

    /// The first of the allowed moves other than Issue that finish earliest: of those that are kept, if one is still due.
    #[inline(always)]
    fn first_due(&self, core: &Core, kept: &mut DueMoves) -> Option<Due>
        requires plan { self.now.plan ≡ core.now.plan }
        requires due { AreDue core.now.plan (clocked self.now core.now.state) kept.old }
        ensures due { AreDue core.now.plan (clocked self.now core.now.state) kept.new }
        ensures first { IfSome result (λ due. IsFirstDue (clocked self.now core.now.state) kept.new due) }
    {
        match self.first_kept(core, kept) {
            Some(due) => Some(due),
            None => self.first_looked(core, kept),
        }
    }

    /// The first of the kept moves, if it is due; it is left out.
    #[inline(always)]
    fn taken(&self, core: &Core, first: Option<Due>, kept: &mut DueMoves) -> Option<Due>
        requires due { AreDue core.now.plan (clocked self.now core.now.state) kept.old }
        requires first { IfSome first (λ due. IsFirstDue (clocked self.now core.now.state) kept.old due) }
        ensures same { result ≡ first }
        ensures left { IfSome result (λ due. IsLeft core.now.plan (clocked self.now core.now.state) kept.new due.mv) }
        ensures due { result ≡ None → AreDue core.now.plan (clocked self.now core.now.state) kept.new }
    {
        let _core = core;
        match first {
            Some(due) => {
                kept.skip();
                Some(due)
            }
            None => None,
        }
    }

    /// The first of the allowed moves that the guess rule keeps and that finish earliest, whether or not Issue is held
    /// back. If it is one of the kept moves, it is left out of them, since it is made. It may be `None` if no time of a
    /// move other than Issue is below the maximum `u64`.
    #[inline(always)]
    pub(crate) fn soonest(
        &self,
        core: &Core,
        rule: GuessRule,
        held: bool,
        kept: &mut DueMoves,
    ) -> Option<Due>
        requires plan { self.now.plan ≡ core.now.plan }
        requires due { AreDue core.now.plan (clocked self.now core.now.state) kept.old }
        ensures left { IfSome result (λ due. IsLeft core.now.plan (clocked self.now core.now.state) kept.new due.mv) }
        ensures due { result ≡ None → AreDue core.now.plan (clocked self.now core.now.state) kept.new }
        ensures soonest { IfSome result (λ due. IsSoonest (clocked self.now core.now.state) (withheld held (guided rule core.now.plan core.now.state)) due) }
    {
        let first = self.first_due(core, kept);
        match self.issue_by(core, rule, held, kept.time()) {
            Some(due) => Some(due),
            None => self.taken(core, first, kept),
        }
    }
}
