//! What each move does, with a rule taken away.

ghost use Rattle.std.specs.Prelude.{◌≡◌, ◌+◌, ◌<◌, ◌^◌, None, Option, true, false};
ghost use Rattle.order_model.specs.RuleBars.{bar_without, row_bar_without};
ghost use Rattle.order_rules.specs.declared.rule.Rule.{Rule};
ghost use Rattle.order_model.specs.RuleMoves.{is_of_memory, next_without};
ghost use Rattle.order_model.specs.Situations.{lone_moment, in_memory};

use crate::Rule;
use crate::situation::Situation;
use cf_bind::Move;
use cf_layout::LooseLayout;
use mem_regions::Regions;

/// Whether the move reads or writes memory, or calls the environment.
pub(crate) fn uses_memory(m: Move) -> bool
    ensures { result ≡ is_of_memory m }
{
    matches!(m, Move::Access | Move::Serve)
}

impl Situation {
    /// Makes a move that its row allows, and that leaves memory as it is.
    #[inline(always)]
    #[tactic(auto, unfolding(crate::specs::RuleMoves::moved_without, crate::specs::RuleMoves::next_without, cf_semantics::specs::moves::Moves::next))]
    pub(crate) fn make_still(
        &mut self,
        away: Option<Rule>,
        layout: &LooseLayout,
        mem: &Regions,
        m: Move,
    )
        requires allowed { row_bar_without away layout.now (in_memory self.old mem.now) m ≡ None }
        requires count { self.old.retired + 1 < 2 ^ 64 }
        requires still { is_of_memory m ≡ false }
        ensures { in_memory self.new mem.now ≡ (next_without away layout.now (lone_moment (in_memory self.old mem.now)) m).state }
    {
        match m {
            Move::Issue(guess) => self.issue(away, layout, mem, guess),
            Move::Emit => self.emit(layout, mem),
            Move::Climb(i) => self.climb(layout, mem, i),
            Move::Fall(i) => self.fall(layout, mem, i),
            Move::Meet(i) => self.meet_at(away, layout, mem, i),
            Move::Execute(i) => self.execute(away, layout, mem, i),
            Move::Send(i) => self.send(layout, mem, i),
            Move::Launch(i) => self.launch(layout, mem, i),
            Move::Slide(k, c) => self.slide(layout, mem, k, c),
            Move::Access => unreachable!(),
            Move::Recover(i) => self.recover(away, layout, mem, i),
            Move::Leave => self.leave(away, layout, mem),
            Move::Exit => self.exit(layout, mem),
            Move::Serve => unreachable!(),
        }
    }

    /// Makes Access or Serve.
    #[inline(always)]
    #[tactic(auto, unfolding(crate::specs::RuleMoves::moved_without, crate::specs::RuleMoves::next_without, cf_semantics::specs::moves::Moves::next))]
    fn make_of_memory(&mut self, layout: &LooseLayout, mem: &mut Regions, m: Move)
        requires { is_of_memory m ≡ true }
        ensures { (away : Option Rule) → in_memory self.new mem.new ≡ (next_without away layout.now (lone_moment (in_memory self.old mem.old)) m).state }
    {
        match m {
            Move::Access => self.access(layout, mem),
            Move::Serve => self.serve(layout, mem),
            _ => unreachable!(),
        }
    }

    /// Makes an allowed move in this memory, where a rule may be taken away. Nothing is left of the input; the bytes
    /// that Serve writes are the `output` of the state before.
    #[tactic(auto, using(crate::proofs::Allowed::rows))]
    pub fn make(&mut self, away: Option<Rule>, layout: &LooseLayout, mem: &mut Regions, m: Move)
        requires allowed { bar_without away layout.now (in_memory self.old mem.old) m ≡ None }
        requires count { self.old.retired + 1 < 2 ^ 64 }
        ensures { in_memory self.new mem.new ≡ (next_without away layout.now (lone_moment (in_memory self.old mem.old)) m).state }
    {
        if uses_memory(m) {
            self.make_of_memory(layout, mem, m);
        } else {
            self.make_still(away, layout, mem, m);
        }
    }
}
