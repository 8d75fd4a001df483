//! The table of moves: what bars each move, and what it does.
//!
//! The row of each move has a file of its own in `moves/`. It holds the function that returns the first bar, for a
//! caller that names a move; the test whether nothing bars the move, for a policy, which tests every move at each step
//! and needs no reason; and the effect. A fact about a stage that only one move needs is there too.

mod access;
mod climb;
mod emit;
mod execute;
mod exit;
mod fall;
mod issue;
pub(crate) mod launch;
mod leave;
mod meet;
pub(crate) mod recover;
mod send;
mod serve;
mod slide;

ghost use Rattle.std.specs.Prelude.{◌≡◌, ◌≢◌, ◌+◌, ◌<◌, ◌^◌, None};
ghost use Rattle.cf_bind.specs.declared.moves.Move.TheVariants as mv;
ghost use Rattle.cf_semantics.specs.moves.Bars.{row_bar as bar_of_row, bar as first_bar};
ghost use Rattle.cf_semantics.specs.moves.Events.{IsEvent};
ghost use Rattle.cf_core.specs.Processors.{IsProcessor, after_move};

use crate::processor::Processor;
use cf_bind::{Bar, Move};
use cf_semantics::Event;

impl Processor {
    /// What bars the move, by its row of the table of moves.
    #[inline(always)]
    fn row_bar(&self, m: Move) -> Option<Bar>
        requires { IsProcessor self.now.plan self.now.state }
        ensures { result ≡ bar_of_row self.now.plan self.now.state m }
    {
        match m {
            Move::Issue(guess) => self.issue_bar(guess),
            Move::Emit => self.emit_bar(),
            Move::Climb(i) => self.climb_bar(i),
            Move::Fall(i) => self.fall_bar(i),
            Move::Meet(i) => self.meet_bar(i),
            Move::Execute(i) => self.execute_bar(i),
            Move::Send(i) => self.send_bar(i),
            Move::Launch(i) => self.launch_bar(i),
            Move::Slide(k, c) => self.slide_bar(k, c),
            Move::Access => self.access_bar(),
            Move::Recover(i) => self.recover_bar(i),
            Move::Leave => self.leave_bar(),
            Move::Exit => self.exit_bar(),
            Move::Serve => self.serve_bar(),
        }
    }

    /// What bars the move. Nothing is allowed once the program has ended, or the input or the output has failed.
    #[inline(always)]
    #[tactic(auto, unfolding(cf_semantics::specs::moves::Bars::bar))]
    pub(crate) fn bar(&self, m: Move) -> Option<Bar>
        requires { IsProcessor self.now.plan self.now.state }
        ensures { result ≡ first_bar self.now.plan self.now.state m }
    {
        if self.ending.is_some() {
            Some(Bar::Halted)
        } else if self.failed {
            Some(Bar::Failed)
        } else {
            self.row_bar(m)
        }
    }

    /// Makes an allowed move, which is not Serve, and returns what is seen of it. The marks stay as they are.
    // Rare moves remain calls; the frequent ones become part of the loop of a run.
    #[inline(always)]
    pub(crate) fn make_inside(&mut self, m: Move) -> Event
        requires facts { IsProcessor self.old.plan self.old.state }
        requires allowed { bar_of_row self.old.plan self.old.state m ≡ None }
        requires count { m ≡ mv.Leave → self.old.state.retired + 1 < 2 ^ 64 }
        requires other { m ≢ mv.Serve }
        ensures processor { self.new ≡ after_move self.old m }
        ensures event { IsEvent self.old.plan self.old.state m result }
    {
        match m {
            Move::Issue(guess) => self.issue(guess),
            Move::Emit => self.emit(),
            Move::Climb(i) => self.climb(i),
            Move::Fall(i) => self.fall(i),
            Move::Meet(i) => return self.meet(i),
            Move::Execute(i) => self.execute(i),
            Move::Send(i) => self.send(i),
            Move::Launch(i) => self.launch(i),
            Move::Slide(k, c) => self.slide(k, c),
            Move::Access => self.access(),
            Move::Recover(i) => self.recover(i),
            Move::Leave => return self.leave(),
            Move::Exit => self.exit(),
            Move::Serve => unreachable!(),
        }
        Event::Plain
    }
}
