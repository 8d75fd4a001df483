//! Which stages a move can change: the marks of all others stay as they are.

ghost use Rattle.std.specs.Prelude.{◌≡◌, ◌<◌, length, ◌≤◌, None};
ghost use Rattle.cf_semantics.specs.moves.Bars.{row_bar};
ghost use Rattle.cf_semantics.specs.state.Options.{on};
ghost use Rattle.cf_core.specs.Marks.{sites as sites_of, home_at, touched as touched_by};
ghost use Rattle.cf_core.specs.Processors.{IsProcessor};

use crate::processor::Processor;
use cf_bind::Move;
use cf_passengers::kind;

/// The stages whose marks a move can change: one or two.
#[derive(Clone, Copy)]
pub(crate) struct Touched {
    pub(crate) low: u32,
    pub(crate) high: u32,
}

impl Touched {
    /// One stage alone.
    #[inline(always)]
    pub(crate) fn alone(i: u32) -> Touched
        ensures { result ≡ record { low = i; high = i } }
    {
        Touched { low: i, high: i }
    }
}

impl Processor {
    /// The stage from which a siding launches, and the one at which it recovers.
    #[inline(always)]
    fn sites(&self, k: u32) -> Touched
        requires { k < length self.now.plan.sidings }
        ensures { result ≡ sites_of self.now.plan k }
    {
        Touched {
            low: self.layout.launch_stage(k),
            high: self.layout.recover_stage(k),
        }
    }

    /// The stages of the siding of the instruction in a stage, or that stage alone if it has none.
    #[inline(always)]
    fn home(&self, i: u32) -> Touched
        requires above { 0 < i }
        requires within { i ≤ self.now.plan.stages }
        requires facts { IsProcessor self.now.plan self.now.state }
        ensures { result ≡ on (home_at self.now.plan self.now.state i) (record { low = i; high = i }) (sites_of self.now.plan) }
    {
        let Some(passenger) = self.stages.passenger(i) else {
            return Touched::alone(i);
        };
        match self.station(kind(passenger)).siding {
            Some(site) => Touched {
                low: site.launch,
                high: site.recover,
            },
            None => Touched::alone(i),
        }
    }

    /// The stages whose marks an allowed move can change.
    #[inline(always)]
    #[tactic(auto, using(crate::proofs::Sites::touching), unfolding(crate::specs::Marks::touched))]
    pub(crate) fn touched(&self, m: Move) -> Touched
        requires facts { IsProcessor self.now.plan self.now.state }
        requires allowed { row_bar self.now.plan self.now.state m ≡ None }
        ensures { result ≡ touched_by self.now.plan self.now.state m }
    {
        match m {
            Move::Issue(_) | Move::Exit => Touched::alone(1),
            Move::Emit | Move::Leave | Move::Serve => Touched::alone(self.stages.count()),
            Move::Climb(i) => Touched {
                low: i,
                high: i + 1,
            },
            Move::Fall(i) => Touched {
                low: i - 1,
                high: i,
            },
            Move::Meet(i) | Move::Execute(i) | Move::Send(i) => Touched::alone(i),
            Move::Launch(i) | Move::Recover(i) => self.home(i),
            Move::Slide(k, _) => self.sites(k),
            Move::Access => self.sites(self.port()),
        }
    }
}
