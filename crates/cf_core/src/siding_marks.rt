//! Marks of which only one kind can have changed: whether an operation can be launched from a stage, or recovered there.

ghost use Rattle.std.specs.Prelude.{◌≡◌, ◌<◌, ◌≤◌};
ghost use Rattle.cf_bind.specs.declared.moves.Move.TheVariants as mv;
ghost use Rattle.cf_core.specs.Marks.{Within, resited, row_allows, with_launch, with_recover};
ghost use Rattle.cf_core.specs.Processors.{IsProcessor};

use crate::marks::{Marks, laid};
use crate::processor::Processor;
use crate::touching::Touched;
use cf_passengers::kind;

impl Processor {
    /// Whether no test in the row of Launch from this stage holds.
    #[inline(always)]
    #[tactic(auto, using(crate::proofs::Rides::no_launches, crate::proofs::Tabled::sites))]
    fn launches_there(&self, i: u32) -> bool
        requires above { 0 < i }
        requires within { i ≤ self.now.plan.stages }
        requires facts { IsProcessor self.now.plan self.now.state }
        ensures { result ≡ row_allows self.now.plan self.now.state (mv.Launch i) }
    {
        self.know_stages();
        let Some(passenger) = self.stages.passenger(i) else {
            return false;
        };
        let class = kind(passenger);
        match self.station(class).siding {
            Some(site) => self.launches(passenger, class, site, i),
            None => false,
        }
    }

    /// Whether no test in the row of Recover at this stage holds.
    #[inline(always)]
    #[tactic(auto, using(crate::proofs::Rides::no_recovers, crate::proofs::Tabled::sites))]
    fn recovers_there(&self, i: u32) -> bool
        requires above { 0 < i }
        requires within { i ≤ self.now.plan.stages }
        requires facts { IsProcessor self.now.plan self.now.state }
        ensures { result ≡ row_allows self.now.plan self.now.state (mv.Recover i) }
    {
        self.know_stages();
        let Some(passenger) = self.stages.passenger(i) else {
            return false;
        };
        let class = kind(passenger);
        match self.station(class).siding {
            Some(site) => self.recovers(passenger, class, site, i),
            None => false,
        }
    }

    /// Brings up to date whether an operation can be launched from the stage.
    #[inline(always)]
    fn mark_launch(&self, marks: &mut Marks, i: u32)
        requires above { 0 < i }
        requires within { i ≤ self.now.plan.stages }
        requires facts { IsProcessor self.now.plan self.now.state }
        ensures { marks.new ≡ with_launch self.now.plan self.now.state marks.old i }
    {
        self.know_stages();
        marks.launch = laid(marks.launch, i, self.launches_there(i));
    }

    /// The same once a result has come to the stage.
    // It stays a call: most results come to stages from which nothing can be launched.
    #[inline(never)]
    pub(crate) fn mark_beside_result(&self, marks: &mut Marks, i: u32)
        requires above { 0 < i }
        requires within { i ≤ self.now.plan.stages }
        requires facts { IsProcessor self.now.plan self.now.state }
        ensures { marks.new ≡ with_launch self.now.plan self.now.state marks.old i }
    {
        self.mark_launch(marks, i);
    }

    /// The same for the stage from which a siding launches.
    #[inline(always)]
    pub(crate) fn mark_entry(&self, marks: &mut Marks, sites: Touched)
        requires within { Within self.now.plan sites }
        requires facts { IsProcessor self.now.plan self.now.state }
        ensures { marks.new ≡ with_launch self.now.plan self.now.state marks.old sites.low }
    {
        self.mark_launch(marks, sites.low);
    }

    /// Brings up to date whether an operation can be recovered at the stage where a siding recovers.
    #[inline(always)]
    pub(crate) fn mark_return(&self, marks: &mut Marks, sites: Touched)
        requires within { Within self.now.plan sites }
        requires facts { IsProcessor self.now.plan self.now.state }
        ensures { marks.new ≡ with_recover self.now.plan self.now.state marks.old sites.high }
    {
        self.know_stages();
        marks.recover = laid(marks.recover, sites.high, self.recovers_there(sites.high));
    }

    /// Brings both up to date, once the cells of the siding have changed.
    #[inline(always)]
    pub(crate) fn mark_siding(&self, marks: &mut Marks, sites: Touched)
        requires within { Within self.now.plan sites }
        requires facts { IsProcessor self.now.plan self.now.state }
        ensures { marks.new ≡ resited self.now.plan self.now.state marks.old sites }
    {
        self.mark_entry(marks, sites);
        self.mark_return(marks, sites);
    }
}
