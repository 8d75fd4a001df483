//! A row of the table of moves: tests, each with its bar, of which the first that holds bars the move.

ghost use Rattle.std.specs.Option.{option_copied};
ghost use Rattle.std.specs.Prelude.{◌≡◌, find, None, ◌<◌, ◌≤◌, IfErr, IfOk, OnOk, Some};
ghost use Rattle.cf_semantics.specs.moves.Bars.{first_bar_of as first_bar_of, at, of_passenger, source_bar as bar_of_sources};
ghost use Rattle.cf_stages.specs.Changes.{passenger_at};
ghost use Rattle.cf_core.specs.Processors.{IsProcessor};

use crate::processor::Processor;
use cf_bind::{Bar, Passenger};
use cf_passengers::first_missing;

/// The first test that holds, with its bar.
#[inline(always)]
fn first_row(rows: &[(bool, Bar)]) -> Option<&(bool, Bar)>
    ensures { option_copied result ≡ find (λ row. row.0) rows.now }
{
    rows.iter().find(|row| row.0)
}

/// The bar of the first test that holds.
#[inline(always)]
#[tactic(auto, using(crate::proofs::FirstBar::finding))]
pub(crate) fn first_of(rows: &[(bool, Bar)]) -> Option<Bar>
    ensures { result ≡ first_bar_of rows.now None }
{
    match first_row(rows) {
        Some(row) => Some(row.1),
        None => None,
    }
}

impl Processor {
    /// The instruction of the stage; or the bar with which each row of its moves begins: there is no such stage, or no
    /// instruction is there.
    #[inline(always)]
    pub(crate) fn rider(&self, i: u32) -> Result<Passenger, Bar>
        requires { IsProcessor self.now.plan self.now.state }
        ensures stage { OnOk result ((0 < i) × (i ≤ self.now.plan.stages)) }
        ensures rider { IfOk result (λ p. passenger_at self.now.state.cells i ≡ Some p) }
        ensures bar { IfErr result (λ b. at self.now.state.cells i (λ c. of_passenger c (λ p. None)) ≡ Some b) }
    {
        if i == 0 || self.stages.count() < i {
            return Err(Bar::NoSuchSite);
        }
        match self.stages.cell(i).passenger {
            Some(passenger) => Ok(passenger),
            None => Err(Bar::NoPassenger),
        }
    }
}

/// What bars an instruction that needs the values of its sources: the first one without a value.
#[inline(always)]
pub(crate) fn source_bar(passenger: &Passenger) -> Option<Bar>
    ensures { result ≡ bar_of_sources passenger.now None }
{
    first_missing(passenger).map(Bar::SourceMissing)
}
