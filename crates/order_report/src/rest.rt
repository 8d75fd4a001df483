//! The counts, the registers and the picture.
#![tactic(auto, unfolding(report_closing::specs::Closing::rest_text))]

ghost use Rattle.std.specs.Prelude.{◌≡◌};
ghost use Rattle.cf_report.specs.Putting.{PutsText};
ghost use Rattle.order_report.specs.Drawing.{IsDrawable};
ghost use Rattle.report_closing.specs.Closing.{rest_text};

use crate::picture::put_picture;
use cf_io::{Failed, Sink};
use cf_layout::LooseLayout;
use cf_report::{Tally, put_registers, put_tally};
use order_model::Situation;

/// The registers of a state.
fn regs_of(situation: &Situation) -> &[u32; 32]
    ensures { result.now ≡ situation.now.regs }
{
    &situation.regs
}

/// Writes the last parts of the report of a run, for a state that is a value: the counts of the moves that led to it,
/// the registers, and the picture. After `Failed` a prefix of it was written.
pub fn put_state_rest<R: Sink>(
    layout: &LooseLayout,
    situation: &Situation,
    tally: &Tally,
    report: &mut R,
) -> Result<(), Failed>
    requires { IsDrawable situation.now }
    ensures { PutsText (R.written report.old) (R.written report.new)
        (R.faults report.old) (R.faults report.new) (rest_text layout.now situation.now tally.now) result }
{
    put_tally(tally, report)?;
    put_registers(regs_of(situation), report)?;
    put_picture(layout, situation, report)
}
