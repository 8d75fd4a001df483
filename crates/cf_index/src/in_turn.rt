//! What is asked before the Falls of a sweep are made at once.

ghost use Rattle.std.specs.Prelude.{◌≡◌, true};
ghost use Rattle.cf_stages.specs.Falling.{AreResting};
ghost use Rattle.cf_core.specs.Falling.{BarNoLaunch};
ghost use Rattle.cf_index.specs.Words.{goes_on};

use crate::stages::know_stages;
use crate::words::{below_results, resting};
use cf_core::Core;

/// The stages where a result rests: it has met the instruction of its stage, if there is one.
#[inline(always)]
pub fn results_at_rest(core: &Core) -> u32
    requires { goes_on core.now.state ≡ true }
    ensures { AreResting core.now.state.cells result }
{
    know_stages(core);
    let masks = core.open_masks();
    resting(&masks)
}

/// Whether no result is right above a stage from which an operation can be launched, so that no Fall can bar a Launch.
#[inline(always)]
pub fn falls_bar_no_launch(core: &Core) -> bool
    requires { goes_on core.now.state ≡ true }
    ensures { result ≡ true → BarNoLaunch core.now.plan core.now.state }
{
    know_stages(core);
    let masks = core.open_masks();
    below_results(&masks) == 0
}
