//! For each kind of move over the stages, the word of the stages where it is allowed.

ghost use Rattle.std.specs.Prelude.{◌≡◌, ◌≤◌, if◌then◌else◌, length};
ghost use Rattle.cf_core.specs.Masks.{masks_of};
ghost use Rattle.cf_index.specs.Allowed.{passing_of};
ghost use Rattle.cf_index.specs.Words.{goes_on};

use crate::words::{climbing, falling, full, sending};
use cf_core::{Core, Masks};

/// Whether the program has not ended, and neither the input nor the output has failed.
#[inline(always)]
pub(crate) fn goes_on(core: &Core) -> bool
    ensures { result ≡ goes_on core.now.state }
{
    core.ending().is_none() && !core.failed()
}

/// The word if the processor goes on, and no stage otherwise.
// A caller that knows that it goes on says so, and it is not tested again.
#[inline(always)]
fn where_on(core: &Core, on: bool, word: u32) -> u32
    requires { on ≡ goes_on core.now.state }
    ensures { result ≡ (if goes_on core.now.state then word else 0) }
{
    let _core = core;
    if on { word } else { 0 }
}

/// How many stages there are.
#[inline(always)]
pub(crate) fn stages(core: &Core) -> u32
    ensures stages { result ≡ core.now.plan.stages }
    ensures some { 1 ≤ result }
    ensures few { result ≤ 32 }
    ensures cells { length core.now.state.cells ≡ result }
{
    core.layout().stages()
}

/// Does nothing: it is called for its contract. A proof knows how many stages there can be, and that each is in the state, only
/// where the function asks the layout, and one that reads the masks alone does not.
#[inline(always)]
pub(crate) fn know_stages(core: &Core)
    ensures some { 1 ≤ core.now.plan.stages }
    ensures few { core.now.plan.stages ≤ 32 }
    ensures cells { length core.now.state.cells ≡ core.now.plan.stages }
{
    let _stages = stages(core);
}

/// Where Climb is allowed, given the number of stages and whether the processor goes on.
#[inline(always)]
pub(crate) fn climbs_among(core: &Core, masks: &Masks, stages: u32, on: bool) -> u32
    requires stages { stages ≡ core.now.plan.stages }
    requires on { on ≡ goes_on core.now.state }
    requires masks { masks.now ≡ masks_of core.now.plan core.now.state }
    ensures { result ≡ (passing_of core.now.plan core.now.state).climb }
{
    know_stages(core);
    where_on(core, on, climbing(masks, stages))
}

/// Where Climb is allowed, given whether the processor goes on.
#[inline(always)]
pub(crate) fn climbs(core: &Core, masks: &Masks, on: bool) -> u32
    requires on { on ≡ goes_on core.now.state }
    requires masks { masks.now ≡ masks_of core.now.plan core.now.state }
    ensures { result ≡ (passing_of core.now.plan core.now.state).climb }
{
    climbs_among(core, masks, stages(core), on)
}

/// Where Fall is allowed, given whether the processor goes on.
#[inline(always)]
pub(crate) fn falls(core: &Core, masks: &Masks, on: bool) -> u32
    requires on { on ≡ goes_on core.now.state }
    requires masks { masks.now ≡ masks_of core.now.plan core.now.state }
    ensures { result ≡ (passing_of core.now.plan core.now.state).fall }
{
    know_stages(core);
    where_on(core, on, falling(masks))
}

/// Where Meet is allowed, given whether the processor goes on.
#[inline(always)]
pub(crate) fn meets(core: &Core, masks: &Masks, on: bool) -> u32
    requires on { on ≡ goes_on core.now.state }
    requires masks { masks.now ≡ masks_of core.now.plan core.now.state }
    ensures { result ≡ (passing_of core.now.plan core.now.state).meet }
{
    know_stages(core);
    where_on(core, on, full(masks))
}

/// Where Execute is allowed.
#[inline(always)]
#[tactic(auto, unfolding(crate::specs::Allowed::passing_of, cf_core::specs::Masks::masks_of))]
pub(crate) fn executes(core: &Core, masks: &Masks) -> u32
    requires { masks.now ≡ masks_of core.now.plan core.now.state }
    ensures { result ≡ (passing_of core.now.plan core.now.state).execute }
{
    let _core = core;
    masks.execute
}

/// Where Send is allowed, given whether the processor goes on.
#[inline(always)]
pub(crate) fn sends(core: &Core, masks: &Masks, on: bool) -> u32
    requires on { on ≡ goes_on core.now.state }
    requires masks { masks.now ≡ masks_of core.now.plan core.now.state }
    ensures { result ≡ (passing_of core.now.plan core.now.state).send }
{
    know_stages(core);
    where_on(core, on, sending(masks))
}

/// Where Launch is allowed.
#[inline(always)]
#[tactic(auto, unfolding(crate::specs::Allowed::passing_of, cf_core::specs::Masks::masks_of))]
pub(crate) fn launches(core: &Core, masks: &Masks) -> u32
    requires { masks.now ≡ masks_of core.now.plan core.now.state }
    ensures { result ≡ (passing_of core.now.plan core.now.state).launch }
{
    let _core = core;
    masks.launch
}
