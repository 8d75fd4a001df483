//! The moves at the ends of the two pipes, by the words of a processor that goes on.

ghost use Rattle.std.specs.Prelude.{◌≡◌, ◌-◌, ◌<◌, ◌∷◌, [], filter, true};
ghost use Rattle.cf_layout.specs.Words.{has_bit as is_bit_set};
ghost use Rattle.cf_bind.specs.declared.moves.Move.TheVariants as mv;
ghost use Rattle.cf_core.specs.Masks.{masks_of};
ghost use Rattle.cf_index.specs.Allowed.{is_allowed};
ghost use Rattle.cf_index.specs.Packed.{packed_from};
ghost use Rattle.cf_index.specs.PickedFrom.{at_top};
ghost use Rattle.cf_index.specs.Words.{goes_on};

use crate::packing::flag_then;
use crate::stages::{know_stages, stages};
use crate::words::resting;
use cf_core::{Core, Masks};
use cf_stages::has_bit;

/// What the instruction of the highest stage can do.
#[derive(Clone, Copy)]
pub enum AtTop {
    /// It can leave.
    Leaves,
    /// It can be served.
    Serves,
    /// It can do neither, or there is none.
    Stays,
}

/// Whether the word has the bit of the highest of the stages.
#[inline(always)]
fn has_top(core: &Core, stages: u32, word: u32) -> bool
    requires stages { stages ≡ core.now.plan.stages }
    ensures { result ≡ is_bit_set word (core.now.plan.stages - 1) }
{
    know_stages(core);
    has_bit(word, stages)
}

/// Whether Emit is allowed, given the number of stages.
#[inline(always)]
pub(crate) fn emits_among(core: &Core, masks: &Masks, stages: u32) -> bool
    requires stages { stages ≡ core.now.plan.stages }
    requires on { goes_on core.now.state ≡ true }
    requires masks { masks.now ≡ masks_of core.now.plan core.now.state }
    ensures { result ≡ is_allowed core.now.plan core.now.state mv.Emit }
{
    know_stages(core);
    core.lane_len() != 0 && !has_top(core, stages, masks.packets)
}

/// Whether Emit is allowed.
#[inline(always)]
pub(crate) fn emits(core: &Core, masks: &Masks) -> bool
    requires on { goes_on core.now.state ≡ true }
    requires masks { masks.now ≡ masks_of core.now.plan core.now.state }
    ensures { result ≡ is_allowed core.now.plan core.now.state mv.Emit }
{
    emits_among(core, masks, stages(core))
}

/// Whether Leave is allowed, given the number of stages.
// What the instruction of the highest stage has done is looked at only where there is one.
#[inline(always)]
pub(crate) fn leaves_among(core: &Core, masks: &Masks, stages: u32) -> bool
    requires stages { stages ≡ core.now.plan.stages }
    requires on { goes_on core.now.state ≡ true }
    requires masks { masks.now ≡ masks_of core.now.plan core.now.state }
    ensures { result ≡ is_allowed core.now.plan core.now.state mv.Leave }
{
    know_stages(core);
    has_top(core, stages, masks.passengers) && core.open_leave()
}

/// Whether Serve is allowed, given the number of stages.
// The instruction of the highest stage is looked at only where there is one.
#[inline(always)]
pub(crate) fn serves_among(core: &Core, stages: u32) -> bool
    requires stages { stages ≡ core.now.plan.stages }
    requires on { goes_on core.now.state ≡ true }
    ensures { result ≡ is_allowed core.now.plan core.now.state mv.Serve }
{
    know_stages(core);
    let masks = core.open_masks();
    has_top(core, stages, masks.passengers) && core.may_serve()
}

/// Whether Exit is allowed.
#[inline(always)]
pub(crate) fn exits(core: &Core, masks: &Masks) -> bool
    requires on { goes_on core.now.state ≡ true }
    requires masks { masks.now ≡ masks_of core.now.plan core.now.state }
    ensures { result ≡ is_allowed core.now.plan core.now.state mv.Exit }
{
    know_stages(core);
    has_bit(resting(masks), 1)
}

/// What the instruction of the highest stage can do.
// It is looked at only where there is one.
#[inline(always)]
pub(crate) fn top(core: &Core, masks: &Masks) -> AtTop
    requires on { goes_on core.now.state ≡ true }
    requires masks { masks.now ≡ masks_of core.now.plan core.now.state }
    ensures { result ≡ at_top core.now.plan core.now.state }
{
    know_stages(core);
    if !has_top(core, stages(core), masks.passengers) {
        AtTop::Stays
    } else if core.open_leave() {
        AtTop::Leaves
    } else if core.may_serve() {
        AtTop::Serves
    } else {
        AtTop::Stays
    }
}

/// The bits of Leave, Exit and Serve, given the number of stages and whether Serve is allowed.
#[inline(always)]
pub(crate) fn end_bits(core: &Core, masks: &Masks, stages: u32, serve: bool) -> u64
    requires stages { stages ≡ core.now.plan.stages }
    requires serve { serve ≡ is_allowed core.now.plan core.now.state mv.Serve }
    requires on { goes_on core.now.state ≡ true }
    requires masks { masks.now ≡ masks_of core.now.plan core.now.state }
    ensures moves { packed_from 61 3 result ≡ filter (is_allowed core.now.plan core.now.state) (mv.Leave ∷ mv.Exit ∷ mv.Serve ∷ []) }
    ensures bits { result < 8 }
{
    let leave = leaves_among(core, masks, stages);
    let exit = exits(core, masks);
    flag_then(leave, flag_then(exit, serve as u64))
}
