//! Where an instruction stops on its way up, and to which set it belongs, even in a layout that breaks the rule on
//! where control turns.

ghost use Rattle.std.specs.Prelude.{◌≡◌};
ghost use Rattle.cf_semantics.specs.state.Layouts.{isa_of as set_of, launches as launches_at, recovers as recovers_at, ends_units as ends_units_at};
ghost use Rattle.cf_semantics.specs.moves.Bars.{stops_at as stops};

use crate::reading::kind;
use cf_bind::Passenger;
use cf_layout::LooseLayout;
use rv_inst::{Class, Isa};

/// The instruction set of a processor with this layout: with the M extension if the layout computes it.
#[inline(always)]
pub fn isa_of(layout: &LooseLayout) -> Isa
    ensures { result ≡ set_of layout.now }
{
    if layout.has_mul() {
        Isa::Rv32im
    } else {
        Isa::Rv32i
    }
}

/// Whether a siding for the class launches at the stage.
#[inline(always)]
pub fn launches(layout: &LooseLayout, class: Class, stage: u32) -> bool
    ensures { result ≡ launches_at layout.now class stage }
{
    match layout.siding_of(class) {
        Some(siding) => layout.launch_stage(siding) == stage,
        None => false,
    }
}

/// Whether a siding for the class recovers at the stage.
#[inline(always)]
pub fn recovers(layout: &LooseLayout, class: Class, stage: u32) -> bool
    ensures { result ≡ recovers_at layout.now class stage }
{
    match layout.siding_of(class) {
        Some(siding) => layout.recover_stage(siding) == stage,
        None => false,
    }
}

/// Whether the last unit for the class, which has no siding, is at the stage.
#[inline(always)]
fn ends_units(layout: &LooseLayout, class: Class, stage: u32) -> bool
    ensures { result ≡ ends_units_at layout.now class stage }
{
    match layout.siding_of(class) {
        Some(_) => false,
        None => layout.last_stage(class) == stage,
    }
}

/// Whether the instruction must not climb out of the stage: its operation was launched and is recovered here, or it is
/// live, it is neither done nor launched, and this is the last stage that can execute it or launch its operation.
#[inline(always)]
pub fn stops_at(layout: &LooseLayout, p: &Passenger, stage: u32) -> bool
    ensures { result ≡ stops layout.now p.now stage }
{
    let class = kind(p);
    (p.launched && !p.recovered && recovers(layout, class, stage))
        || (!p.dead
            && !p.done
            && !p.launched
            && (ends_units(layout, class, stage) || launches(layout, class, stage)))
}
