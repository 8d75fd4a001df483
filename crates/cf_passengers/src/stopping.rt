//! Where an instruction stops on its way up.

ghost use Rattle.std.specs.Prelude.{◌≡◌};
ghost use Rattle.cf_semantics.specs.state.Layouts.{launches as launches_at, recovers as recovers_at};
ghost use Rattle.cf_semantics.specs.moves.Bars.{stops_at as stops};

use crate::loose;
use cf_bind::Passenger;
use cf_layout::Layout;
use rv_inst::Class;

/// Whether a siding for the class launches at the stage.
#[inline(always)]
pub fn launches(layout: &Layout, class: Class, stage: u32) -> bool
    ensures { result ≡ launches_at layout.now class stage }
{
    loose::launches(layout.loose(), class, stage)
}

/// Whether a siding for the class recovers at the stage.
#[inline(always)]
pub fn recovers(layout: &Layout, class: Class, stage: u32) -> bool
    ensures { result ≡ recovers_at layout.now class stage }
{
    loose::recovers(layout.loose(), class, stage)
}

/// Whether the instruction must not climb out of the stage: its operation was launched and is recovered here, or it is
/// live, it is neither done nor launched, and this is the last stage that can execute it or launch its operation.
#[inline(always)]
pub fn stops_at(layout: &Layout, p: &Passenger, stage: u32) -> bool
    ensures { result ≡ stops layout.now p.now stage }
{
    loose::stops_at(layout.loose(), p, stage)
}
