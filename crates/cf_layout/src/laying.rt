//! Building a layout from its parts.

ghost use Rattle.std.specs.Prelude.{◌≡◌, ◌≤◌, All, map, length};
ghost use Rattle.cf_layout.specs.Asked.{IsSmallSiding, units_plan, siding_plan};
ghost use Rattle.cf_layout.specs.Held.{places_for};
ghost use Rattle.cf_layout.specs.Layout.{no_siding};

use crate::accepted_siding::AcceptedSiding;
use crate::asked::{listed, natural};
use crate::class_set::ClassSet;
use crate::classes::CLASSES;
use crate::stage_set::StageSet;
use crate::{Listed, Siding};
use rv_inst::Class;

/// Fills an unused entry of the table of sidings.
pub(crate) fn no_siding() -> AcceptedSiding
    ensures { result ≡ no_siding }
{
    AcceptedSiding {
        classes: ClassSet::empty(),
        launch: 0,
        recover: 0,
        cells: 0,
    }
}

/// The requested units: for each class in class order, their stages.
#[tactic(auto, unfolding(crate::specs::Asked::units_plan))]
pub(crate) fn lay_units(units: &[(Class, Listed<i64>)]) -> [StageSet; 9]
    ensures { result ≡ units_plan units.now }
{
    let mut sets = [StageSet::empty(); 9];
    for (place, class) in CLASSES.iter().enumerate() {
        sets[place] = StageSet::of(listed(units, *class));
    }
    sets
}

/// The requested siding.
#[tactic(auto, unfolding(crate::specs::Asked::siding_plan))]
fn lay_siding(siding: &Siding) -> AcceptedSiding
    requires { IsSmallSiding siding.now }
    ensures { result ≡ siding_plan siding.now }
{
    AcceptedSiding {
        classes: ClassSet::of(siding.classes.as_slice()),
        launch: natural(siding.launch),
        recover: natural(siding.recover),
        cells: natural(siding.cells),
    }
}

/// The requested sidings, in a table of eight entries.
pub(crate) fn lay_sidings(sidings: &[Siding]) -> [AcceptedSiding; 8]
    requires few { length sidings.now ≤ 8 }
    requires small { All IsSmallSiding sidings.now }
    ensures { result ≡ places_for (map siding_plan sidings.now) }
{
    let mut places = [no_siding(); 8];
    for (index, siding) in sidings.iter().enumerate() {
        places[index] = lay_siding(siding);
    }
    places
}
