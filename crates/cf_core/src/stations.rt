//! Where the instructions of each class are computed, by a table that is made once from the layout.
//!
//! The layout answers the same by searching its units and sidings; the marks of a stage are asked for at every other move.

ghost use Rattle.std.specs.Prelude.{◌≡◌, ◌<◌, length};
ghost use Rattle.cf_layout.specs.Layout.{last_stage, siding_of as siding_of_class, unit_at};
ghost use Rattle.cf_stages.specs.Words.{word_of};
ghost use Rattle.cf_core.specs.Stations.{home_site, index_of, station_of as station_in, stations_of as stations_in};

use crate::processor::Processor;
use cf_layout::Layout;
use cf_stages::with_bit;
use rv_inst::Class;

/// A siding: its number, the stage from which it launches, and the one at which it recovers.
#[derive(Clone, Copy)]
pub(crate) struct SidingStages {
    pub(crate) number: u32,
    pub(crate) launch: u32,
    pub(crate) recover: u32,
}

/// Where the instructions of a class are computed.
#[derive(Clone, Copy)]
pub(crate) struct Station {
    /// The stages with a unit for the class: bit i - 1 for stage i.
    pub(crate) units: u32,

    /// The last stage at which an instruction of the class can still be computed.
    pub(crate) last: u32,

    /// The siding of the class, if it has one.
    pub(crate) siding: Option<SidingStages>,
}

/// The index of the class in the table.
#[inline(always)]
pub(crate) fn index(class: Class) -> usize
    ensures index { result ≡ index_of class }
    ensures small { result < 11 }
{
    match class {
        Class::Add => 0,
        Class::Logic => 1,
        Class::Shift => 2,
        Class::Compare => 3,
        Class::Branch => 4,
        Class::Jump => 5,
        Class::Memory => 6,
        Class::Serial => 7,
        Class::Free => 8,
        Class::Mul => 9,
        Class::Div => 10,
    }
}

/// The stages with a unit for the class: bit i - 1 for stage i.
#[tactic(auto, using(crate::proofs::Tabled::filling), unfolding(cf_stages::specs::Words::word_of))]
fn units_of(layout: &Layout, class: Class) -> u32
    ensures { result ≡ word_of (unit_at layout.now class) layout.now.stages }
{
    let mut units = 0;
    for below in 0..layout.stages() {
        units = with_bit(units, below + 1, layout.unit_at(class, below + 1));
    }
    units
}

/// The siding of the class, if it has one.
fn site_of(layout: &Layout, class: Class) -> Option<SidingStages>
    ensures { result ≡ home_site layout.now (siding_of_class layout.now class) }
{
    match layout.siding_of(class) {
        Some(number) => Some(SidingStages {
            number,
            launch: layout.launch_stage(number),
            recover: layout.recover_stage(number),
        }),
        None => None,
    }
}

/// Where the instructions of the class are computed.
#[tactic(auto, unfolding(crate::specs::Stations::station_of))]
fn station_of(layout: &Layout, class: Class) -> Station
    ensures { result ≡ station_in layout.now class }
{
    Station {
        units: units_of(layout, class),
        last: layout.last_stage(class),
        siding: site_of(layout, class),
    }
}

/// The table for all classes.
#[tactic(auto, unfolding(crate::specs::Stations::stations_of))]
pub(crate) fn stations_of(layout: &Layout) -> [Station; 11]
    ensures { result ≡ stations_in layout.now }
{
    [
        station_of(layout, Class::Add),
        station_of(layout, Class::Logic),
        station_of(layout, Class::Shift),
        station_of(layout, Class::Compare),
        station_of(layout, Class::Branch),
        station_of(layout, Class::Jump),
        station_of(layout, Class::Memory),
        station_of(layout, Class::Serial),
        station_of(layout, Class::Free),
        station_of(layout, Class::Mul),
        station_of(layout, Class::Div),
    ]
}

impl Processor {
    /// Where the instructions of the class are computed.
    #[inline(always)]
    #[tactic(auto, using(crate::proofs::Tabled::tabled))]
    pub(crate) fn station(&self, class: Class) -> &Station
        ensures { result.now ≡ station_in self.now.plan class }
    {
        &self.stations[index(class)]
    }
}
