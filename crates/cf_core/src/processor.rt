//! The parts of a processor.

ghost use Rattle.cf_layout.specs.Accepted.{IsAccepted};

use crate::stations::Station;
use cf_bind::End;
use cf_ends::Ends;
use cf_layout::Layout;
use cf_passengers::Templates;
use cf_sidings::Sidings;
use cf_stages::Stages;
use mem_regions::Regions;
use rv_inst::Isa;
use std::marker::Model;

/// A processor: its layout, and its state in parts.
///
/// Beside the layout it has what each move would otherwise work out from it again: the table of where each class is
/// computed, and the instruction set; and the templates of instructions that were issued, which are right for its memory.
#[derive(Drop)]
pub(crate) struct Processor {
    pub(crate) layout: Layout,
    pub(crate) stations: [Station; 11],
    pub(crate) isa: Isa,
    pub(crate) stages: Stages,
    pub(crate) sidings: Sidings,
    pub(crate) ends: Ends,
    pub(crate) memory: Regions,
    pub(crate) templates: Templates,
    pub(crate) retired: u64,
    pub(crate) ending: Option<End>,
    pub(crate) failed: bool,
}

impl Model for Processor {
    ghost use Rattle.std.specs.Prelude.{◌≡◌};
    ghost use Rattle.cf_semantics.specs.state.Layouts.{isa_of};
    ghost use Rattle.cf_passengers.specs.Templates.{AreTemplates};
    ghost use Rattle.cf_core.specs.Processors.{Processor as Whole};
    ghost use Rattle.cf_core.specs.Stations.{stations_of};

    ghost Value = { Whole };

    ghost view = { λ p. record { plan = p.layout; state = record { cells = p.stages; sidings = p.sidings; lane = p.ends.lane; fetch = p.ends.fetch; cache = p.ends.cache; regs = p.ends.regs; mem = p.memory; retired = p.retired; ending = p.ending; failed = p.failed } } };

    ghost invariant = { λ p. (p.ends.room ≡ p.layout.lane) × ((p.stations ≡ stations_of p.layout) ×
        ((p.isa ≡ isa_of p.layout) × AreTemplates p.isa p.memory p.templates)) };
}

impl Processor {
    /// Does nothing; it is called for its contract. A proof knows that the layout is an accepted one, and so how many
    /// stages there can be, only if the function calls the layout, and a function that reads only the stages or the
    /// marks does not.
    #[inline(always)]
    pub(crate) fn know_stages(&self)
        ensures { IsAccepted self.now.plan }
    {
        let _stages = self.layout.stages();
    }
}
