//! The processor of a run, opened on its machine, before its first move.

ghost use Rattle.std.specs.Prelude.{◌≡◌, IfOk};
ghost use Rattle.cf_core.specs.Processors.{opened_processor};
ghost use Rattle.cf_run.specs.Reaching.{no_tally};

use cf_core::Core;
use cf_index::Candidates;
use cf_layout::Layout;
use cf_report::Tally;
use rv_machine::Machine;
use std::alloc::{AllocError, Global};

/// An opened processor, and the candidates among which a rule looks for its next move.
#[derive(Drop)]
pub struct Opened {
    pub core: Core,
    pub candidates: Candidates,
}

/// Opens the processor of the layout on the machine.
pub fn open(alloc: Global, layout: Layout, machine: Machine) -> Result<Opened, AllocError>
    ensures { IfOk result (λ run. run.core ≡ opened_processor layout machine) }
{
    let candidates = Candidates::new(alloc)?;
    let core = Core::new(alloc, layout, machine)?;
    Ok(Opened { core, candidates })
}

/// No move has been counted yet.
pub fn no_moves() -> Tally
    ensures { result ≡ no_tally }
{
    Tally {
        moves: 0,
        meets: 0,
        kills: 0,
        dead: 0,
    }
}
