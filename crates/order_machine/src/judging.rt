//! Whether the pipes end or rest in the same way as the sequential machine.

ghost use Rattle.std.specs.Prelude.{◌≡◌, ◌↔◌, IsTrue};
ghost use Rattle.cf_bind.specs.declared.packet.Fetch.TheVariants as fetch_does;
ghost use Rattle.order_machine.specs.Judgements.{EndsWithState, HasStateOf, RestsAs};
ghost use Rattle.order_machine.specs.declared.stepping.NextStep.TheVariants as next_step;

use crate::passing::Waypoint;
use crate::stepping::NextStep;
use cf_bind::{End, Fetch};
use mem_changes::Changes;

/// Whether the two are the same end.
fn same_end(end: End, other: End) -> bool
    ensures { IsTrue result ↔ (end ≡ other) }
{
    end == other
}

/// Whether the step ends the program in this way.
fn ends_by(next: NextStep, end: End) -> bool
    ensures { IsTrue result ↔ (next ≡ next_step.Ends end) }
{
    match next {
        NextStep::Retires(_) => false,
        NextStep::Ends(e) => same_end(e, end),
    }
}

/// Whether fetch runs at the address.
fn runs_at(fetch: Fetch, pc: u32) -> bool
    ensures { IsTrue result ↔ (fetch ≡ fetch_does.Running pc) }
{
    match fetch {
        Fetch::Running(at) => at == pc,
        Fetch::Waiting => false,
    }
}

impl Waypoint {
    /// Whether the registers and the memory are the machine's.
    fn has_state(&self, regs: &[u32; 32], changes: &Changes) -> bool
        ensures { IsTrue result ↔ HasStateOf self.now regs.now changes.now }
    {
        *regs == self.regs && changes.same(&self.changes)
    }

    /// Whether the next step ends the program in this way, with these registers and this memory.
    pub fn ends_as(&self, end: End, regs: &[u32; 32], changes: &Changes) -> bool
        ensures { IsTrue result ↔ EndsWithState self.now end regs.now changes.now }
    {
        ends_by(self.next, end) && self.has_state(regs, changes)
    }

    /// Whether fetch runs where the machine is, with these registers and this memory.
    pub fn rests_as(&self, fetch: Fetch, regs: &[u32; 32], changes: &Changes) -> bool
        ensures { IsTrue result ↔ RestsAs self.now fetch regs.now changes.now }
    {
        runs_at(fetch, self.pc) && self.has_state(regs, changes)
    }
}
