//! Invariants of every processor.

ghost use Rattle.std.specs.Prelude.{◌≡◌, length};
ghost use Rattle.cf_layout.specs.Accepted.{IsAccepted};

use cf_core::Core;

/// The register file has 32 registers. The function does nothing.
#[inline(always)]
fn all_registers(regs: &[u32; 32])
    ensures { length regs.now ≡ 32 }
{
    let _ = regs;
}

/// Invariants of every processor: its layout is accepted, and it has 32 registers. The function does nothing.
#[inline(always)]
pub fn known(core: &Core)
    ensures accepted { IsAccepted core.now.plan }
    ensures registers { length core.now.state.regs ≡ 32 }
{
    let _ = core.layout();
    all_registers(core.regs());
}
