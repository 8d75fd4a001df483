//! Whether a run is over.

ghost use Rattle.std.specs.Prelude.{◌≤◌, MatchOption};
ghost use Rattle.cf_run.specs.Reaching.{GoesOn, IsOver};

use cf_bind::End;
use cf_core::Core;
use run_finishes::Ran;

/// Why the run is over, if it is.
#[inline(always)]
pub fn over(core: &Core, limit: u64) -> Option<Ran>
    requires { core.now.state.retired ≤ limit }
    ensures { MatchOption result (GoesOn limit core.now.state) (IsOver limit core.now.state) }
{
    match core.ending() {
        Some(End::Exit(status)) => Some(Ran::Exit(status)),
        Some(End::Trap { cause, pc, detail }) => Some(Ran::Trap { cause, pc, detail }),
        None if core.retired() == limit => Some(Ran::Limit),
        None => None,
    }
}
