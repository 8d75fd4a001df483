//! Whether a move uses a stage or a siding.

ghost use Rattle.std.specs.Prelude.{◌≡◌, ◌<◌, ◌≤◌, ◌^◌, length};
ghost use Rattle.cf_layout.specs.Layout.{Plan};
ghost use Rattle.cf_semantics.specs.state.Layouts.{port as port_of};
ghost use Rattle.run_ledger.specs.Using.{uses_siding as at_siding, uses_stage as at_stage};

use cf_bind::Move;
use cf_layout::Layout;
use cf_timed::port;

/// Whether the move uses the stage.
#[inline(always)]
#[tactic(auto, using(cf_index::proofs::UsedSites::stage_used))]
pub(crate) fn uses_stage(layout: &Layout, i: usize, mv: Move) -> bool
    ensures { result ≡ at_stage layout.now i mv }
{
    let top = layout.stages() as usize;
    match mv {
        Move::Issue(_) | Move::Exit => i == 1,
        Move::Emit | Move::Leave | Move::Serve => i == top,
        Move::Climb(j) => i == j as usize || i == j as usize + 1,
        Move::Fall(j) => i == j as usize || i == j.saturating_sub(1) as usize,
        Move::Meet(j) | Move::Execute(j) | Move::Send(j) | Move::Launch(j) | Move::Recover(j) => i
            == j as usize,
        Move::Slide(_, _) | Move::Access => false,
    }
}

/// Whether the move uses a cell of the siding.
#[inline(always)]
#[tactic(auto, using(crate::proofs::SidingUse::siding_used))]
pub(crate) fn uses_siding(layout: &Layout, k: u32, mv: Move) -> bool
    ensures { result ≡ at_siding layout.now k mv }
{
    let there = k < layout.siding_count();
    match mv {
        Move::Launch(i) => there && layout.launch_stage(k) == i,
        Move::Slide(j, _) => k == j,
        Move::Access => k as usize == port(layout).0,
        Move::Recover(i) => there && layout.recover_stage(k) == i,
        Move::Issue(_)
        | Move::Emit
        | Move::Climb(_)
        | Move::Fall(_)
        | Move::Meet(_)
        | Move::Execute(_)
        | Move::Send(_)
        | Move::Leave
        | Move::Exit
        | Move::Serve => false,
    }
}
