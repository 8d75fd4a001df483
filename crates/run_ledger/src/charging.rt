//! Adding a move to the counts.

ghost use Rattle.std.specs.Prelude.{◌≡◌, map, take};
ghost use Rattle.run_ledger.specs.Using.{uses_siding as at_siding, uses_stage as at_stage};
ghost use Rattle.run_ledger.specs.Ledgers.{charged, one_more as one_more_of, plus_if as plus_where};

use crate::uses::{uses_siding, uses_stage};
use cf_bind::Move;
use cf_layout::Layout;
use cf_timed::kind_place;

/// The number, increased by this many if the move counts, capped at the maximum of `u64`.
#[inline(always)]
pub(crate) fn plus_if(counts: bool, number: u64, more: u64) -> u64
    ensures { result ≡ plus_where counts number more }
{
    if counts {
        number.saturating_add(more)
    } else {
        number
    }
}

/// How long each stage is in use, with a move of this many ticks added.
pub(crate) fn charge_stages(layout: &Layout, mv: Move, ticks: u64, busy: &[u64; 33]) -> [u64; 33]
    ensures { result ≡ charged (λ i. at_stage layout.now i mv) ticks busy.now }
{
    let mut charged = [0; 33];
    for i in 0..33 {
        charged[i] = plus_if(uses_stage(layout, i, mv), busy[i], ticks);
    }
    charged
}

/// How long each siding is in use, with such a move added.
pub(crate) fn charge_sidings(layout: &Layout, mv: Move, ticks: u64, busy: &[u64; 8]) -> [u64; 8]
    ensures { result ≡ charged (λ k. at_siding layout.now k mv) ticks busy.now }
{
    let mut charged = [0; 8];
    for k in 0..8 {
        charged[k] = plus_if(uses_siding(layout, k as u32, mv), busy[k], ticks);
    }
    charged
}

/// The counts by kind, with the move added.
#[inline(always)]
pub(crate) fn one_more(kinds: [u64; 14], mv: Move) -> [u64; 14]
    ensures { result ≡ one_more_of kinds mv }
{
    let mut kinds = kinds;
    let place = kind_place(mv);
    kinds[place] = kinds[place].saturating_add(1);
    kinds
}
