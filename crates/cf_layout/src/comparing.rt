//! Whether two layouts have the same units and the same sidings.

ghost use Rattle.std.specs.Prelude.{◌≡◌, ◌↔◌, IsTrue};

use crate::accepted_siding::AcceptedSiding;
use crate::stage_set::StageSet;

/// Whether the two lists have the same sets of stages in the same order.
pub(crate) fn same_units(units: &[StageSet], other: &[StageSet]) -> bool
    ensures { IsTrue result ↔ (units.now ≡ other.now) }
{
    match (units, other) {
        ([], []) => true,
        ([first, rest @ ..], [other_first, other_rest @ ..]) => {
            first.same(*other_first) && same_units(rest, other_rest)
        }
        _ => false,
    }
}

/// Whether the two lists have the same sidings in the same order.
pub(crate) fn same_sidings(sidings: &[AcceptedSiding], other: &[AcceptedSiding]) -> bool
    ensures { IsTrue result ↔ (sidings.now ≡ other.now) }
{
    match (sidings, other) {
        ([], []) => true,
        ([first, rest @ ..], [other_first, other_rest @ ..]) => {
            first.same(other_first) && same_sidings(rest, other_rest)
        }
        _ => false,
    }
}
