//! Where an instruction is in its work: whether it waits for a unit or a siding, has its sources, or has nothing left to do.

ghost use Rattle.std.specs.Prelude.{◌≡◌};
ghost use Rattle.cf_core.specs.Riders.{is_undone as is_not_done, is_out as is_beside, is_idle as idles, is_spent as has_done_all, has_sources as knows_sources};

use cf_bind::Passenger;
use cf_passengers::first_missing;

/// Whether the instruction is live and was not executed.
#[inline(always)]
pub(crate) fn is_undone(passenger: &Passenger) -> bool
    ensures { result ≡ is_not_done passenger.now }
{
    !passenger.dead & !passenger.done
}

/// Whether its operation was launched and has not come back.
#[inline(always)]
pub(crate) fn is_out(passenger: &Passenger) -> bool
    ensures { result ≡ is_beside passenger.now }
{
    passenger.launched & !passenger.recovered
}

/// Whether it has been executed or is dead, and has nothing in a siding: no unit waits for it, and no siding.
#[inline(always)]
pub(crate) fn is_idle(passenger: &Passenger) -> bool
    ensures { result ≡ idles passenger.now }
{
    !is_undone(passenger) & !is_out(passenger)
}

/// Whether it owes nothing either: it has nothing left to do but to climb and to leave.
#[inline(always)]
pub(crate) fn is_spent(passenger: &Passenger) -> bool
    ensures { result ≡ has_done_all passenger.now }
{
    is_idle(passenger) && passenger.owes.is_none()
}

/// Whether it has the values of its sources.
#[inline(always)]
pub(crate) fn has_sources(passenger: &Passenger) -> bool
    ensures { result ≡ knows_sources passenger.now }
{
    first_missing(passenger).is_none()
}
