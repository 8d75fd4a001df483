//! Whether the stages of a move hold what the move needs.

ghost use Rattle.std.specs.Prelude.{◌≡◌, slice_get};
ghost use Rattle.cf_semantics.specs.moves.Bars.{cell_is_taken as is_taken_in};
ghost use Rattle.cf_semantics.specs.state.State.{siding_at};
ghost use Rattle.order_graph.specs.ReadyStages.{is_computed as is_computed_in, is_launched as is_launched_in, meets_in_stage as is_meeting_in, is_owing as is_owing_in, is_ready as is_ready_in, is_returned as is_returned_in, is_undone as is_undone_in, passenger_in_stage as passenger_in};

use crate::counting::has_packet;
use cf_bind::{Cell, Move, Passenger};
use cf_layout::LooseLayout;
use cf_passengers::kind;
use cf_passengers::loose::launches;
use order_model::Situation;

/// The instruction in a stage.
#[inline(always)]
fn passenger_at(s: &Situation, i: usize) -> Option<Passenger>
    ensures { result ≡ passenger_in s.now i }
{
    match s.cell(i) {
        Some(cell) => cell.passenger,
        None => None,
    }
}

/// Whether the stage has an instruction and a result that have not met.
#[inline(always)]
fn is_meeting(cell: Option<Cell>) -> bool
    ensures { result ≡ is_meeting_in cell }
{
    match cell {
        Some(cell) => cell.passenger.is_some() && cell.packet.is_some() && !cell.met,
        None => false,
    }
}

/// Whether there is an instruction that is still to be executed, and a unit of the stage can execute it.
#[inline(always)]
fn is_computed(layout: &LooseLayout, p: Option<Passenger>, i: u32) -> bool
    ensures { result ≡ is_computed_in layout.now p i }
{
    match p {
        Some(p) => !p.done && layout.unit_at(kind(&p), i),
        None => false,
    }
}

/// Whether there is an instruction that owes a result.
#[inline(always)]
fn is_owing(p: Option<Passenger>) -> bool
    ensures { result ≡ is_owing_in p }
{
    match p {
        Some(p) => p.owes.is_some(),
        None => false,
    }
}

/// Whether there is an instruction that is still to be sent to a siding, and this is done at this stage.
#[inline(always)]
fn is_launched(layout: &LooseLayout, p: Option<Passenger>, i: u32) -> bool
    ensures { result ≡ is_launched_in layout.now p i }
{
    match p {
        Some(p) => !p.done && !p.launched && launches(layout, kind(&p), i),
        None => false,
    }
}

/// Whether there is an instruction that is still to come back from a siding.
#[inline(always)]
fn is_returned(p: Option<Passenger>) -> bool
    ensures { result ≡ is_returned_in p }
{
    match p {
        Some(p) => p.launched && !p.recovered,
        None => false,
    }
}

/// Whether there is an instruction that is not done.
#[inline(always)]
fn is_undone(p: Option<Passenger>) -> bool
    ensures { result ≡ is_undone_in p }
{
    match p {
        Some(p) => !p.done,
        None => false,
    }
}

/// Whether an operation is in the cell of a siding.
#[inline(always)]
fn is_taken(s: &Situation, k: u32, c: u32) -> bool
    ensures { result ≡ is_taken_in (slice_get (siding_at s.now k) c) }
{
    match s.sidings.get(k as usize) {
        Some(siding) => match siding.cells().get(c as usize) {
            Some(op) => op.is_some(),
            None => false,
        },
        None => false,
    }
}

/// Whether the contents of its stages permit a move; only some of the tests in the move's row are made.
#[inline(always)]
pub(crate) fn is_ready(layout: &LooseLayout, s: &Situation, m: Move) -> bool
    ensures { result ≡ is_ready_in layout.now s.now m }
{
    match m {
        Move::Issue(_) => passenger_at(s, 1).is_none(),
        Move::Emit => !s.lane.is_empty(),
        Move::Climb(i) => passenger_at(s, i as usize).is_some()
            && passenger_at(s, i as usize + 1).is_none(),
        Move::Fall(i) => has_packet(s.cell(i as usize))
            && !has_packet(s.cell((i as usize).saturating_sub(1))),
        Move::Meet(i) => is_meeting(s.cell(i as usize)),
        Move::Execute(i) => is_computed(layout, passenger_at(s, i as usize), i),
        Move::Send(i) => is_owing(passenger_at(s, i as usize)),
        Move::Launch(i) => is_launched(layout, passenger_at(s, i as usize), i),
        Move::Slide(k, c) => is_taken(s, k, c),
        Move::Access => true,
        Move::Recover(i) => is_returned(passenger_at(s, i as usize)),
        Move::Leave => passenger_at(s, layout.stages() as usize).is_some(),
        Move::Exit => has_packet(s.cell(1)),
        Move::Serve => is_undone(passenger_at(s, layout.stages() as usize)),
    }
}
