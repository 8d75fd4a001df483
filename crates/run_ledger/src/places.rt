//! The sites that a move uses, by their numbers.

ghost use Rattle.std.specs.Prelude.{◌≡◌, ◌+◌, ◌-◌, ◌≤◌, ◌<◌, ◌^◌, ◌++◌, ◌∷◌, [], length, map, if◌then◌else◌};
ghost use Rattle.cf_layout.specs.Accepted.{IsAccepted};
ghost use Rattle.cf_semantics.specs.moves.Sites.{SidingCell, Stage};
ghost use Rattle.cf_index.specs.Sites.{ways_in, ways_out};
ghost use Rattle.run_ledger.specs.Ledgers.{place_number, place_numbers};

use arrayvec::ArrayVec;
use cf_bind::Move;
use cf_layout::Layout;
use cf_timed::port;

/// The number of the lane.
const LANE: usize = 0;

/// The number of fetch.
const FETCH: usize = 1;

/// The number of the memory.
const MEMORY: usize = 2;

/// The number of the code.
const CODE: usize = 3;

/// The number of a stage.
#[inline(always)]
fn stage(i: usize) -> usize
    requires { i ≤ 2 ^ 32 }
    ensures { result ≡ place_number (Stage i) }
{
    4 + i
}

/// The number of a cell of a siding.
#[inline(always)]
fn cell(k: usize, c: usize) -> usize
    requires siding { k ≤ 2 ^ 32 }
    requires cell { c ≤ 2 ^ 32 }
    ensures { result ≡ place_number (SidingCell k c) }
{
    38 + 8 * k + c
}

/// Appends a site if `taken` is set.
#[inline(always)]
fn push_if(places: &mut ArrayVec<usize, 10>, taken: bool, place: usize)
    requires { length places.old.items < 10 }
    ensures places { places.new.items ≡ places.old.items ++ (if taken then place ∷ [] else []) }
    ensures few { length places.new.items ≤ length places.old.items + 1 }
{
    if taken {
        places.push(place);
    }
}

/// A fact for the prover: a layout has passed its tests, so it has at most eight sidings, each within its stages.
fn is_accepted(layout: &Layout)
    ensures { IsAccepted layout.now }
{
    let _ = layout.stages();
}

/// Appends the first cells of the sidings that launch at the stage.
#[tactic(auto, unfolding(cf_index::specs::Sites::ways_in))]
fn push_entries(layout: &Layout, i: u32, places: &mut ArrayVec<usize, 10>)
    requires { length places.old.items ≤ 1 }
    ensures { places.new.items ≡ places.old.items ++ map place_number (ways_in layout.now i) }
{
    is_accepted(layout);
    for k in 0..layout.siding_count() {
        let launches = layout.launch_stage(k) == i;
        push_if(places, launches, cell(k as usize, 0));
    }
}

/// Appends the last cells of the sidings that recover at the stage.
#[tactic(auto, unfolding(cf_index::specs::Sites::ways_out))]
fn push_exits(layout: &Layout, i: u32, places: &mut ArrayVec<usize, 10>)
    requires { length places.old.items ≤ 1 }
    ensures { places.new.items ≡ places.old.items ++ map place_number (ways_out layout.now i) }
{
    is_accepted(layout);
    for k in 0..layout.siding_count() {
        let recovers = layout.recover_stage(k) == i;
        let last = layout.cells_of(k).saturating_sub(1);
        push_if(places, recovers, cell(k as usize, last as usize));
    }
}

/// Appends some sites.
fn push_all(places: &mut ArrayVec<usize, 10>, more: &[usize])
    requires { length places.old.items + length more.now ≤ 10 }
    ensures { places.new.items ≡ places.old.items ++ more.now }
{
    for place in more {
        places.push(*place);
    }
}

/// Puts the sites that the move uses into an empty list.
fn push_places(layout: &Layout, mv: Move, places: &mut ArrayVec<usize, 10>)
    requires { places.old.items ≡ [] }
    ensures { places.new.items ≡ place_numbers layout.now mv }
{
    let top = layout.stages() as usize;
    match mv {
        Move::Issue(_) => push_all(places, &[stage(1), LANE, FETCH, CODE]),
        Move::Emit => push_all(places, &[stage(top), LANE]),
        Move::Climb(i) => push_all(places, &[stage(i as usize), stage(i as usize + 1)]),
        Move::Fall(i) => push_all(
            places,
            &[stage(i as usize), stage(i.saturating_sub(1) as usize)],
        ),
        Move::Meet(i) | Move::Execute(i) | Move::Send(i) => places.push(stage(i as usize)),
        Move::Launch(i) => {
            places.push(stage(i as usize));
            push_entries(layout, i, places);
        }
        Move::Slide(k, c) => push_all(
            places,
            &[
                cell(k as usize, c as usize),
                cell(k as usize, c as usize + 1),
            ],
        ),
        Move::Access => {
            let (k, c) = port(layout);
            push_all(places, &[cell(k, c), MEMORY]);
        }
        Move::Recover(i) => {
            places.push(stage(i as usize));
            push_exits(layout, i, places);
        }
        Move::Leave => places.push(stage(top)),
        Move::Exit => push_all(places, &[stage(1), FETCH]),
        Move::Serve => push_all(places, &[stage(top), MEMORY, CODE]),
    }
}

/// The sites that the move uses, by their numbers.
pub(crate) fn places_of(layout: &Layout, mv: Move) -> ArrayVec<usize, 10>
    ensures { result.items ≡ place_numbers layout.now mv }
{
    let mut places = ArrayVec::new();
    push_places(layout, mv, &mut places);
    places
}
