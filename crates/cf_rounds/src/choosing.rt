//! Choosing the round of some candidates.

ghost use Rattle.std.specs.Prelude.{◌≡◌, ◌<◌, ◌++◌, ◌∷◌, [], length, if◌then◌else◌};
ghost use Rattle.std.specs.List.{AllByRecursion, find};
ghost use Rattle.cf_semantics.specs.moves.Sites.{ends_there as ends_there_of};
ghost use Rattle.cf_index.specs.Sites.{HasSites};
ghost use Rattle.cf_index.specs.Alone.{stands_alone};
ghost use Rattle.cf_rounds.specs.Rounds.{AreCandidates, IsFull, IsRound, round_of, shares_any, taken_moves};

use crate::round_set::RoundSet;
use cf_bind::Move;
use cf_core::Core;
use cf_index::{Candidates, shares};

/// Whether a live instruction that ends the program is in the highest stage.
fn ends_there(core: &Core) -> bool
    ensures { result ≡ ends_there_of core.now.plan core.now.state }
{
    let cell = core.stage(core.layout().stages());
    match cell.passenger {
        Some(passenger) => !passenger.dead && passenger.ending.is_some(),
        None => false,
    }
}

/// Whether the move is made alone.
fn stands_alone(core: &Core, mv: Move) -> bool
    ensures { result ≡ stands_alone core.now.plan core.now.state mv }
{
    match mv {
        Move::Serve => true,
        Move::Leave => ends_there(core),
        _ => false,
    }
}

/// The first candidate that is made alone.
#[tactic(auto, using(crate::proofs::InOrder::find_next, crate::proofs::InOrder::find_here, crate::proofs::InOrder::find_past))]
fn alone(core: &Core, c: &Candidates) -> Option<Move>
    ensures { result ≡ find (stands_alone core.now.plan core.now.state) c.now }
{
    for place in 0..c.len() {
        let mv = c.pick(place);
        if stands_alone(core, mv) {
            return Some(mv);
        }
    }
    None
}

/// Whether the move shares a site with one of the round.
#[tactic(auto, using(crate::proofs::InOrder::any_next, crate::proofs::InOrder::any_here, crate::proofs::InOrder::any_past))]
fn shares_any(core: &Core, set: &RoundSet, mv: Move) -> bool
    requires there { HasSites core.now.plan mv }
    requires others { AllByRecursion (HasSites core.now.plan) set.now }
    ensures { result ≡ shares_any core.now.plan set.now mv }
{
    for place in 0..set.len() {
        if shares(core.layout(), mv, set.get(place)) {
            return true;
        }
    }
    false
}

/// Takes the move, unless it shares a site with one that is taken.
fn take(core: &Core, set: &mut RoundSet, mv: Move)
    requires there { HasSites core.now.plan mv }
    requires others { AllByRecursion (HasSites core.now.plan) set.old }
    requires few { length set.old < 128 }
    ensures { set.new ≡ (if shares_any core.now.plan set.old mv then set.old else set.old ++ mv ∷ []) }
{
    if !shares_any(core, set, mv) {
        set.push(mv);
    }
}

/// Takes each candidate, in order, that shares no site with one that is taken.
fn take_all(core: &Core, c: &Candidates, set: &mut RoundSet)
    requires candidates { AreCandidates core.now.plan core.now.state c.now }
    requires empty { set.old ≡ [] }
    ensures { set.new ≡ taken_moves core.now.plan [] c.now }
{
    let _ = core.layout();
    for place in 0..c.len() {
        take(core, set, c.pick(place));
    }
}

/// Makes the set hold the round of the candidates, held back or not. If one of them is Serve, or the Leave of a live
/// instruction that ends the program, the round is that move alone. Otherwise it has, in order, each candidate that
/// shares no site with those already taken. So no two moves of a round share a site, and each candidate that it leaves
/// out shares a site with one of its moves.
pub fn choose(core: &Core, c: &Candidates, set: &mut RoundSet)
    requires candidates { AreCandidates core.now.plan core.now.state c.now }
    requires some { 0 < length c.now }
    ensures round { set.new ≡ round_of core.now.plan core.now.state c.now }
    ensures is_round { IsRound core.now.plan core.now.state set.new }
    ensures full { IsFull core.now.plan core.now.state c.now set.new }
    ensures some { 0 < length set.new }
{
    set.clear();
    match alone(core, c) {
        Some(mv) => set.push(mv),
        None => take_all(core, c, set),
    }
}
