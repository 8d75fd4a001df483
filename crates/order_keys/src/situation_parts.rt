//! States read from keys, each into the memory of another state.

ghost use Rattle.std.specs.Prelude.{◌≡◌, ◌<◌, IfOk, MatchBool, length};
ghost use Rattle.order_keys.specs.Lists.{unpacked_list};
ghost use Rattle.order_keys.specs.Numbers.{unpacked_byte};
ghost use Rattle.order_keys.specs.Stages.{lefts_of};
ghost use Rattle.order_keys.specs.Situations.{HasRegisters, unpacked_sidings, unpacked_pipes, unpacked_fetching, unpacked_situation, IsWhole};

use crate::lists::unpack_list;
use crate::pack::Pack;
use crate::places::{unpack_places, unpack_registers};
use crate::stages::unpack_stages;
use crate::unread::Unread;
use arrayvec::ArrayVec;
use cf_bind::{Cell, End, Fetch};
use order_model::{SidingOps, Situation};
use std::alloc::{AllocError, Global};

/// Reads sidings from the unread bytes of a key into these.
#[tactic(auto, unfolding(crate::specs::Situations::unpacked_sidings, crate::specs::Lists::unpacked_list))]
fn unpack_sidings(
    alloc: Global,
    sidings: &mut Vec<SidingOps>,
    key: &mut Unread<'_>,
) -> Result<(), AllocError>
    ensures { IfOk result (λ _. record { value = sidings.new.items; left = key.new } ≡ unpacked_sidings key.old) }
{
    let count = u64::unpack(key);
    sidings.clear();
    for _ in 0..count {
        let mut cells = Vec::with_capacity(alloc, 8)?;
        unpack_list(&mut cells, key)?;
        sidings.push(SidingOps::of(cells))?;
    }
    Ok(())
}

/// Reads a lane from the unread bytes of a key into this one; or returns `false` if the lane of the key has more than
/// 64 requests.
#[tactic(auto, using(crate::proofs::ListSteps::long_list), unfolding(crate::specs::Lists::unpacked_list))]
fn unpack_lane(lane: &mut ArrayVec<u8, 64>, key: &mut Unread<'_>) -> bool
    ensures { MatchBool result (record { value = lane.new.items; left = key.new } ≡ unpacked_list unpacked_byte key.old)
        (64 < length (unpacked_list unpacked_byte key.old).value) }
{
    let count = u64::unpack(key);
    if count > 64 {
        return false;
    }
    lane.clear();
    for _ in 0..count {
        lane.push(u8::unpack(key));
    }
    true
}

/// Reads stages, sidings and lane from the unread bytes of a key into these; or returns `false` if the lane of the key
/// has more than 64 requests.
#[tactic(auto, unfolding(crate::specs::Situations::unpacked_pipes, crate::specs::Compounds::unpacked_triple))]
fn unpack_pipes(
    alloc: Global,
    cells: &mut Vec<Cell>,
    lefts: &mut Vec<usize>,
    sidings: &mut Vec<SidingOps>,
    lane: &mut ArrayVec<u8, 64>,
    key: &mut Unread<'_>,
) -> Result<bool, AllocError>
    ensures pipes { IfOk result (λ found. MatchBool found
        (record { value = (cells.new.items, sidings.new.items, lane.new.items); left = key.new } ≡ unpacked_pipes key.old)
        (64 < length (unpacked_pipes key.old).value.2)) }
    ensures lefts { IfOk result (λ _. lefts.new.items ≡ lefts_of key.old) }
{
    unpack_stages(cells, lefts, key)?;
    unpack_sidings(alloc, sidings, key)?;
    Ok(unpack_lane(lane, key))
}

/// Reads fetch, cache and registers from the unread bytes of a key into these; or returns `false` if the cache or the
/// registers of the key are not 32.
#[tactic(auto, unfolding(crate::specs::Situations::unpacked_fetching, crate::specs::Compounds::unpacked_triple))]
fn unpack_fetching(
    fetch: &mut Fetch,
    cache: &mut [Option<u32>; 32],
    regs: &mut [u32; 32],
    key: &mut Unread<'_>,
) -> bool
    ensures read { MatchBool result (record { value = (fetch.new, cache.new, regs.new); left = key.new } ≡ unpacked_fetching key.old)
        (HasRegisters (unpacked_fetching key.old).value → ⊥) }
    ensures size { length cache.new ≡ 32 }
{
    *fetch = Fetch::unpack(key);
    if !unpack_places(cache, key) {
        return false;
    }
    unpack_registers(regs, key)
}

/// Reads a state from the unread bytes of a key into this one; or returns `false` if the lane of the key has more than
/// 64 requests, or its cache or its registers are not 32.
#[tactic(auto, unfolding(crate::specs::Situations::unpacked_situation, crate::specs::Situations::unpacked_past, crate::specs::Compounds::unpacked_triple, crate::specs::Compounds::unpacked_pair))]
pub(crate) fn unpack_situation(
    alloc: Global,
    s: &mut Situation,
    lefts: &mut Vec<usize>,
    key: &mut Unread<'_>,
) -> Result<bool, AllocError>
    ensures state { IfOk result (λ found. MatchBool found (record { value = s.new; left = key.new } ≡ unpacked_situation key.old)
        (IsWhole (unpacked_situation key.old).value → ⊥)) }
    ensures lefts { IfOk result (λ _. lefts.new.items ≡ lefts_of key.old) }
{
    if !unpack_pipes(alloc, &mut s.cells, lefts, &mut s.sidings, &mut s.lane, key)? {
        return Ok(false);
    }
    if !unpack_fetching(&mut s.fetch, &mut s.cache, &mut s.regs, key) {
        return Ok(false);
    }
    let (retired, ending) = <(u64, Option<End>)>::unpack(key);
    s.retired = retired;
    s.ending = ending;
    Ok(true)
}
