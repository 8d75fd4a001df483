//! States in keys.

ghost use Rattle.std.specs.Prelude.{◌≡◌, ◌++◌, IfOk};
ghost use Rattle.order_keys.specs.Situations.{packed_sidings, packed_pipes, pipes_of, packed_fetching, fetching_of, packed_situation};

use crate::lists::pack_list;
use crate::pack::Pack;
use crate::places::{pack_places, pack_registers};
use order_model::{SidingOps, Situation};
use std::alloc::AllocError;

/// Appends the sidings to a key.
#[tactic(auto, unfolding(crate::specs::Situations::packed_sidings, crate::specs::Lists::packed_list))]
fn pack_sidings(sidings: &[SidingOps], key: &mut Vec<u8>) -> Result<(), AllocError>
    ensures { IfOk result (λ _. key.new.items ≡ key.old.items ++ packed_sidings sidings.now) }
{
    (sidings.len() as u64).pack(key)?;
    for siding in sidings {
        pack_list(siding.cells(), key)?;
    }
    Ok(())
}

/// Appends the stages, the sidings and the lane to a key.
#[tactic(auto, unfolding(crate::specs::Situations::packed_pipes, crate::specs::Compounds::packed_triple))]
fn pack_pipes(situation: &Situation, key: &mut Vec<u8>) -> Result<(), AllocError>
    ensures { IfOk result (λ _. key.new.items ≡ key.old.items ++ packed_pipes (pipes_of situation.now)) }
{
    pack_list(&situation.cells, key)?;
    pack_sidings(&situation.sidings, key)?;
    pack_list(situation.lane.as_slice(), key)
}

/// Appends fetch, the cache and the registers to a key.
#[tactic(auto, unfolding(crate::specs::Situations::packed_fetching, crate::specs::Compounds::packed_triple))]
fn pack_fetching(situation: &Situation, key: &mut Vec<u8>) -> Result<(), AllocError>
    ensures { IfOk result (λ _. key.new.items ≡ key.old.items ++ packed_fetching (fetching_of situation.now)) }
{
    situation.fetch.pack(key)?;
    pack_places(&situation.cache, key)?;
    pack_registers(&situation.regs, key)
}

/// Appends the state to a key.
#[tactic(auto, unfolding(crate::specs::Situations::packed_situation, crate::specs::Situations::packed_past, crate::specs::Compounds::packed_triple, crate::specs::Compounds::packed_pair))]
pub(crate) fn pack_situation(situation: &Situation, key: &mut Vec<u8>) -> Result<(), AllocError>
    ensures { IfOk result (λ _. key.new.items ≡ key.old.items ++ packed_situation situation.now) }
{
    pack_pipes(situation, key)?;
    pack_fetching(situation, key)?;
    (situation.retired, situation.ending).pack(key)
}
