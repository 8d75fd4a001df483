//! Values by register in keys: between two values is the number of registers without one.

ghost use Rattle.std.specs.Prelude.{◌≡◌, ◌≢◌, ℕ, ◌+◌, ◌<◌, ◌≤◌, ◌^◌, ◌∷◌, ◌++◌, List, Option, IfOk, MatchBool, length, map};
ghost use Rattle.order_keys.specs.Places.{packed_runs, packed_places, next_place, unpacked_places, register_place as held_of, held_in, packed_registers, unpacked_registers};

use crate::pack::Pack;
use crate::unread::Unread;
use std::alloc::AllocError;

/// Appends the contents of a place after this many empty ones, and returns how many empty ones are then not noted yet.
#[inline(always)]
#[tactic(auto, unfolding(crate::specs::Places::packed_runs))]
fn pack_place(place: Option<u32>, empty: u64, key: &mut Vec<u8>) -> Result<u64, AllocError>
    requires { empty < 2 ^ 63 }
    ensures runs { IfOk result
        (λ n. (more : List (Option ℕ)) → key.new.items ++ packed_runs n more ≡ key.old.items ++ packed_runs empty (place ∷ more)) }
    ensures count { IfOk result (λ n. n ≤ empty + 1) }
{
    match place {
        None => Ok(empty + 1),
        Some(value) => {
            empty.pack(key)?;
            value.pack(key)?;
            Ok(0)
        }
    }
}

/// Appends the places to a key.
#[tactic(auto, using(crate::proofs::PlaceSteps::one_more), unfolding(crate::specs::Places::packed_places))]
pub(crate) fn pack_places(places: &[Option<u32>], key: &mut Vec<u8>) -> Result<(), AllocError>
    ensures { IfOk result (λ _. key.new.items ≡ key.old.items ++ packed_places places.now) }
{
    (places.len() as u64).pack(key)?;
    let mut empty = 0;
    for place in places {
        empty = pack_place(*place, empty, key)?;
    }
    empty.pack(key)?;
    Ok(())
}

/// A register as a place, which is empty if the value is 0.
#[inline(always)]
fn held(value: u32) -> Option<u32>
    ensures { result ≡ held_of value }
{
    if value == 0 { None } else { Some(value) }
}

/// Appends the register file to a key.
#[tactic(auto, using(crate::proofs::PlaceSteps::one_register), unfolding(crate::specs::Places::packed_registers, crate::specs::Places::packed_places))]
pub(crate) fn pack_registers(regs: &[u32], key: &mut Vec<u8>) -> Result<(), AllocError>
    ensures { IfOk result (λ _. key.new.items ≡ key.old.items ++ packed_registers regs.now) }
{
    (regs.len() as u64).pack(key)?;
    let mut empty = 0;
    for value in regs {
        empty = pack_place(held(*value), empty, key)?;
    }
    empty.pack(key)?;
    Ok(())
}

/// Reads the contents of a place, after this many empty ones.
#[inline(always)]
#[tactic(auto, unfolding(crate::specs::Places::next_place))]
fn unpack_place(empty: &mut u64, key: &mut Unread<'_>) -> Option<u32>
    ensures { record { value = result; empty = empty.new; left = key.new } ≡ next_place empty.old key.old }
{
    if *empty == 0 {
        let value = u32::unpack(key);
        *empty = u64::unpack(key);
        Some(value)
    } else {
        *empty -= 1;
        None
    }
}

/// Reads 32 places from the unread bytes of a key into these; or returns `false` if the key does not hold 32.
#[tactic(auto, using(crate::proofs::PlacesRead::places_read), unfolding(crate::specs::Places::unpacked_places))]
pub(crate) fn unpack_places(places: &mut [Option<u32>; 32], key: &mut Unread<'_>) -> bool
    ensures read { MatchBool result (record { value = places.new; left = key.new } ≡ unpacked_places key.old)
        (length (unpacked_places key.old).value ≢ 32) }
    ensures size { length places.new ≡ 32 }
{
    let count = u64::unpack(key);
    if count != 32 {
        return false;
    }
    let mut empty = u64::unpack(key);
    for i in 0..32 {
        places[i] = unpack_place(&mut empty, key);
    }
    true
}

/// The value of a register that was read as a place.
#[inline(always)]
fn value_of(place: Option<u32>) -> u32
    ensures { result ≡ held_in place }
{
    match place {
        Some(value) => value,
        None => 0,
    }
}

/// Sets the registers to the values of these places.
#[tactic(auto, using(crate::proofs::PlacesRead::values_read))]
fn set_values(regs: &mut [u32; 32], places: &[Option<u32>; 32])
    ensures { regs.new ≡ map held_in places.now }
{
    for i in 0..32 {
        regs[i] = value_of(places[i]);
    }
}

/// Reads a register file from the unread bytes of a key into this one; or returns `false` if the key does not hold 32
/// registers.
#[tactic(auto, using(crate::proofs::PlacesRead::registers_read), unfolding(crate::specs::Places::unpacked_registers))]
pub(crate) fn unpack_registers(regs: &mut [u32; 32], key: &mut Unread<'_>) -> bool
    ensures { MatchBool result (record { value = regs.new; left = key.new } ≡ unpacked_registers key.old)
        (length (unpacked_registers key.old).value ≢ 32) }
{
    let mut places = [None; 32];
    if !unpack_places(&mut places, key) {
        return false;
    }
    set_values(regs, &places);
    true
}
