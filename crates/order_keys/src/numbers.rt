//! Numbers in keys.

ghost use Rattle.std.specs.Prelude.{◌≡◌, ◌+◌, ◌*◌, ◌<◌, ◌≤◌, ◌^◌, ◌++◌, IfOk, vec_capacity, vec_len};
ghost use Rattle.order_keys.specs.Numbers.{packed_two, packed_four, packed_word, packed_long, unpacked_two, unpacked_four, unpacked_wide, unpacked_eight, folded as folded_of, unfolded as unfolded_of};

use crate::pack::Pack;
use crate::unread::Unread;
use std::alloc::AllocError;

/// Marks a number of two bytes, which follow it.
const TWO: u8 = 253;

/// Marks a number of four bytes, which follow it.
const FOUR: u8 = 254;

/// Marks a number of eight bytes, which follow it.
const EIGHT: u8 = 255;

/// Appends a number below 2^16, its lower byte first, to a key that has room for it.
#[inline(always)]
#[tactic(auto, unfolding(crate::specs::Numbers::packed_two))]
fn put_two(number: u32, key: &mut Vec<u8>)
    requires small { number < 65536 }
    requires room { vec_len key.old + 2 ≤ vec_capacity key.old }
    ensures items { key.new.items ≡ key.old.items ++ packed_two number }
    ensures len { vec_len key.new ≡ vec_len key.old + 2 }
    ensures capacity { vec_capacity key.new ≡ vec_capacity key.old }
{
    key.push_reserved((number % 256) as u8);
    key.push_reserved((number / 256) as u8);
}

/// Appends a number, its lower half first, to a key that has room for it.
#[inline(always)]
#[tactic(auto, unfolding(crate::specs::Numbers::packed_four))]
fn put_four(number: u32, key: &mut Vec<u8>)
    requires room { vec_len key.old + 4 ≤ vec_capacity key.old }
    ensures items { key.new.items ≡ key.old.items ++ packed_four number }
    ensures len { vec_len key.new ≡ vec_len key.old + 4 }
    ensures capacity { vec_capacity key.new ≡ vec_capacity key.old }
{
    put_two(number % 65536, key);
    put_two(number / 65536, key);
}

/// Appends a number that does not fit into one byte, in the shortest of the longer forms.
#[tactic(auto, unfolding(crate::specs::Numbers::packed_word))]
fn pack_wide(number: u32, key: &mut Vec<u8>) -> Result<(), AllocError>
    requires { 253 ≤ number }
    ensures { IfOk result (λ _. key.new.items ≡ key.old.items ++ packed_word number) }
{
    if number < 65536 {
        key.reserve(3)?;
        key.push_reserved(TWO);
        put_two(number, key);
        Ok(())
    } else {
        key.reserve(5)?;
        key.push_reserved(FOUR);
        put_four(number, key);
        Ok(())
    }
}

/// Appends a number that does not fit into four bytes, its lower half first.
#[tactic(auto, unfolding(crate::specs::Numbers::packed_long, crate::specs::Numbers::packed_eight))]
fn pack_widest(number: u64, key: &mut Vec<u8>) -> Result<(), AllocError>
    requires { 2 ^ 32 ≤ number }
    ensures { IfOk result (λ _. key.new.items ≡ key.old.items ++ packed_long number) }
{
    key.reserve(9)?;
    key.push_reserved(EIGHT);
    put_four((number % 0x1_0000_0000) as u32, key);
    put_four((number / 0x1_0000_0000) as u32, key);
    Ok(())
}

/// Reads a number of two bytes.
#[tactic(auto, unfolding(crate::specs::Numbers::unpacked_two))]
fn unpack_two(key: &mut Unread<'_>) -> u32
    ensures value { result ≡ (unpacked_two key.old).value }
    ensures left { key.new ≡ (unpacked_two key.old).left }
    ensures small { result < 65536 }
{
    let low = key.byte();
    let high = key.byte();
    u32::from(low) + 256 * u32::from(high)
}

/// Reads a number of four bytes.
#[tactic(auto, unfolding(crate::specs::Numbers::unpacked_four))]
fn unpack_four(key: &mut Unread<'_>) -> u32
    ensures value { result ≡ (unpacked_four key.old).value }
    ensures left { key.new ≡ (unpacked_four key.old).left }
{
    let low = unpack_two(key);
    let high = unpack_two(key);
    low + 65536 * high
}

/// Reads a number in a form longer than one byte, whose first byte has been read.
#[tactic(auto, unfolding(crate::specs::Numbers::unpacked_wide))]
fn unpack_wide(first: u8, key: &mut Unread<'_>) -> u32
    ensures value { result ≡ (unpacked_wide first key.old).value }
    ensures left { key.new ≡ (unpacked_wide first key.old).left }
{
    if first == TWO {
        unpack_two(key)
    } else {
        unpack_four(key)
    }
}

/// Reads a number of eight bytes.
#[tactic(auto, unfolding(crate::specs::Numbers::unpacked_eight))]
fn unpack_eight(key: &mut Unread<'_>) -> u64
    ensures value { result ≡ (unpacked_eight key.old).value }
    ensures left { key.new ≡ (unpacked_eight key.old).left }
{
    let low = unpack_four(key);
    let high = unpack_four(key);
    u64::from(low) + 0x1_0000_0000 * u64::from(high)
}

/// The signed number as an unsigned one, those near 0 first: 0, -1, 1, -2 and so on.
#[inline(always)]
fn folded(number: i32) -> u32
    ensures { result ≡ folded_of number }
{
    let size = number.unsigned_abs();
    if number < 0 {
        2 * (size - 1) + 1
    } else {
        2 * size
    }
}

/// The signed number of this unsigned one.
#[inline(always)]
fn unfolded(number: u32) -> i32
    ensures { result ≡ unfolded_of number }
{
    let half = (number / 2).cast_signed();
    if number % 2 == 0 { half } else { -1 - half }
}

impl Pack for u8 {
    ghost use Rattle.order_keys.specs.Numbers.{packed_byte, unpacked_byte};

    ghost packed = { packed_byte };

    ghost unpacked = { unpacked_byte };

    #[inline(always)]
    #[tactic(auto, unfolding(crate::specs::Numbers::packed_byte))]
    fn pack(&self, key: &mut Vec<u8>) -> Result<(), AllocError> {
        key.push(*self)?;
        Ok(())
    }

    #[inline(always)]
    #[tactic(auto, unfolding(crate::specs::Numbers::unpacked_byte))]
    fn unpack(key: &mut Unread<'_>) -> u8 {
        key.byte()
    }
}

impl Pack for u32 {
    ghost use Rattle.order_keys.specs.Numbers.{packed_word, unpacked_word};

    ghost packed = { packed_word };

    ghost unpacked = { unpacked_word };

    #[inline(always)]
    #[tactic(auto, unfolding(crate::specs::Numbers::packed_word))]
    fn pack(&self, key: &mut Vec<u8>) -> Result<(), AllocError> {
        let number = *self;
        if number < u32::from(TWO) {
            key.push(number as u8)?;
            Ok(())
        } else {
            pack_wide(number, key)
        }
    }

    #[inline(always)]
    #[tactic(auto, unfolding(crate::specs::Numbers::unpacked_word))]
    fn unpack(key: &mut Unread<'_>) -> u32 {
        let first = key.byte();
        if first < TWO {
            u32::from(first)
        } else {
            unpack_wide(first, key)
        }
    }
}

impl Pack for u64 {
    ghost use Rattle.order_keys.specs.Numbers.{packed_long, unpacked_long};

    ghost packed = { packed_long };

    ghost unpacked = { unpacked_long };

    #[inline(always)]
    #[tactic(auto, unfolding(crate::specs::Numbers::packed_long))]
    fn pack(&self, key: &mut Vec<u8>) -> Result<(), AllocError> {
        let number = *self;
        if number < 0x1_0000_0000 {
            (number as u32).pack(key)
        } else {
            pack_widest(number, key)
        }
    }

    #[inline(always)]
    #[tactic(auto, unfolding(crate::specs::Numbers::unpacked_long))]
    fn unpack(key: &mut Unread<'_>) -> u64 {
        if key.next() == EIGHT {
            let _ = key.byte();
            unpack_eight(key)
        } else {
            u64::from(u32::unpack(key))
        }
    }
}

impl Pack for i32 {
    ghost use Rattle.order_keys.specs.Numbers.{packed_signed, unpacked_signed};

    ghost packed = { packed_signed };

    ghost unpacked = { unpacked_signed };

    #[inline(always)]
    #[tactic(auto, unfolding(crate::specs::Numbers::packed_signed))]
    fn pack(&self, key: &mut Vec<u8>) -> Result<(), AllocError> {
        folded(*self).pack(key)
    }

    #[inline(always)]
    #[tactic(auto, unfolding(crate::specs::Numbers::unpacked_signed))]
    fn unpack(key: &mut Unread<'_>) -> i32 {
        unfolded(u32::unpack(key))
    }
}
