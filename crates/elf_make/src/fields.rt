//! The fields of a file: little-endian numbers.

ghost use Rattle.std.specs.Prelude.{◌≡◌, ◌++◌, OnOk};
ghost use Rattle.byteorder.specs.Endian.{little_bytes};
ghost use Rattle.elf_make.specs.Fields.{halves, words};

use byteorder::{ByteOrder, LittleEndian};
use std::alloc::AllocError;

fn half_bytes(number: u16) -> [u8; 2]
    ensures { result ≡ little_bytes 2 number }
{
    let mut bytes = [0; 2];
    LittleEndian::write_u16(&mut bytes, number);
    bytes
}

fn word_bytes(number: u32) -> [u8; 4]
    ensures { result ≡ little_bytes 4 number }
{
    let mut bytes = [0; 4];
    LittleEndian::write_u32(&mut bytes, number);
    bytes
}

/// Appends numbers of two bytes to the file.
#[tactic(auto, unfolding(crate::specs::Fields::halves))]
pub fn push_halves(file: &mut Vec<u8>, numbers: &[u16]) -> Result<(), AllocError>
    ensures { OnOk result (file.new.items ≡ file.old.items ++ halves numbers.now) }
{
    for number in numbers {
        file.extend_from_slice(&half_bytes(*number))?;
    }
    Ok(())
}

/// Appends numbers of four bytes to the file.
#[tactic(auto, unfolding(crate::specs::Fields::words))]
pub fn push_words(file: &mut Vec<u8>, numbers: &[u32]) -> Result<(), AllocError>
    ensures { OnOk result (file.new.items ≡ file.old.items ++ words numbers.now) }
{
    for number in numbers {
        file.extend_from_slice(&word_bytes(*number))?;
    }
    Ok(())
}
