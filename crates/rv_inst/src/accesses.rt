//! The memory access of a load or a store, and the value that a load computes from what it read.
#![tactic(auto, using(crate::proofs::Masks::masks), unfolding(crate::specs::Accesses::access_made, crate::specs::Accesses::load_value, crate::specs::Accesses::extended))]

ghost use Rattle.std.specs.Prelude.{◌≡◌, ◌⊎◌, false, IsTrue, ◌^◌, ◌<◌};
ghost use Rattle.rv_inst.specs.Operands.{class_of};
ghost use Rattle.rv_inst.specs.declared.classes.Class.{Class};
ghost use Rattle.rv_inst.specs.Accesses.{is_load, access_made, extended, load_width, store_width, load_value};

use crate::instruction::{Instr, LoadKind, StoreKind};

/// One access to the memory.
#[derive(Clone, Copy)]
pub struct Access {
    /// The address of the first byte.
    pub addr: u32,
    /// How many bytes: 1, 2 or 4.
    pub width: u32,
    /// Whether it is a store.
    pub write: bool,
    /// The value to be stored, 0 for a load.
    pub value: u32,
}

#[inline(always)]
fn load_width(kind: LoadKind) -> u32
    ensures { result ≡ load_width kind }
{
    match kind {
        LoadKind::Byte | LoadKind::ByteU => 1,
        LoadKind::Half | LoadKind::HalfU => 2,
        LoadKind::Word => 4,
    }
}

#[inline(always)]
fn store_width(kind: StoreKind) -> u32
    ensures { result ≡ store_width kind }
{
    match kind {
        StoreKind::Byte => 1,
        StoreKind::Half => 2,
        StoreKind::Word => 4,
    }
}

/// The access of a load or a store whose first source has the value `a` and whose second has `b`.
#[inline(always)]
pub fn access_of(i: Instr, a: u32, b: u32) -> Access
    requires memory { class_of i ≡ Class.Memory }
    ensures access { result ≡ access_made i a b }
    ensures width { (result.width ≡ 1) ⊎ (result.width ≡ 2) ⊎ (result.width ≡ 4) }
    ensures load { result.write ≡ false → IsTrue (is_load i) }
{
    match i {
        Instr::Load { kind, imm, .. } => Access {
            addr: a.wrapping_add(imm.cast_unsigned()),
            width: load_width(kind),
            write: false,
            value: 0,
        },
        Instr::Store { kind, imm, .. } => Access {
            addr: a.wrapping_add(imm.cast_unsigned()),
            width: store_width(kind),
            write: true,
            value: b,
        },
        _ => unreachable!(),
    }
}

#[inline(always)]
fn load_value(kind: LoadKind, raw: u32) -> u32
    ensures { result ≡ load_value kind raw }
{
    match kind {
        LoadKind::Byte => i32::from(((raw & 0xff) as u8).cast_signed()).cast_unsigned(),
        LoadKind::Half => i32::from(((raw & 0xffff) as u16).cast_signed()).cast_unsigned(),
        LoadKind::Word => raw,
        LoadKind::ByteU => raw & 0xff,
        LoadKind::HalfU => raw & 0xffff,
    }
}

/// The value that a load writes to its register when it has read `raw`: the low 8 or 16 bits, sign-extended or
/// zero-extended, or the whole word.
#[inline(always)]
pub fn extend(i: Instr, raw: u32) -> u32
    requires load { IsTrue (is_load i) }
    ensures { result ≡ extended i raw }
{
    match i {
        Instr::Load { kind, .. } => load_value(kind, raw),
        _ => raw,
    }
}
