//! The fields of an instruction word, cut out by shifts and masks.

ghost use Rattle.std.specs.Prelude.{◌≡◌, ◌+◌, ◌<◌, ◌≤◌, ◌^◌};
ghost use Rattle.rv_inst.specs.Fields.{bits, opcode, rd_of, funct3, rs1_of, rs2_of, funct7, high12, imm_i, imm_s, imm_b, imm_u, imm_j, signed_below};

/// Bits 6 to 0.
#[inline(always)]
#[tactic(auto, using(crate::proofs::Masks::mask_7), unfolding(crate::specs::Fields::opcode))]
pub fn opcode(word: u32) -> u32
    ensures { result ≡ opcode word }
{
    word & 0x7f
}

/// Bits 11 to 7: the destination register.
#[inline(always)]
#[tactic(auto, using(crate::proofs::Masks::mask_5), unfolding(crate::specs::Fields::rd_of))]
pub fn rd(word: u32) -> u8
    ensures { result ≡ rd_of word }
{
    (word >> 7 & 0x1f) as u8
}

/// Bits 14 to 12.
#[inline(always)]
#[tactic(auto, using(crate::proofs::Masks::mask_3), unfolding(crate::specs::Fields::funct3))]
pub fn funct3(word: u32) -> u32
    ensures { result ≡ funct3 word }
{
    word >> 12 & 7
}

/// Bits 19 to 15: the first source register.
#[inline(always)]
#[tactic(auto, using(crate::proofs::Masks::mask_5), unfolding(crate::specs::Fields::rs1_of))]
pub fn rs1(word: u32) -> u8
    ensures { result ≡ rs1_of word }
{
    (word >> 15 & 0x1f) as u8
}

/// Bits 24 to 20: the second source register, or the amount of a shift.
#[inline(always)]
#[tactic(auto, using(crate::proofs::Masks::mask_5), unfolding(crate::specs::Fields::rs2_of))]
pub fn rs2(word: u32) -> u8
    ensures { result ≡ rs2_of word }
{
    (word >> 20 & 0x1f) as u8
}

/// Bits 31 to 25.
#[inline(always)]
#[tactic(auto, unfolding(crate::specs::Fields::funct7))]
pub fn funct7(word: u32) -> u32
    ensures { result ≡ funct7 word }
{
    word >> 25
}

/// Bits 31 to 20, unchanged, as the fences hold them.
#[inline(always)]
#[tactic(auto, unfolding(crate::specs::Fields::high12))]
pub fn high12(word: u32) -> u32
    ensures { result ≡ high12 word }
{
    word >> 20
}

/// The I-immediate: bits 31 to 20, sign-extended.
#[inline(always)]
#[tactic(auto, unfolding(crate::specs::Fields::imm_i))]
pub fn imm_i(word: u32) -> i32
    ensures { result ≡ imm_i word }
{
    word.cast_signed() >> 20
}

/// Bits 11 to 7.
#[inline(always)]
#[tactic(auto, using(crate::proofs::Masks::mask_5))]
fn bits_11_7(word: u32) -> u32
    ensures { result ≡ bits 11 7 word }
{
    word >> 7 & 0x1f
}

/// The S-immediate: bits 31 to 25, 11 to 7, sign-extended.
#[inline(always)]
#[tactic(auto, unfolding(crate::specs::Fields::imm_s))]
pub fn imm_s(word: u32) -> i32
    ensures { result ≡ imm_s word }
{
    (word.cast_signed() >> 25) * 0x20 + bits_11_7(word) as i32
}

/// Bit 7.
#[inline(always)]
#[tactic(auto, using(crate::proofs::Masks::mask_1))]
fn bit_7(word: u32) -> u32
    ensures { result ≡ bits 7 7 word }
{
    word >> 7 & 1
}

/// Bits 30 to 25.
#[inline(always)]
#[tactic(auto, using(crate::proofs::Masks::mask_6))]
fn bits_30_25(word: u32) -> u32
    ensures { result ≡ bits 30 25 word }
{
    word >> 25 & 0x3f
}

/// Bits 11 to 8.
#[inline(always)]
#[tactic(auto, using(crate::proofs::Masks::mask_4))]
fn bits_11_8(word: u32) -> u32
    ensures { result ≡ bits 11 8 word }
{
    word >> 8 & 0xf
}

/// Bits 19 to 12.
#[inline(always)]
#[tactic(auto, using(crate::proofs::Masks::mask_8))]
fn bits_19_12(word: u32) -> u32
    ensures { result ≡ bits 19 12 word }
{
    word >> 12 & 0xff
}

/// Bit 20.
#[inline(always)]
#[tactic(auto, using(crate::proofs::Masks::mask_1))]
fn bit_20(word: u32) -> u32
    ensures { result ≡ bits 20 20 word }
{
    word >> 20 & 1
}

/// Bits 30 to 21.
#[inline(always)]
#[tactic(auto, using(crate::proofs::Masks::mask_10))]
fn bits_30_21(word: u32) -> u32
    ensures { result ≡ bits 30 21 word }
{
    word >> 21 & 0x3ff
}

/// The B-immediate: bits 31, 7, 30 to 25, 11 to 8 and a zero bit, sign-extended.
#[inline(always)]
#[tactic(auto, unfolding(crate::specs::Fields::imm_b))]
pub fn imm_b(word: u32) -> i32
    ensures { result ≡ imm_b word }
{
    let low = bit_7(word) * 0x800 + bits_30_25(word) * 0x20 + bits_11_8(word) * 2;
    (word.cast_signed() >> 31) * 0x1000 + low as i32
}

/// The U-immediate: bits 31 to 12, in units of 4096.
#[inline(always)]
#[tactic(auto, unfolding(crate::specs::Fields::imm_u))]
pub fn imm_u(word: u32) -> u32
    ensures { result ≡ imm_u word }
{
    word >> 12
}

/// The J-immediate: bits 31, 19 to 12, 20, 30 to 21 and a zero bit, sign-extended.
#[inline(always)]
#[tactic(auto, unfolding(crate::specs::Fields::imm_j))]
pub fn imm_j(word: u32) -> i32
    ensures { result ≡ imm_j word }
{
    let low = bits_19_12(word) * 0x1000 + bit_20(word) * 0x800 + bits_30_21(word) * 2;
    (word.cast_signed() >> 31) * 0x10_0000 + low as i32
}
