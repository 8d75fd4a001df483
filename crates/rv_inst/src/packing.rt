//! Words built from their fields, with one function for each format.
#![tactic(auto, using(crate::proofs::Packed::packing))]

ghost use Rattle.std.specs.Prelude.{◌≡◌, ◌^◌, ℕ, ◌+◌, ◌*◌, ◌<◌, ◌≤◌, pos, negsuc, ◌≤ℤ◌, ◌<ℤ◌};
ghost use Rattle.rv_inst.specs.Formats.{HasFields, IsRType, IsIType, IsShiftType, IsFenceType, IsSType, IsBType, IsUType, IsJType};
ghost use Rattle.rv_inst.specs.Ranges.{IsRegister, IsWithin, IsEven, IsAmount};

/// A word from its six plain fields.
#[tactic(auto)]
fn pack(opcode: u32, rd: u32, funct3: u32, rs1: u32, rs2: u32, funct7: u32) -> u32
    requires opcode { opcode < 2 ^ 7 }
    requires rd { rd < 2 ^ 5 }
    requires funct3 { funct3 < 2 ^ 3 }
    requires rs1 { rs1 < 2 ^ 5 }
    requires rs2 { rs2 < 2 ^ 5 }
    requires funct7 { funct7 < 2 ^ 7 }
    ensures { HasFields result opcode rd funct3 rs1 rs2 funct7 }
{
    opcode | rd << 7 | funct3 << 12 | rs1 << 15 | rs2 << 20 | funct7 << 25
}

/// A word from its six plain fields, with a destination and a source given as registers.
#[tactic(auto)]
fn pack_rd_rs1(opcode: u32, funct3: u32, rd: u8, rs1: u8, rs2: u32, funct7: u32) -> u32
    requires opcode { opcode < 2 ^ 7 }
    requires funct3 { funct3 < 2 ^ 3 }
    requires rd { IsRegister rd }
    requires rs1 { IsRegister rs1 }
    requires rs2 { rs2 < 2 ^ 5 }
    requires funct7 { funct7 < 2 ^ 7 }
    ensures { HasFields result opcode rd funct3 rs1 rs2 funct7 }
{
    pack(opcode, u32::from(rd), funct3, u32::from(rs1), rs2, funct7)
}

/// An R-type word.
pub fn pack_r(opcode: u32, funct3: u32, funct7: u32, rd: u8, rs1: u8, rs2: u8) -> u32
    requires opcode { opcode < 2 ^ 7 }
    requires funct3 { funct3 < 2 ^ 3 }
    requires funct7 { funct7 < 2 ^ 7 }
    requires rd { IsRegister rd }
    requires rs1 { IsRegister rs1 }
    requires rs2 { IsRegister rs2 }
    ensures { IsRType result opcode funct3 funct7 rd rs1 rs2 }
{
    pack_rd_rs1(opcode, funct3, rd, rs1, u32::from(rs2), funct7)
}

/// An I-type word.
pub fn pack_i(opcode: u32, funct3: u32, rd: u8, rs1: u8, imm: i32) -> u32
    requires opcode { opcode < 2 ^ 7 }
    requires funct3 { funct3 < 2 ^ 3 }
    requires rd { IsRegister rd }
    requires rs1 { IsRegister rs1 }
    requires imm { IsWithin (2 ^ 11) imm }
    ensures { IsIType result opcode funct3 rd rs1 imm }
{
    let bits = imm.cast_unsigned();
    pack_rd_rs1(opcode, funct3, rd, rs1, bits & 0x1f, bits >> 5 & 0x7f)
}

/// The I-type word of a shift by a constant.
pub fn pack_shift(opcode: u32, funct3: u32, funct7: u32, rd: u8, rs1: u8, amount: i32) -> u32
    requires opcode { opcode < 2 ^ 7 }
    requires funct3 { funct3 < 2 ^ 3 }
    requires funct7 { funct7 < 2 ^ 7 }
    requires rd { IsRegister rd }
    requires rs1 { IsRegister rs1 }
    requires amount { IsAmount amount }
    ensures { IsShiftType result opcode funct3 funct7 rd rs1 amount }
{
    pack_rd_rs1(opcode, funct3, rd, rs1, amount as u32, funct7)
}

/// The I-type word of a fence, whose `imm` is the upper twelve bits, unchanged.
pub fn pack_fence(opcode: u32, funct3: u32, rd: u8, rs1: u8, imm: u32) -> u32
    requires opcode { opcode < 2 ^ 7 }
    requires funct3 { funct3 < 2 ^ 3 }
    requires rd { IsRegister rd }
    requires rs1 { IsRegister rs1 }
    requires imm { imm < 2 ^ 12 }
    ensures { IsFenceType result opcode funct3 rd rs1 imm }
{
    pack_rd_rs1(opcode, funct3, rd, rs1, imm & 0x1f, imm >> 5)
}

/// An S-type word.
pub fn pack_s(opcode: u32, funct3: u32, rs1: u8, rs2: u8, imm: i32) -> u32
    requires opcode { opcode < 2 ^ 7 }
    requires funct3 { funct3 < 2 ^ 3 }
    requires rs1 { IsRegister rs1 }
    requires rs2 { IsRegister rs2 }
    requires imm { IsWithin (2 ^ 11) imm }
    ensures { IsSType result opcode funct3 rs1 rs2 imm }
{
    let bits = imm.cast_unsigned();
    pack(
        opcode,
        bits & 0x1f,
        funct3,
        u32::from(rs1),
        u32::from(rs2),
        bits >> 5 & 0x7f,
    )
}

/// A B-type word.
pub fn pack_b(opcode: u32, funct3: u32, rs1: u8, rs2: u8, imm: i32) -> u32
    requires opcode { opcode < 2 ^ 7 }
    requires funct3 { funct3 < 2 ^ 3 }
    requires rs1 { IsRegister rs1 }
    requires rs2 { IsRegister rs2 }
    requires imm { IsWithin (2 ^ 12) imm }
    requires even { IsEven imm }
    ensures { IsBType result opcode funct3 rs1 rs2 imm }
{
    let bits = imm.cast_unsigned();
    let low = (bits >> 1 & 0xf) * 2 + (bits >> 11 & 1);
    let high = (bits >> 12 & 1) * 64 + (bits >> 5 & 0x3f);
    pack(opcode, low, funct3, u32::from(rs1), u32::from(rs2), high)
}

/// A U-type word.
pub fn pack_u(opcode: u32, rd: u8, imm: u32) -> u32
    requires opcode { opcode < 2 ^ 7 }
    requires rd { IsRegister rd }
    requires imm { imm < 2 ^ 20 }
    ensures { IsUType result opcode rd imm }
{
    pack(
        opcode,
        u32::from(rd),
        imm & 7,
        imm >> 3 & 0x1f,
        imm >> 8 & 0x1f,
        imm >> 13 & 0x7f,
    )
}

/// A J-type word.
pub fn pack_j(opcode: u32, rd: u8, imm: i32) -> u32
    requires opcode { opcode < 2 ^ 7 }
    requires rd { IsRegister rd }
    requires imm { IsWithin (2 ^ 20) imm }
    requires even { IsEven imm }
    ensures { IsJType result opcode rd imm }
{
    let bits = imm.cast_unsigned();
    let low = (bits >> 1 & 0xf) * 2 + (bits >> 11 & 1);
    let high = (bits >> 20 & 1) * 64 + (bits >> 5 & 0x3f);
    pack(
        opcode,
        u32::from(rd),
        bits >> 12 & 7,
        bits >> 15 & 0x1f,
        low,
        high,
    )
}
