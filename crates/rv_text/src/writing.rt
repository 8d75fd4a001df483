//! The text of an instruction.
#![tactic(auto, unfolding(crate::specs::Writing::hexadecimal, crate::specs::Writing::operand_text))]

ghost use Rattle.std.specs.Prelude.{◌≡◌, ◌+◌, ◌*◌, ◌<◌, ◌≤◌, ◌++◌, codes, length, min, ◌==◌, [], ◌∷◌, Ok};
ghost use Rattle.std.specs.List.{prefix_len};
ghost use Rattle.std.specs.Fmt.{signed_decimal};
ghost use Rattle.rv_inst.specs.Ranges.{Fits};
ghost use Rattle.rv_text.specs.Writing.{hexadecimal, register_text, operand_text, operands_listed, target_operand, fence_operands, operands_of, text_of};
ghost use Rattle.rv_text.specs.Reading.{read_text};

use crate::mnemonic::Mnemonic;
use crate::operands::Operand::{self, Address, Number, Register, Target, Upper};
use crate::text_line::TextLine;
use itoa::Buffer;
use rv_inst::Instr;
use texts::hex8;

fn put_register(line: &mut TextLine, register: u8)
    requires { length line.old + 4 ≤ 80 }
    ensures text { line.new ≡ line.old ++ register_text register }
    ensures short { length line.new ≤ length line.old + 4 }
{
    let mut buffer = Buffer::new();
    line.put(b"x");
    line.put(buffer.format(register).as_bytes());
}

fn put_number(line: &mut TextLine, number: i32)
    requires { length line.old + 11 ≤ 80 }
    ensures text { line.new ≡ line.old ++ signed_decimal number }
    ensures short { length line.new ≤ length line.old + 11 }
{
    let mut buffer = Buffer::new();
    line.put(buffer.format(number).as_bytes());
}

/// The number of leading zeros; the last of the eight digits does not count.
fn count_zeros(digits: &[u8; 8]) -> usize
    ensures zeros { result ≡ min (prefix_len (λ digit. digit == 48) digits.now) 7 }
{
    let mut zeros = 0;
    while zeros < 7 && digits[zeros] == b'0' {
        zeros += 1;
    }
    zeros
}

fn put_upper(line: &mut TextLine, field: u32)
    requires { length line.old + 10 ≤ 80 }
    ensures text { line.new ≡ line.old ++ codes "0x" ++ hexadecimal field }
    ensures short { length line.new ≤ length line.old + 10 }
{
    let digits = hex8(field);
    line.put(b"0x");
    line.put(&digits[count_zeros(&digits)..]);
}

fn put_operand(line: &mut TextLine, operand: Operand)
    requires { length line.old + 17 ≤ 80 }
    ensures text { line.new ≡ line.old ++ operand_text operand }
    ensures short { length line.new ≤ length line.old + 17 }
{
    match operand {
        Register(register) => put_register(line, register),
        Number(number) => put_number(line, number),
        Upper(field) => put_upper(line, field),
        Target(address) => {
            line.put(b"0x");
            line.put(&hex8(address));
        }
        Address(number, register) => {
            put_number(line, number);
            line.put(b"(");
            put_register(line, register);
            line.put(b")");
        }
    }
}

#[tactic(auto, unfolding(crate::specs::Writing::operands_listed))]
fn put_two(line: &mut TextLine, first: Operand, second: Operand)
    requires { length line.old + 37 ≤ 80 }
    ensures text { line.new ≡ line.old ++ operands_listed (codes " ") (first ∷ second ∷ []) }
    ensures short { length line.new ≤ length line.old + 37 }
{
    line.put(b" ");
    put_operand(line, first);
    line.put(b", ");
    put_operand(line, second);
}

#[tactic(auto, unfolding(crate::specs::Writing::operands_listed))]
fn put_three(line: &mut TextLine, first: Operand, second: Operand, third: Operand)
    requires { length line.old + 56 ≤ 80 }
    ensures { line.new ≡ line.old ++ operands_listed (codes " ") (first ∷ second ∷ third ∷ []) }
{
    put_two(line, first, second);
    line.put(b", ");
    put_operand(line, third);
}

fn target(pc: u32, distance: i32) -> Operand
    ensures { result ≡ target_operand pc distance }
{
    Target(pc.wrapping_add(distance.cast_unsigned()))
}

#[tactic(auto, unfolding(crate::specs::Writing::operands_listed))]
fn put_fence(line: &mut TextLine, plain: u32, rd: u8, rs1: u8, set: u32)
    requires room { length line.old + 57 ≤ 80 }
    requires set { set < 4096 }
    ensures { line.new ≡ line.old ++ operands_listed (codes " ") (fence_operands plain rd rs1 set) }
{
    if rd != 0 || rs1 != 0 || set != plain {
        put_three(line, Register(rd), Register(rs1), Number(set as i32));
    }
}

#[tactic(auto, unfolding(crate::specs::Writing::operands_listed))]
fn put_operands_of(i: Instr, pc: u32, line: &mut TextLine)
    requires fits { Fits i }
    requires room { length line.old + 57 ≤ 80 }
    ensures { line.new ≡ line.old ++ operands_listed (codes " ") (operands_of i pc) }
{
    match i {
        Instr::Lui { rd, imm } => put_two(line, Register(rd), Upper(imm)),
        Instr::Auipc { rd, imm } => put_two(line, Register(rd), Upper(imm)),
        Instr::Jal { rd, imm } => put_two(line, Register(rd), target(pc, imm)),
        Instr::Jalr { rd, rs1, imm } => put_two(line, Register(rd), Address(imm, rs1)),
        Instr::Branch { rs1, rs2, imm, .. } => {
            put_three(line, Register(rs1), Register(rs2), target(pc, imm));
        }
        Instr::Load { rd, rs1, imm, .. } => put_two(line, Register(rd), Address(imm, rs1)),
        Instr::Store { rs1, rs2, imm, .. } => put_two(line, Register(rs2), Address(imm, rs1)),
        Instr::OpImm { rd, rs1, imm, .. } => {
            put_three(line, Register(rd), Register(rs1), Number(imm));
        }
        Instr::Op { rd, rs1, rs2, .. } => {
            put_three(line, Register(rd), Register(rs1), Register(rs2));
        }
        Instr::Mul { rd, rs1, rs2, .. } => {
            put_three(line, Register(rd), Register(rs1), Register(rs2));
        }
        Instr::Fence { rd, rs1, imm } => put_fence(line, 255, rd, rs1, imm),
        Instr::FenceI { rd, rs1, imm } => put_fence(line, 0, rd, rs1, imm),
        Instr::Ecall | Instr::Ebreak => {}
    }
}

/// Replaces the contents of the line by the text of the instruction at `pc`.
#[tactic(auto, using(crate::proofs::RoundTrip::reading_back), unfolding(crate::specs::Writing::text_of))]
pub fn write_instr(i: Instr, pc: u32, line: &mut TextLine)
    requires { Fits i }
    ensures text { line.new ≡ text_of i pc }
    ensures back { read_text line.new pc ≡ Ok i }
{
    line.clear();
    line.put(Mnemonic::of(i).name());
    put_operands_of(i, pc, line);
}
