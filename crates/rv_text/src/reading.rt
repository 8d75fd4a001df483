//! The instruction that a text spells.
#![tactic(auto, unfolding(crate::specs::Reading::upper_form, crate::specs::Reading::address_form, crate::specs::Reading::immediate_form, crate::specs::Reading::register_form, crate::specs::Reading::set_form, crate::specs::Reading::fence_form, crate::specs::Reading::jump_form, crate::specs::Reading::branch_form, crate::specs::Reading::takes_operands))]

ghost use Rattle.std.specs.Prelude.{◌≡◌, Ok, Err, MatchResult};
ghost use Rattle.rv_text.specs.Seen.{ReadsStatement};
ghost use Rattle.rv_text.specs.Reading.{upper_form, address_form, immediate_form, register_form, set_form, fence_form, jump_form, branch_form, operands_read, wanted, is_fence, takes_operands, capped_count, statement_by, statement_of, aimed_at, read_text};

use crate::fields::{base_in, field_below, immediate_of, offset_in, register_in};
use crate::mnemonic::Mnemonic;
use crate::numbers::read_number;
use crate::pieces::{count_operands, operand, split_name};
use crate::statement::{Jump, Statement, distance};
use crate::text_err::TextErr;
use rv_inst::{Cond, ImmOp, Instr};

fn upper_form(text: &[u8]) -> Result<(u8, u32), TextErr>
    ensures { result ≡ upper_form text.now }
{
    let rd = register_in(operand(text, 0))?;
    let imm = field_below(0x10_0000, operand(text, 1))?;
    Ok((rd, imm))
}

fn address_form(text: &[u8]) -> Result<(u8, i32, u8), TextErr>
    ensures { result ≡ address_form text.now }
{
    let first = register_in(operand(text, 0))?;
    let imm = offset_in(operand(text, 1))?;
    let base = base_in(operand(text, 1))?;
    Ok((first, imm, base))
}

fn immediate_form(op: ImmOp, text: &[u8]) -> Result<(u8, u8, i32), TextErr>
    ensures { result ≡ immediate_form op text.now }
{
    let rd = register_in(operand(text, 0))?;
    let rs1 = register_in(operand(text, 1))?;
    let imm = immediate_of(op, operand(text, 2))?;
    Ok((rd, rs1, imm))
}

fn register_form(text: &[u8]) -> Result<(u8, u8, u8), TextErr>
    ensures { result ≡ register_form text.now }
{
    let rd = register_in(operand(text, 0))?;
    let rs1 = register_in(operand(text, 1))?;
    let rs2 = register_in(operand(text, 2))?;
    Ok((rd, rs1, rs2))
}

fn set_form(text: &[u8]) -> Result<(u8, u8, u32), TextErr>
    ensures { result ≡ set_form text.now }
{
    let rd = register_in(operand(text, 0))?;
    let rs1 = register_in(operand(text, 1))?;
    let set = field_below(0x1000, operand(text, 2))?;
    Ok((rd, rs1, set))
}

fn fence_form(plain: u32, text: &[u8]) -> Result<(u8, u8, u32), TextErr>
    ensures { result ≡ fence_form plain text.now }
{
    if count_operands(text) == 0 {
        Ok((0, 0, plain))
    } else {
        set_form(text)
    }
}

fn jump_form(text: &[u8]) -> Result<Statement<'_>, TextErr>
    ensures { ReadsStatement result (jump_form text.now) }
{
    let rd = register_in(operand(text, 0))?;
    Ok(Statement::Aimed(Jump::Link(rd), operand(text, 1)))
}

fn branch_form(cond: Cond, text: &[u8]) -> Result<Statement<'_>, TextErr>
    ensures { ReadsStatement result (branch_form cond text.now) }
{
    let rs1 = register_in(operand(text, 0))?;
    let rs2 = register_in(operand(text, 1))?;
    Ok(Statement::Aimed(Jump::Branch(cond, rs1, rs2), operand(text, 2)))
}

#[tactic(auto, unfolding(crate::specs::Reading::operands_read))]
fn read_operands(mnemonic: Mnemonic, text: &[u8]) -> Result<Statement<'_>, TextErr>
    ensures { ReadsStatement result (operands_read mnemonic text.now) }
{
    let instr = match mnemonic {
        Mnemonic::Jal => return jump_form(text),
        Mnemonic::Branch(cond) => return branch_form(cond, text),
        Mnemonic::Lui => {
            let (rd, imm) = upper_form(text)?;
            Instr::Lui { rd, imm }
        }
        Mnemonic::Auipc => {
            let (rd, imm) = upper_form(text)?;
            Instr::Auipc { rd, imm }
        }
        Mnemonic::Jalr => {
            let (rd, imm, rs1) = address_form(text)?;
            Instr::Jalr { rd, rs1, imm }
        }
        Mnemonic::Load(kind) => {
            let (rd, imm, rs1) = address_form(text)?;
            Instr::Load { kind, rd, rs1, imm }
        }
        Mnemonic::Store(kind) => {
            let (rs2, imm, rs1) = address_form(text)?;
            Instr::Store {
                kind,
                rs1,
                rs2,
                imm,
            }
        }
        Mnemonic::OpImm(op) => {
            let (rd, rs1, imm) = immediate_form(op, text)?;
            Instr::OpImm { op, rd, rs1, imm }
        }
        Mnemonic::Op(op) => {
            let (rd, rs1, rs2) = register_form(text)?;
            Instr::Op { op, rd, rs1, rs2 }
        }
        Mnemonic::Mul(op) => {
            let (rd, rs1, rs2) = register_form(text)?;
            Instr::Mul { op, rd, rs1, rs2 }
        }
        Mnemonic::Fence => {
            let (rd, rs1, imm) = fence_form(0xff, text)?;
            Instr::Fence { rd, rs1, imm }
        }
        Mnemonic::FenceI => {
            let (rd, rs1, imm) = fence_form(0, text)?;
            Instr::FenceI { rd, rs1, imm }
        }
        Mnemonic::Ecall => Instr::Ecall,
        Mnemonic::Ebreak => Instr::Ebreak,
    };
    Ok(Statement::Whole(instr))
}

fn wanted(mnemonic: Mnemonic) -> u32
    ensures { result ≡ wanted mnemonic }
{
    match mnemonic {
        Mnemonic::Ecall | Mnemonic::Ebreak => 0,
        Mnemonic::Lui
        | Mnemonic::Auipc
        | Mnemonic::Jal
        | Mnemonic::Jalr
        | Mnemonic::Load(_)
        | Mnemonic::Store(_) => 2,
        _ => 3,
    }
}

fn is_fence(mnemonic: Mnemonic) -> bool
    ensures { result ≡ is_fence mnemonic }
{
    matches!(mnemonic, Mnemonic::Fence | Mnemonic::FenceI)
}

fn takes(mnemonic: Mnemonic, count: usize) -> bool
    ensures { result ≡ takes_operands mnemonic count }
{
    count == wanted(mnemonic) as usize || is_fence(mnemonic) && count == 0
}

/// The meaning of the text after a name: `WrongCount` if there are too many or too few operands, otherwise the first
/// refusal of an operand from left to right.
#[tactic(auto, unfolding(crate::specs::Reading::statement_by))]
pub fn read_statement_of(mnemonic: Mnemonic, text: &[u8]) -> Result<Statement<'_>, TextErr>
    ensures { ReadsStatement result (statement_by mnemonic text.now) }
{
    let count = count_operands(text);
    if takes(mnemonic, count) {
        return read_operands(mnemonic, text);
    }
    Err(TextErr::WrongCount {
        got: count.min(0xffff_ffff) as u32,
        wanted: wanted(mnemonic),
    })
}

/// The meaning of a text before its target is read: `UnknownName` if its first word is not an instruction's name,
/// otherwise what `read_statement_of` returns for the rest.
#[tactic(auto, unfolding(crate::specs::Reading::statement_of))]
pub fn read_statement(text: &[u8]) -> Result<Statement<'_>, TextErr>
    ensures { ReadsStatement result (statement_of text.now) }
{
    let (name, after) = split_name(text);
    match Mnemonic::named(name) {
        Some(mnemonic) => read_statement_of(mnemonic, after),
        None => Err(TextErr::UnknownName),
    }
}

#[tactic(auto, unfolding(crate::specs::Reading::aimed_at))]
fn aim(jump: Jump, target: &[u8], pc: u32) -> Result<Instr, TextErr>
    ensures { result ≡ aimed_at jump target.now pc }
{
    let target = read_number(target).ok_or(TextErr::BadNumber)?;
    jump.to(distance(target, pc))
}

/// The instruction that a text spells at `pc`; its target, if it has one, is an address.
///
/// The first refusal is returned: that of the name, of the count of operands, or of the operands from left to right.
#[tactic(auto, unfolding(crate::specs::Reading::read_text))]
pub fn read_instr(text: &str, pc: u32) -> Result<Instr, TextErr>
    ensures { result ≡ read_text text.now pc }
{
    match read_statement(text.as_bytes())? {
        Statement::Whole(instr) => Ok(instr),
        Statement::Aimed(jump, target) => aim(jump, target, pc),
    }
}
