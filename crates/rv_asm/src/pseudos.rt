//! The meaning of each pseudo-instruction.
#![tactic(auto, unfolding(crate::specs::Pseudos::word_modulo, crate::specs::Pseudos::loading, crate::specs::Pseudos::reaching, crate::specs::Pseudos::reached, crate::specs::Pseudos::jumped, crate::specs::Pseudos::register_pair, crate::specs::Pseudos::load_immediate, crate::specs::Pseudos::address_read, crate::specs::Pseudos::branch_read))]

ghost use Rattle.std.specs.Prelude.{◌≡◌, ◌<◌, ◌≤◌, ◌^◌, ◌-◌, ◌*◌, ◌%◌, ◌≤ℤ◌, ◌<ℤ◌, negsuc, pos, Ok, Err, IfOk};
ghost use Rattle.rv_inst.specs.Words.{word_difference, signed};
ghost use Rattle.rv_inst.specs.Ranges.{Fits, IsRegister};
ghost use Rattle.rv_asm.specs.Pseudos.{word_modulo, upper_part, lower_part, is_short, loading, reaching, reached, jumped, register_pair, load_immediate, address_read, branch_read, pseudo_read};
ghost use Rattle.rv_asm.specs.Items.{Double};
ghost use Rattle.rv_asm.specs.Seen.{item_view, ReadsItem, IsSoundStatement, JumpFits, FarFits};

use crate::item::{Far, SourceItem};
use crate::operands::{expect_count, number_between};
use crate::operations::Pseudo;
use crate::scanning::begins_name;
use rv_inst::{Cond, ImmOp, Instr, RegOp};
use rv_text::{Jump, TextErr, distance, operand, read_number, register_in};

/// A number modulo 2^32.
pub fn word_modulo(number: i64) -> u32
    ensures { result ≡ word_modulo number }
{
    number.rem_euclid(0x1_0000_0000) as u32
}

fn addi(rd: u8, rs1: u8, imm: i32) -> Instr
    ensures { result ≡ Instr.OpImm ImmOp.Add rd rs1 imm }
{
    Instr::OpImm {
        op: ImmOp::Add,
        rd,
        rs1,
        imm,
    }
}

/// The upper twenty bits of a word, rounded so that the rest is from -2048 to 2047.
fn upper_part(word: u32) -> u32
    ensures value { result ≡ upper_part word }
    ensures field { result < 2 ^ 20 }
{
    ((u64::from(word) + 0x800) / 0x1000 % 0x10_0000) as u32
}

/// The rest.
#[tactic(auto)]
fn lower_part(word: u32) -> i32
    ensures value { result ≡ lower_part word }
    ensures least { negsuc 2047 ≤ℤ result }
    ensures greatest { result <ℤ pos 2048 }
{
    word.wrapping_sub(upper_part(word) * 0x1000).cast_signed()
}

/// The instructions that put a word into a register.
fn loading(rd: u8, word: u32) -> SourceItem<'static>
    requires { IsRegister rd }
    ensures item { item_view result ≡ loading rd word }
    ensures sound { IsSoundStatement result }
{
    let short = word.cast_signed();
    if -0x800 <= short && short <= 0x7ff {
        return SourceItem::Single(addi(rd, 0, short));
    }
    let upper = Instr::Lui {
        rd,
        imm: upper_part(word),
    };
    let lower = lower_part(word);
    if lower == 0 {
        SourceItem::Single(upper)
    } else {
        SourceItem::Double(upper, addi(rd, rd, lower))
    }
}

/// The two instructions that reach over a distance.
pub fn reaching(far: Far, distance: u32) -> (Instr, Instr)
    requires { FarFits far }
    ensures pair { reaching far distance ≡ Double result.0 result.1 }
    ensures first { Fits result.0 }
    ensures second { Fits result.1 }
{
    let imm = upper_part(distance);
    let lower = lower_part(distance);
    match far {
        Far::Address(rd) => (Instr::Auipc { rd, imm }, addi(rd, rd, lower)),
        Far::Call => (
            Instr::Auipc { rd: 1, imm },
            Instr::Jalr {
                rd: 1,
                rs1: 1,
                imm: lower,
            },
        ),
    }
}

/// The same from an address to the target of an operand: a label, or a number, which is then the address.
fn reached(far: Far, pc: u32, operand: &[u8]) -> Result<SourceItem<'_>, TextErr>
    requires { FarFits far }
    ensures item { ReadsItem result (reached far pc operand.now) }
    ensures sound { IfOk result (λ item. IsSoundStatement item) }
{
    if begins_name(operand) {
        return Ok(SourceItem::Distant(far, operand));
    }
    let target = read_number(operand).ok_or(TextErr::BadNumber)?;
    let (first, second) = reaching(far, word_modulo(target).wrapping_sub(pc));
    Ok(SourceItem::Double(first, second))
}

/// A jump or a branch to the target of an operand.
#[tactic(auto, unfolding(crate::specs::Pseudos::jumped, rv_text::specs::Reading::aimed_at), using(crate::proofs::Fitting::jumps))]
pub fn jumped(jump: Jump, pc: u32, operand: &[u8]) -> Result<SourceItem<'_>, TextErr>
    requires { JumpFits jump }
    ensures item { ReadsItem result (jumped jump pc operand.now) }
    ensures sound { IfOk result (λ item. IsSoundStatement item) }
{
    if begins_name(operand) {
        return Ok(SourceItem::Near(jump, operand));
    }
    let target = read_number(operand).ok_or(TextErr::BadNumber)?;
    Ok(SourceItem::Single(jump.to(distance(target, pc))?))
}

fn two_registers(text: &[u8]) -> Result<(u8, u8), TextErr>
    ensures registers { result ≡ register_pair text.now }
    ensures fit { IfOk result (λ pair. IsRegister pair.0 × IsRegister pair.1) }
{
    expect_count(2, text)?;
    let rd = register_in(operand(text, 0))?;
    let rs = register_in(operand(text, 1))?;
    Ok((rd, rs))
}

fn li(text: &[u8]) -> Result<SourceItem<'_>, TextErr>
    ensures item { ReadsItem result (load_immediate text.now) }
    ensures sound { IfOk result (λ item. IsSoundStatement item) }
{
    expect_count(2, text)?;
    let rd = register_in(operand(text, 0))?;
    let value = number_between(-0x8000_0000, 0xffff_ffff, operand(text, 1))?;
    Ok(loading(rd, word_modulo(value)))
}

fn la(pc: u32, text: &[u8]) -> Result<SourceItem<'_>, TextErr>
    ensures item { ReadsItem result (address_read pc text.now) }
    ensures sound { IfOk result (λ item. IsSoundStatement item) }
{
    expect_count(2, text)?;
    let rd = register_in(operand(text, 0))?;
    reached(Far::Address(rd), pc, operand(text, 1))
}

fn branch_zero(cond: Cond, pc: u32, text: &[u8]) -> Result<SourceItem<'_>, TextErr>
    ensures item { ReadsItem result (branch_read cond pc text.now) }
    ensures sound { IfOk result (λ item. IsSoundStatement item) }
{
    expect_count(2, text)?;
    let rs = register_in(operand(text, 0))?;
    jumped(Jump::Branch(cond, rs, 0), pc, operand(text, 1))
}

/// The meaning of a pseudo-instruction at an address.
#[tactic(auto, unfolding(crate::specs::Pseudos::pseudo_read))]
pub fn read_pseudo(pseudo: Pseudo, pc: u32, text: &[u8]) -> Result<SourceItem<'_>, TextErr>
    ensures item { ReadsItem result (pseudo_read pseudo pc text.now) }
    ensures sound { IfOk result (λ item. IsSoundStatement item) }
{
    let instr = match pseudo {
        Pseudo::Li => return li(text),
        Pseudo::La => return la(pc, text),
        Pseudo::BranchZero(cond) => return branch_zero(cond, pc, text),
        Pseudo::J => {
            expect_count(1, text)?;
            return jumped(Jump::Link(0), pc, operand(text, 0));
        }
        Pseudo::Call => {
            expect_count(1, text)?;
            return reached(Far::Call, pc, operand(text, 0));
        }
        Pseudo::Nop => {
            expect_count(0, text)?;
            addi(0, 0, 0)
        }
        Pseudo::Mv => {
            let (rd, rs) = two_registers(text)?;
            addi(rd, rs, 0)
        }
        Pseudo::Not => {
            let (rd, rs1) = two_registers(text)?;
            Instr::OpImm {
                op: ImmOp::Xor,
                rd,
                rs1,
                imm: -1,
            }
        }
        Pseudo::Neg => {
            let (rd, rs2) = two_registers(text)?;
            Instr::Op {
                op: RegOp::Sub,
                rd,
                rs1: 0,
                rs2,
            }
        }
        Pseudo::Jr => {
            expect_count(1, text)?;
            let rs1 = register_in(operand(text, 0))?;
            Instr::Jalr { rd: 0, rs1, imm: 0 }
        }
        Pseudo::Ret => {
            expect_count(0, text)?;
            Instr::Jalr {
                rd: 0,
                rs1: 1,
                imm: 0,
            }
        }
    };
    Ok(SourceItem::Single(instr))
}
