//! What an item places when the labels' values are known.
#![tactic(auto, unfolding(crate::specs::Pieces::near_instr, crate::specs::Pieces::operand_value, crate::specs::Pieces::pieces_of), using(crate::proofs::Spelt::spelling))]

ghost use Rattle.std.specs.Prelude.{◌≡◌, ◌++◌, ◌∷◌, [], ◌<◌, ◌^◌, Ok, IfOk, IfErr, OnOk, IsSome, unwrap_or, replicate, if◌then◌else◌};
ghost use Rattle.rv_asm.specs.Strings.{string_of};
ghost use Rattle.std.specs.Int.{bytes_low_first};
ghost use Rattle.rv_inst.specs.Ranges.{Fits};
ghost use Rattle.rv_asm.specs.Items.{Near, Distant};
ghost use Rattle.rv_asm.specs.Operands.{operand_texts, bytes_of_width};
ghost use Rattle.rv_asm.specs.Pieces.{Word, label_value, near_instr, operand_value, bytes_from, pieces_of};
ghost use Rattle.rv_asm.specs.Spelling.{SpellsPiece, Spells, GivesBytes, IsRefusal};
ghost use Rattle.rv_asm.specs.Seen.{item_view, IsSoundStatement, JumpFits, FarFits};

use crate::item::{Far, SourceItem};
use crate::label_table::LabelTable;
use crate::operands::{cut_operand, names_label, number_of_width};
use crate::operations::Width;
use crate::pseudos::{reaching, word_modulo};
use crate::refusal::AsmKind;
use crate::strings::push_string;
use rv_inst::{Instr, encode};
use rv_text::{Jump, TextErr, distance};
use std::alloc::{AllocError, Global};

fn word_bytes(i: Instr) -> [u8; 4]
    requires { Fits i }
    ensures { SpellsPiece (Word i) result }
{
    encode(i).to_le_bytes()
}

fn single(alloc: Global, i: Instr) -> Result<Vec<u8>, AsmKind>
    requires { Fits i }
    ensures ok { IfOk result (λ bytes. Spells (Word i ∷ []) bytes.items) }
    ensures err { IfErr result (λ kind. kind ≡ AsmKind.NoMemory) }
{
    let word = word_bytes(i);
    Ok(Vec::from_slice(alloc, &word)?)
}

fn double(alloc: Global, i: Instr, j: Instr) -> Result<Vec<u8>, AsmKind>
    requires first { Fits i }
    requires second { Fits j }
    ensures ok { IfOk result (λ bytes. Spells (Word i ∷ Word j ∷ []) bytes.items) }
    ensures err { IfErr result (λ kind. kind ≡ AsmKind.NoMemory) }
{
    let first = word_bytes(i);
    let second = word_bytes(j);
    let mut bytes = Vec::from_slice(alloc, &first)?;
    bytes.extend_from_slice(&second)?;
    Ok(bytes)
}

fn label_value(labels: &LabelTable, name: &[u8]) -> Result<u32, AsmKind>
    ensures { result ≡ label_value labels.now name.now }
{
    labels.value_of(name).ok_or(AsmKind::NoLabel)
}

/// The jump or the branch at an address to a label.
fn near(labels: &LabelTable, pc: u32, jump: Jump, label: &[u8]) -> Result<Instr, AsmKind>
    requires { JumpFits jump }
    ensures instr { result ≡ near_instr labels.now pc jump label.now }
    ensures fits { IfOk result (λ i. Fits i) }
{
    let value = label_value(labels, label)?;
    match jump.to(distance(i64::from(value), pc)) {
        Ok(instr) => Ok(instr),
        Err(TextErr::OutOfRange(far)) => Err(AsmKind::TooFar(far)),
        Err(e) => Err(AsmKind::Text(e)),
    }
}

/// The bytes of the jump or the branch at an address to a label.
fn near_bytes(
    alloc: Global,
    labels: &LabelTable,
    pc: u32,
    jump: Jump,
    label: &[u8],
) -> Result<Vec<u8>, AsmKind>
    requires { JumpFits jump }
    ensures ok { IfOk result (λ bytes. GivesBytes bytes.items (pieces_of labels.now pc (Near jump label.now))) }
    ensures err { IfErr result (λ kind. IsRefusal kind (pieces_of labels.now pc (Near jump label.now))) }
{
    single(alloc, near(labels, pc, jump, label)?)
}

/// The bytes of the two instructions that reach a label from an address.
fn distant_bytes(
    alloc: Global,
    labels: &LabelTable,
    pc: u32,
    far: Far,
    label: &[u8],
) -> Result<Vec<u8>, AsmKind>
    requires { FarFits far }
    ensures ok { IfOk result (λ bytes. GivesBytes bytes.items (pieces_of labels.now pc (Distant far label.now))) }
    ensures err { IfErr result (λ kind. IsRefusal kind (pieces_of labels.now pc (Distant far label.now))) }
{
    let value = label_value(labels, label)?;
    let (i, j) = reaching(far, value.wrapping_sub(pc));
    double(alloc, i, j)
}

/// The number that an operand denotes.
fn operand_value(labels: &LabelTable, width: Width, operand: &[u8]) -> Result<i64, AsmKind>
    ensures { result ≡ operand_value labels.now width operand.now }
{
    if names_label(width, operand) {
        return Ok(i64::from(label_value(labels, operand)?));
    }
    Ok(number_of_width(width, operand)?)
}

/// Appends the low bytes of a number, the lowest first.
#[tactic(auto, using(crate::proofs::Spelt::low))]
fn push_number(bytes: &mut Vec<u8>, width: Width, word: u32) -> Result<(), AllocError>
    ensures { OnOk result (bytes.new.items ≡ bytes.old.items ++ bytes_low_first 0 (bytes_of_width width) word) }
{
    let low = word.to_le_bytes();
    bytes.extend_from_slice(&low[..width.bytes()])
}

/// The bytes of the numbers of a directive.
fn numbers(
    alloc: Global,
    labels: &LabelTable,
    width: Width,
    text: &[u8],
) -> Result<Vec<u8>, AsmKind>
    ensures ok { IfOk result (λ bytes. bytes_from labels.now width [] (operand_texts text.now) ≡ Ok bytes.items) }
    ensures err { IfErr result (λ kind. IsRefusal kind (bytes_from labels.now width [] (operand_texts text.now))) }
{
    let mut bytes = Vec::new(alloc);
    let mut rest = Some(text);
    while let Some(operands) = rest {
        let (operand, after) = cut_operand(operands);
        let number = operand_value(labels, width, operand)?;
        push_number(&mut bytes, width, word_modulo(number))?;
        rest = after;
    }
    Ok(bytes)
}

/// The bytes of a string, and a zero if one follows.
fn chars(alloc: Global, text: &[u8], zero: bool) -> Result<Vec<u8>, AsmKind>
    requires { IsSome (string_of text.now) }
    ensures ok { IfOk result (λ bytes. bytes.items ≡ unwrap_or (string_of text.now) [] ++ (if zero then 0 ∷ [] else [])) }
    ensures err { IfErr result (λ kind. kind ≡ AsmKind.NoMemory) }
{
    let mut bytes = Vec::new(alloc);
    push_string(&mut bytes, text)?;
    if zero {
        bytes.extend_from_slice(b"\0")?;
    }
    Ok(bytes)
}

fn zeros(alloc: Global, count: u32) -> Result<Vec<u8>, AsmKind>
    ensures ok { IfOk result (λ bytes. bytes.items ≡ replicate count 0) }
    ensures err { IfErr result (λ kind. kind ≡ AsmKind.NoMemory) }
{
    Ok(vec![in alloc; 0; count as usize]?)
}

/// The bytes that an item places at an address.
pub fn item_bytes(
    alloc: Global,
    labels: &LabelTable,
    pc: u32,
    item: SourceItem<'_>,
) -> Result<Vec<u8>, AsmKind>
    requires { IsSoundStatement item }
    ensures ok { IfOk result (λ bytes. GivesBytes bytes.items (pieces_of labels.now pc (item_view item.entry))) }
    ensures err { IfErr result (λ kind. IsRefusal kind (pieces_of labels.now pc (item_view item.entry))) }
{
    match item {
        SourceItem::Nothing | SourceItem::Section(_) => Ok(Vec::new(alloc)),
        SourceItem::Export(name) => {
            label_value(labels, name)?;
            Ok(Vec::new(alloc))
        }
        SourceItem::Single(i) => single(alloc, i),
        SourceItem::Double(i, j) => double(alloc, i, j),
        SourceItem::Near(jump, label) => near_bytes(alloc, labels, pc, jump, label),
        SourceItem::Distant(far, label) => distant_bytes(alloc, labels, pc, far, label),
        SourceItem::Numbers(width, text) => numbers(alloc, labels, width, text),
        SourceItem::Chars(text, zero) => chars(alloc, text, zero),
        SourceItem::Zeros(count) => zeros(alloc, count),
    }
}
