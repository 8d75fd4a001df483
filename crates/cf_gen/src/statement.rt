//! The text of a statement.
#![tactic(auto, unfolding(crate::specs::Statements::instruction_text))]

ghost use Rattle.std.specs.Prelude.{◌≡◌, ◌+◌, ◌≤◌, ◌++◌, length};
ghost use Rattle.cf_gen.specs.Statements.{register_operand, label_text, two_registers, three_registers, register_and_word, instruction_text};
ghost use Rattle.texts.specs.Room.{page_room};

use crate::choice::{Choice, Operation};
use texts::Page;

/// Appends a register: `x` and its number.
pub fn push_register(page: &mut Page, register: u32)
    requires { length page.old + 21 ≤ page_room }
    ensures text { page.new ≡ page.old ++ register_operand register }
    ensures size { length page.new ≤ length page.old + 21 }
{
    page.push(b"x");
    page.push_decimal(u64::from(register));
}

/// Appends a label: `L` and its number.
pub fn push_label(page: &mut Page, number: u32)
    requires { length page.old + 21 ≤ page_room }
    ensures text { page.new ≡ page.old ++ label_text number }
    ensures size { length page.new ≤ length page.old + 21 }
{
    page.push(b"L");
    page.push_decimal(u64::from(number));
}

fn push_two_registers(page: &mut Page, choice: Choice)
    requires { length page.old + 44 ≤ page_room }
    ensures text { page.new ≡ page.old ++ two_registers choice }
    ensures size { length page.new ≤ length page.old + 44 }
{
    push_register(page, choice.first);
    page.push(b", ");
    push_register(page, choice.second);
}

fn push_three_registers(page: &mut Page, choice: Choice)
    requires { length page.old + 67 ≤ page_room }
    ensures text { page.new ≡ page.old ++ three_registers choice }
    ensures size { length page.new ≤ length page.old + 67 }
{
    push_two_registers(page, choice);
    page.push(b", ");
    push_register(page, choice.third);
}

fn push_register_and_word(page: &mut Page, choice: Choice)
    requires { length page.old + 47 ≤ page_room }
    ensures text { page.new ≡ page.old ++ register_and_word choice }
    ensures size { length page.new ≤ length page.old + 47 }
{
    push_register(page, choice.first);
    page.push(b", ");
    page.push_decimal(4 * u64::from(choice.offset));
    page.push(b"(x7)");
}

fn push_named(page: &mut Page, name: &[u8], choice: Choice)
    requires { length page.old + length name.now + 67 ≤ page_room }
    ensures text { page.new ≡ page.old ++ (name.now ++ three_registers choice) }
    ensures size { length page.new ≤ length page.old + length name.now + 67 }
{
    page.push(name);
    push_three_registers(page, choice);
}

fn push_access(page: &mut Page, name: &[u8], choice: Choice)
    requires { length page.old + length name.now + 47 ≤ page_room }
    ensures text { page.new ≡ page.old ++ (name.now ++ register_and_word choice) }
    ensures size { length page.new ≤ length page.old + length name.now + 47 }
{
    page.push(name);
    push_register_and_word(page, choice);
}

fn push_addi(page: &mut Page, choice: Choice)
    requires { length page.old + 71 ≤ page_room }
    ensures text { page.new ≡ page.old ++ instruction_text Operation.Addi choice 0 }
    ensures size { length page.new ≤ length page.old + 71 }
{
    page.push(b"addi ");
    push_two_registers(page, choice);
    page.push(b", ");
    page.push_decimal(u64::from(choice.offset));
}

fn push_blt(page: &mut Page, choice: Choice, label: u32)
    requires { length page.old + 71 ≤ page_room }
    ensures text { page.new ≡ page.old ++ instruction_text Operation.Blt choice label }
    ensures size { length page.new ≤ length page.old + 71 }
{
    page.push(b"blt ");
    push_two_registers(page, choice);
    page.push(b", ");
    push_label(page, label);
}

/// Appends the text of a statement. A branch goes to this label.
pub fn push_instruction(page: &mut Page, choice: Choice, label: u32)
    requires { length page.old + 72 ≤ page_room }
    ensures text { page.new ≡ page.old ++ instruction_text choice.operation choice label }
    ensures size { length page.new ≤ length page.old + 72 }
{
    match choice.operation {
        Operation::Add => push_named(page, b"add ", choice),
        Operation::Sub => push_named(page, b"sub ", choice),
        Operation::Xor => push_named(page, b"xor ", choice),
        Operation::Or => push_named(page, b"or ", choice),
        Operation::Sltu => push_named(page, b"sltu ", choice),
        Operation::Sll => push_named(page, b"sll ", choice),
        Operation::Addi => push_addi(page, choice),
        Operation::Sw => push_access(page, b"sw ", choice),
        Operation::Lw => push_access(page, b"lw ", choice),
        Operation::Blt => push_blt(page, choice, label),
    }
}
