//! The text of a program.
#![tactic(auto, unfolding(crate::specs::Program::load_line, crate::specs::Program::opening_text, crate::specs::Program::drawn_statement, crate::specs::Program::closing_text))]

ghost use Rattle.std.specs.Prelude.{◌≡◌, ◌+◌, ◌≤◌, ◌++◌, OnOk, OnErr, codes, decimal, length};
ghost use Rattle.run_options.specs.Limits.{most_statements};
ghost use Rattle.cf_io.specs.Causes.{HasCause};
ghost use Rattle.cf_io.specs.Puts.{Writes, WritesFront};
ghost use Rattle.cf_gen.specs.Draws.{state_after_draws};
ghost use Rattle.cf_gen.specs.Statements.{register_operand};
ghost use Rattle.cf_gen.specs.Program.{statement as statement_line, opening_text, drawn_statement, closing_text, program_text};
ghost use Rattle.texts.specs.Room.{page_room};

use crate::choice::choose;
use crate::draws::Draws;
use crate::statement::{push_instruction, push_label, push_register};
use cf_io::{Failed, Sink, put_all};
use texts::Page;

/// The lines before the first draw.
const OPENING: &[u8] = b"    .text
    .globl _start
_start:
    la x7, buf
";

/// The lines after the last label: code that prints what the registers hold, and the data.
const CLOSING: &[u8] = b"    xor x8, x8, x9
    xor x8, x8, x10
    xor x8, x8, x11
    xor x8, x8, x12
    xor x8, x8, x13
    xor x8, x8, x14
    xor x8, x8, x15
    la x16, text
    li x18, 8
hex:
    srli x19, x8, 28
    slli x8, x8, 4
    addi x19, x19, 48
    li x20, 58
    blt x19, x20, digit
    addi x19, x19, 39
digit:
    sb x19, 0(x16)
    addi x16, x16, 1
    addi x18, x18, -1
    bnez x18, hex
    li x10, 1
    la x11, text
    li x12, 9
    li x17, 64
    ecall
    li x10, 0
    li x17, 93
    ecall
    .data
buf:
    .space 256
text:
    .ascii \"00000000\\n\"
";

/// Appends the line that loads a number into a register.
fn push_load(page: &mut Page, register: u32, number: u32)
    requires { length page.old + 52 ≤ page_room }
    ensures text { page.new ≡ page.old
        ++ statement_line (codes "li " ++ register_operand register ++ codes ", " ++ decimal number) }
    ensures size { length page.new ≤ length page.old + 52 }
{
    page.push(b"    li ");
    push_register(page, register);
    page.push(b", ");
    page.push_decimal(u64::from(number));
    page.push(b"\n");
}

/// The lines up to the first statement, for which eight numbers are drawn.
fn opening(draws: &mut Draws) -> Page
    ensures text { result ≡ opening_text draws.old }
    ensures state { draws.new ≡ state_after_draws 8 draws.old }
{
    let mut page = Page::new();
    page.push(OPENING);
    for register in 8..=15 {
        push_load(&mut page, register, draws.below(0x1_0000));
    }
    page
}

/// The `i`th of `number` statements, after its label.
fn statement(number: u32, i: u32, draws: &mut Draws) -> Page
    requires within { i ≤ number }
    requires limit { number ≤ most_statements }
    ensures text { result ≡ drawn_statement number i draws.old }
    ensures state { draws.new ≡ state_after_draws 5 draws.old }
{
    let mut page = Page::new();
    push_label(&mut page, i);
    page.push(b":\n    ");
    push_instruction(&mut page, choose(draws), (i + 2).min(number + 1));
    page.push(b"\n");
    page
}

/// The lines after the statements.
#[tactic(auto, unfolding(crate::specs::Program::closing_text, crate::specs::Program::last_lines))]
fn closing(number: u32) -> Page
    requires { number ≤ most_statements }
    ensures { result ≡ closing_text number }
{
    let mut page = Page::new();
    push_label(&mut page, number + 1);
    page.push(b":\n");
    page.push(CLOSING);
    page
}

/// Writes the text of a program of this many statements, at most 30,000; the number is also the seed. After `Failed` a
/// prefix of the text was written, and the sink's count of faults rose.
#[tactic(auto, using(cf_io::proofs::Owing::owes), unfolding(crate::specs::Program::program_text))]
pub fn generate<K: Sink>(number: u32, out: &mut K) -> Result<(), Failed>
    requires some { 1 ≤ number }
    requires limit { number ≤ most_statements }
    ensures ok { OnOk result (Writes (K.written out.old) (K.written out.new) (program_text number)) }
    ensures err { OnErr result (WritesFront (K.written out.old) (K.written out.new) (program_text number)) }
    ensures cause { HasCause (K.faults out.old) (K.faults out.new) result }
{
    let mut draws = Draws::new(number);
    put_all(out, opening(&mut draws).bytes())?;
    for i in 1..=number {
        put_all(out, statement(number, i, &mut draws).bytes())?;
    }
    put_all(out, closing(number).bytes())
}
