//! A page of text.
#![tactic(auto, unfolding(crate::specs::Lines::register_entry, crate::specs::Lines::registers_from, crate::specs::Lines::counted_line, crate::specs::Lines::trap_line))]

ghost use Rattle.std.specs.Prelude.{◌≡◌, ◌+◌, ◌*◌, ◌<◌, ◌≤◌, ◌++◌, ◌∷◌, [], length, decimal};
ghost use Rattle.texts.specs.Hexadecimal.{hex8};
ghost use Rattle.texts.specs.Lines.{line, separator as separator_of, register_name, register_entry, registers_from, counted_line, trap_line};
ghost use Rattle.texts.specs.Room.{page_room};

use crate::hexadecimal::hex8;
use arrayvec::ArrayVec;
use itoa::Buffer;
use std::marker::Model;

/// How many bytes fit into a page: 416 for the 32 registers, and 224 for the lines before them.
const ROOM: usize = 640;

/// A page of text in a fixed buffer, which allocates no memory. It has room for a line of each kind, a count and the 32
/// registers. Contracts see it as its bytes.
#[derive(Drop)]
pub struct Page {
    text: ArrayVec<u8, ROOM>,
}

impl Model for Page {
    ghost use Rattle.std.specs.Prelude.{ℕ, List};

    ghost Value = { List ℕ };

    ghost view = { λ page. page.text.items };
}

/// What comes after a register: four of them make a line.
fn separator(register: u8) -> u8
    ensures { result ≡ separator_of register }
{
    if register % 4 == 3 { b'\n' } else { b' ' }
}

impl Page {
    /// An empty page.
    pub fn new() -> Page
        ensures { result ≡ [] }
    {
        Page {
            text: ArrayVec::new(),
        }
    }

    /// The page's bytes.
    pub fn bytes(&self) -> &[u8]
        ensures { result.now ≡ self.now }
    {
        self.text.as_slice()
    }

    /// Appends bytes.
    pub fn push(&mut self, text: &[u8])
        requires { length self.old + length text.now ≤ page_room }
        ensures { self.new ≡ self.old ++ text.now }
    {
        for byte in text {
            self.text.push(*byte);
        }
    }

    /// Appends a word in eight hexadecimal digits.
    pub fn push_hex(&mut self, word: u32)
        requires { length self.old + 8 ≤ page_room }
        ensures text { self.new ≡ self.old ++ hex8 word }
        ensures size { length self.new ≡ length self.old + 8 }
    {
        self.push(&hex8(word));
    }

    /// Appends a number in decimal, at most 20 digits.
    pub fn push_decimal(&mut self, number: u64)
        requires { length self.old + 20 ≤ page_room }
        ensures text { self.new ≡ self.old ++ decimal number }
        ensures size { length self.new ≤ length self.old + 20 }
    {
        let mut buffer = Buffer::new();
        self.push(buffer.format(number).as_bytes());
    }

    /// Appends a register's name: `x` and two digits.
    #[tactic(auto, unfolding(crate::specs::Lines::register_name))]
    pub fn push_register_name(&mut self, register: u8)
        requires { length self.old + 3 ≤ page_room }
        ensures text { self.new ≡ self.old ++ register_name register }
        ensures size { length self.new ≡ length self.old + 3 }
    {
        self.push(&[b'x', 48 + register / 10, 48 + register % 10]);
    }

    fn push_register(&mut self, register: u8, word: u32)
        requires { length self.old + 13 ≤ page_room }
        ensures text { self.new ≡ self.old ++ register_entry register word }
        ensures size { length self.new ≡ length self.old + 13 }
    {
        self.push_register_name(register);
        self.push(b"=");
        self.push_hex(word);
        self.push(&[separator(register)]);
    }

    /// Appends the 32 registers in eight lines.
    pub fn push_registers(&mut self, regs: &[u32; 32])
        requires { length self.old + 416 ≤ page_room }
        ensures text { self.new ≡ self.old ++ registers_from 0 regs.now }
        ensures size { length self.new ≡ length self.old + 416 }
    {
        let mut register = 0u8;
        for word in regs {
            self.push_register(register, *word);
            register += 1;
        }
    }

    /// Appends a line with this text.
    pub fn push_line(&mut self, text: &[u8])
        requires { length self.old + length text.now + 1 ≤ page_room }
        ensures text { self.new ≡ self.old ++ line text.now }
        ensures size { length self.new ≡ length self.old + length text.now + 1 }
    {
        self.push(text);
        self.push(b"\n");
    }

    /// Appends a line with a name and a number.
    pub fn push_counted(&mut self, name: &[u8], number: u64)
        requires { length self.old + length name.now + 21 ≤ page_room }
        ensures text { self.new ≡ self.old ++ counted_line name.now number }
        ensures size { length self.new ≤ length self.old + length name.now + 21 }
    {
        self.push(name);
        self.push_decimal(number);
        self.push(b"\n");
    }

    /// Appends the line of a trap.
    pub fn push_trap(&mut self, cause: u8, pc: u32, detail: u32)
        requires { length self.old + 60 ≤ page_room }
        ensures text { self.new ≡ self.old ++ trap_line cause pc detail }
        ensures size { length self.new ≤ length self.old + 60 }
    {
        self.push(b"trap ");
        self.push_decimal(u64::from(cause));
        self.push(b" at ");
        self.push_hex(pc);
        self.push(b" detail ");
        self.push_hex(detail);
        self.push(b"\n");
    }
}
