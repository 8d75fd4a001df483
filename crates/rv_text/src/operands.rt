//! The operands of a text, by their kinds.

/// An operand of an instruction's text.
#[derive(Clone, Copy)]
pub enum Operand {
    /// A register.
    Register(u8),
    /// A number in decimal.
    Number(i32),
    /// The field of an upper immediate, in hexadecimal.
    Upper(u32),
    /// The target of a jump or a branch, in eight hexadecimal digits.
    Target(u32),
    /// A register plus a number.
    Address(i32, u8),
}
