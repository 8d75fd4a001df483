//! What is wrong with the text of an instruction.

/// Why a text is not an instruction. The first reason is returned: the name, the count of operands, then the operands
/// from left to right.
#[derive(Clone, Copy, PartialEq, Eq)]
pub enum TextErr {
    /// The first word is not an instruction's name.
    UnknownName,
    /// An operand that must be a register is not one.
    BadRegister,
    /// An operand that must be a number does not spell one.
    BadNumber,
    /// The number does not fit its field. It is the number as written; for a target it is the distance.
    OutOfRange(i64),
    /// There are `got` operands, not `wanted`.
    WrongCount { got: u32, wanted: u32 },
}
