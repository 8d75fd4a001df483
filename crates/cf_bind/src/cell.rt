//! The contents of a stage of the pipes, and of a cell of a siding.

use crate::packet::Packet;
use crate::passenger::Passenger;
use rv_inst::Instr;

/// A stage of the two pipes, with room for one instruction and one result.
#[derive(Clone, Copy, PartialEq, Eq)]
pub struct Cell {
    /// The instruction in this stage.
    pub passenger: Option<Passenger>,

    /// The result in this stage.
    pub packet: Option<Packet>,

    /// Whether the two have met. It is true only if both are here.
    pub met: bool,
}

/// An operation in a siding: what an instruction launched.
#[derive(Clone, Copy, PartialEq, Eq)]
pub struct Op {
    /// The address of its instruction.
    pub pc: u32,

    /// The instruction.
    pub instr: Instr,

    /// The value of its first source, or 0 if it has none.
    pub a: u32,

    /// The value of its second source, or 0 if it has none.
    pub b: u32,

    /// The answer, once memory was accessed: the extended value for a load, 0 for a store.
    pub answer: Option<u32>,
}
