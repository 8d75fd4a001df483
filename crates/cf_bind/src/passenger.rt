//! Instructions on their way up.

use crate::binding::Binding;
use crate::packet::Packet;
use rv_inst::Instr;

/// Where fetch goes on after an instruction: a guess, made when the instruction is issued.
#[derive(Clone, Copy, PartialEq, Eq)]
pub enum Guess {
    /// At the next instruction word.
    Next,

    /// At the target of a branch or of JAL.
    Taken,

    /// Nowhere: fetch waits for the outcome.
    Wait,

    /// At this address, guessed for JALR.
    To(u32),
}

/// How an instruction ends the program.
#[derive(Clone, Copy, PartialEq, Eq)]
pub enum End {
    /// It traps. The causes are those of the RISC-V Privileged Architecture; `pc` is its own address, `detail` the
    /// address or the word at fault.
    Trap { cause: u8, pc: u32, detail: u32 },

    /// It is a call that ends the program with this status.
    Exit(u8),
}

/// An instruction in the instruction pipe: the decoded [`Instr`] with all that it carries on its way up, which is its
/// address, the values of its sources and its destination, the guess made at its issue, and its progress. Comments call
/// it an instruction, as the paper of 1994 does, and say `Passenger` only where they mean a value of this type.
#[derive(Clone, Copy, PartialEq, Eq)]
pub struct Passenger {
    /// Its address.
    pub pc: u32,

    /// The decoded instruction, or `None` if there was none at its address.
    pub what: Option<Instr>,

    /// Where fetch went on after it.
    pub guess: Guess,

    /// Its first source, or `None` if it has none.
    pub src1: Option<Binding>,

    /// Its second source, or `None` if it has none.
    pub src2: Option<Binding>,

    /// Its destination, or `None` if it has none.
    pub dst: Option<Binding>,

    /// It was executed.
    pub done: bool,

    /// Its operation was launched into a siding.
    pub launched: bool,

    /// Its operation has come back from the siding.
    pub recovered: bool,

    /// The address of the instruction to run after it, once it is done.
    pub next: Option<u32>,

    /// How it ends the program, if it does.
    pub ending: Option<End>,

    /// The result that it still has to send.
    pub owes: Option<Packet>,

    /// It should not have been fetched, and climbs without effect.
    pub dead: bool,
}
