//! The moves of the processor, and why they may be barred.

use crate::passenger::Guess;

/// One local change of the processor. An unnamed number is that of a stage; stage 1 is at the bottom.
#[derive(Clone, Copy, PartialEq, Eq)]
pub enum Move {
    /// A new instruction enters the lowest stage, and fetch goes on as guessed.
    Issue(Guess),

    /// The register file answers the first request at the top of the result pipe.
    Emit,

    /// The instruction moves one stage up.
    Climb(u32),

    /// The result moves one stage down.
    Fall(u32),

    /// The instruction and the result of the stage meet.
    Meet(u32),

    /// A unit of the stage executes the instruction.
    Execute(u32),

    /// The instruction puts what it owes into the result pipe.
    Send(u32),

    /// The instruction launches its operation into a siding.
    Launch(u32),

    /// An operation moves to the next cell: the siding, and the cell that it leaves, both counted from 0.
    Slide(u32, u32),

    /// The operation in the last cell of the memory siding is carried out.
    Access,

    /// The instruction takes its operation out of the siding.
    Recover(u32),

    /// The instruction in the highest stage leaves: it retires, ends the program, or was dead.
    Leave,

    /// The result in the lowest stage leaves.
    Exit,

    /// The instruction in the highest stage calls the environment.
    Serve,
}

/// Why a move cannot be made.
#[derive(Clone, Copy, PartialEq, Eq)]
pub enum Bar {
    /// The program has ended.
    Halted,
    /// The input or the output failed in an earlier call.
    Failed,
    /// There is no such stage, siding or cell.
    NoSuchSite,
    /// There is no instruction in the stage.
    NoPassenger,
    /// There is no result in the stage.
    NoPacket,
    /// The destination is occupied.
    Occupied,
    /// The instruction and the result in the stage have to meet first.
    NotMet,
    /// The two have met.
    AlreadyMet,
    /// This source of the instruction has no value yet.
    SourceMissing(u8),
    /// Nothing there executes this class of instruction.
    NoUnit,
    /// The instruction has to be executed first, or its operation answered or recovered.
    NotDone,
    /// The instruction has to send what it owes first.
    Owes,
    /// The instruction owes nothing.
    OwesNothing,
    /// There is no operation in the cell.
    OpNotThere,
    /// The requests do not fit into the lane.
    LaneFull,
    /// No register was requested.
    LaneEmpty,
    /// Fetch waits.
    FetchWaiting,
    /// This instruction cannot be issued with this guess.
    BadGuess,
    /// The instruction is dead.
    Dead,
    /// That has already been done.
    AlreadyDone,
}
