//! Results on their way down, and the fetch unit at which they arrive.

/// A result in the result pipe: the value of a register, or a turn or a halt of the program, which makes the
/// instructions that it meets dead and ends at the fetch unit. Comments call it a result, as the paper of 1994 does,
/// and say `Packet` only where they mean a value of this type.
#[derive(Clone, Copy, PartialEq, Eq)]
pub enum Packet {
    /// A register's value.
    Value { reg: u8, value: u32 },

    /// The program goes on at this address. All that was fetched after the instruction that sent this is discarded.
    Turn(u32),

    /// The program ends here. All that was fetched after the instruction that sent this is discarded.
    Halt,
}

/// What the fetch unit at the bottom of the instruction pipe does.
#[derive(Clone, Copy, PartialEq, Eq)]
pub enum Fetch {
    /// It fetches at this address.
    Running(u32),

    /// It waits for a result that says where to go on.
    Waiting,
}
