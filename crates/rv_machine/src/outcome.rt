//! How a step and an environment call end.

/// The line of an instruction that retired.
#[derive(Clone, Copy, Debug, PartialEq, Eq)]
pub struct Retired {
    /// Its address.
    pub pc: u32,

    /// The word that it was decoded from.
    pub word: u32,

    /// The register that was written, or 0 if none was.
    pub reg: u8,

    /// What was written there, or 0 if nothing was.
    pub value: u32,
}

/// How a step of the machine ended.
#[derive(Clone, Copy, Debug, PartialEq, Eq)]
pub enum Stepped {
    /// The instruction retired.
    Next(Retired),

    /// It trapped. The causes are those of the RISC-V Privileged Architecture: 0 a misaligned instruction address, 1 an
    /// address that cannot be fetched, 2 a word that is not an instruction, 3 EBREAK, 4 and 6 a misaligned load or
    /// store, 5 and 7 one that memory does not permit. `pc` is the instruction's address, `detail` the address or the
    /// word at fault.
    Trap { cause: u8, pc: u32, detail: u32 },

    /// The program ended itself with this status.
    Exit(u8),

    /// The input failed in an environment call that reads.
    ReadFault,

    /// The output failed in an environment call that writes.
    WriteFault,
}

/// How an environment call ended.
#[derive(Clone, Copy, Debug, PartialEq, Eq)]
pub enum Served {
    /// The answer, for register x10.
    Value(u32),

    /// The program ends with this status.
    Exit(u8),

    /// The input failed.
    ReadFault,

    /// The output failed.
    WriteFault,
}
