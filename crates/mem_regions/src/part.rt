//! The parts of a program.

/// A part of a program as its file describes it: where its bytes are in the file, where they are in memory, and their
/// permissions.
#[derive(Clone, Copy)]
pub struct Part {
    /// The address of its first byte in memory.
    pub base: u32,
    /// The index in the file of its first byte.
    pub start: u32,
    /// How many bytes of the file it has.
    pub len: u32,
    /// How many bytes it has in memory: zeros follow the file's bytes.
    pub size: u32,
    /// Whether the program may write to it.
    pub write: bool,
    /// Whether its words can be fetched as instructions.
    pub exec: bool,
}
