//! A segment of a file.

ghost use Rattle.std.specs.Prelude.{◌≤◌, length};

/// A loadable segment.
#[derive(Drop)]
pub struct Segment<'a> {
    /// The address of its first byte in memory.
    pub vaddr: u32,
    /// The index in the file of its first byte.
    pub offset: u32,
    /// Its bytes in the file.
    pub bytes: &'a [u8],
    /// How many bytes it has in memory: at least as many as in the file.
    pub memsz: u32,
    /// Whether the program may write to it.
    pub write: bool,
    /// Whether its words can be fetched as instructions.
    pub exec: bool,
    pub ghost room: { length bytes.now ≤ memsz },
}
