//! Files, as the simulator sees them.

ghost use Rattle.std.specs.Prelude.{ℕ, Option, ◌≤◌, IfOk, vec_len};
ghost use Rattle.cf_io.specs.Reads.{FilesSeen, ReadsFile, HasReadCause};

use std::alloc::Global;

/// Why a read gave no bytes.
#[derive(Clone, Copy, Debug, PartialEq)]
pub enum FilesErr {
    /// The read failed, and the files' count of faults rose.
    Failed,
    /// There was not enough memory for the bytes. This is no fault of the files.
    NoMemory,
}

/// Files that are read by name.
pub trait Files {
    /// If the files expose them: the bytes of each name, the names that were read, those whose read failed, and how
    /// many reads found too little memory.
    ghost told: { Self → Option FilesSeen };

    /// How often the files have failed, up to the maximum of `u64`.
    ghost faults: { Self → ℕ };

    /// The first `most` bytes of the file called `name`, or all of it if it has fewer.
    ///
    /// `Failed` is returned only if the files' count of faults rose in this call. Files that expose their contents
    /// record each read: they append the name to their list of reads, and after `Failed` to the list of failed reads
    /// too; after `NoMemory` they only count one more read that found too little memory.
    fn read(&mut self, alloc: Global, name: &str, most: u64) -> Result<Vec<u8>, FilesErr>
        ensures bytes { ReadsFile (told self.old) (told self.new) name.now most result }
        ensures most { IfOk result (λ bytes. vec_len bytes ≤ most) }
        ensures cause { HasReadCause (faults self.old) (faults self.new) result };
}
