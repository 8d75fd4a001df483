//! Real files.

ghost use Rattle.std.specs.Prelude.{◌≡◌, ◌≤◌, ◌↔◌, None, IfOk, IfSome, take, vec_len};
ghost use Rattle.std.specs.IoError.{error_kind};
ghost use Rattle.std.specs.declared.io.ErrorKind.TheVariants as kind;
ghost use Rattle.cf_io.specs.Reads.{ReadsFile, HasReadCause};

use crate::files::{Files, FilesErr};
use std::alloc::Global;
use std::io::{self, Read};
use std::{fs, rt};

/// Real files, named by their paths. They do not expose their contents. A missing file, or one that cannot be opened,
/// is a fault; running out of memory is not.
#[derive(Drop)]
pub struct DirFiles<'a, R: rt::Files + AllocGlobal> {
    rt: &'a R,
    faults: u64,
}

impl<'a, R: rt::Files + AllocGlobal> DirFiles<'a, R> {
    /// The files that this runtime opens, with no faults yet.
    pub fn new(rt: &'a R) -> Self
        ensures { result.faults ≡ 0 }
    {
        DirFiles { rt, faults: 0 }
    }
}

/// The next bytes of a reader, at most `most`.
fn front_of<R: Read + Drop>(reader: R, alloc: Global, most: u64) -> io::Result<Vec<u8>>
    ensures most { IfOk result (λ bytes. vec_len bytes ≤ most) }
    ensures bytes { IfOk result (λ bytes. IfSome (R.remaining reader) (λ left. bytes.items ≡ take most left)) }
{
    let mut bytes = Vec::new(alloc);
    reader.take(most).read_to_end(&mut bytes)?;
    // std promises no bound on what `read_to_end` appends.
    bytes.truncate(most as usize);
    Ok(bytes)
}

/// The first bytes of a file, at most `most`.
fn read_front<R: rt::Files + AllocGlobal>(
    rt: &R,
    alloc: Global,
    name: &str,
    most: u64,
) -> io::Result<Vec<u8>>
    ensures { IfOk result (λ bytes. vec_len bytes ≤ most) }
{
    front_of(fs::open(rt, name)?, alloc, most)
}

/// Why the read gave no bytes: it ran out of memory if and only if the error is of that kind.
fn reason(error: &io::Error) -> FilesErr
    ensures { result ≡ FilesErr.NoMemory ↔ error_kind error.now ≡ kind.OutOfMemory }
{
    if error.kind() == io::ErrorKind::OutOfMemory {
        FilesErr::NoMemory
    } else {
        FilesErr::Failed
    }
}

impl<'a, R: rt::Files + AllocGlobal> Files for DirFiles<'a, R> {
    ghost told = { λ _. None };

    ghost faults = { λ f. f.faults };

    fn read(&mut self, alloc: Global, name: &str, most: u64) -> Result<Vec<u8>, FilesErr>
        ensures bytes { ReadsFile None None name.now most result }
        ensures most { IfOk result (λ bytes. vec_len bytes ≤ most) }
        ensures cause { HasReadCause self.old.faults self.new.faults result }
    {
        match read_front(self.rt, alloc, name, most) {
            Ok(bytes) => Ok(bytes),
            Err(error) => match reason(&error) {
                FilesErr::NoMemory => Err(FilesErr::NoMemory),
                FilesErr::Failed => {
                    self.faults = self.faults.saturating_add(1);
                    Err(FilesErr::Failed)
                }
            },
        }
    }
}
