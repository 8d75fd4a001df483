//! The source from which a program takes the bytes of a file.

ghost use Rattle.std.specs.Prelude.{Some};

use cf_io::{Failed, Source};

/// Bytes in memory that do not change. Each take gives as many as fit, and none fails.
#[derive(Drop)]
pub(crate) struct GuestInput<'a> {
    /// The bytes that have not been taken.
    pub(crate) rest: &'a [u8],
}

impl<'a> Source for GuestInput<'a> {
    ghost left = { λ s. Some s.rest.now };

    ghost faults = { λ _. 0 };

    fn take(&mut self, into: &mut [u8]) -> Result<usize, Failed> {
        let count = into.len().min(self.rest.len());
        into[..count].copy_from_slice(&self.rest[..count]);
        self.rest = &self.rest[count..];
        Ok(count)
    }
}
