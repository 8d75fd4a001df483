//! Sources, and taking from one until there is enough.

ghost use Rattle.std.specs.Prelude.{ℕ, List, Option};
ghost use Rattle.cf_io.specs.Causes.{HasCause};
ghost use Rattle.cf_io.specs.Takes.{Takes, TakesAll};

use crate::failed::Failed;

/// Something that bytes are taken from, in order, until it is at its end.
pub trait Source {
    /// The bytes that are left, if the source exposes them.
    ghost left: { Self → Option (List ℕ) };

    /// How often the source has failed, up to the maximum of `u64`.
    ghost faults: { Self → ℕ };

    /// Puts bytes at the start of `into` and returns how many, at most its length. The rest of `into` is unchanged. For
    /// an empty slice the answer is 0; for any other, 0 means the end of the input. If the source exposes what it has
    /// left, the bytes are the first of these, and the rest is left.
    ///
    /// `Failed` is returned only if the source's count of faults rose in this call. Then `into` and what the source has
    /// left are unchanged.
    fn take(&mut self, into: &mut [u8]) -> Result<usize, Failed>
        ensures bytes { Takes (left self.old) (left self.new) into.old into.new result }
        ensures cause { HasCause (faults self.old) (faults self.new) result };
}

/// Takes until `into` is full or the source is at its end, and returns how many bytes were taken. They are at the start
/// of `into`, and the rest of it is unchanged.
///
/// After `Failed` the source's count of faults rose. The bytes taken so far, fewer than fit, are at the start of
/// `into`, followed by its old bytes.
pub fn take_all<S: Source>(source: &mut S, into: &mut [u8]) -> Result<usize, Failed>
    ensures bytes { TakesAll (S.left source.old) (S.left source.new) into.old into.new result }
    ensures cause { HasCause (S.faults source.old) (S.faults source.new) result }
{
    let mut done = 0;
    while done < into.len() {
        let count = source.take(&mut into[done..])?;
        done += count;
        if count == 0 {
            return Ok(done);
        }
    }
    Ok(done)
}
