//! Sinks, and writing to one until everything is written.

ghost use Rattle.std.specs.Prelude.{ℕ, List, Option, OnOk, OnErr};
ghost use Rattle.cf_io.specs.Causes.{HasCause};
ghost use Rattle.cf_io.specs.Puts.{Puts, Writes, WritesFront};

use crate::failed::Failed;

/// Something that bytes are written to, in order.
pub trait Sink {
    /// The bytes that were written, if the sink exposes them.
    ghost written: { Self → Option (List ℕ) };

    /// How often the sink has failed, up to the maximum of `u64`.
    ghost faults: { Self → ℕ };

    /// Writes bytes from the start of `bytes` and returns how many: at least 1 if `bytes` is not empty, and 0 if it is.
    /// They come after what was written before.
    ///
    /// The count of faults rises if and only if the answer is `Failed`; then nothing was written.
    fn put(&mut self, bytes: &[u8]) -> Result<usize, Failed>
        ensures bytes { Puts (written self.old) (written self.new) bytes.now result }
        ensures cause { HasCause (faults self.old) (faults self.new) result };
}

/// Puts until everything is written. After `Failed` a prefix of the bytes was written, but not all of them, and the
/// sink's count of faults rose.
pub fn put_all<K: Sink>(sink: &mut K, bytes: &[u8]) -> Result<(), Failed>
    ensures all { OnOk result (Writes (K.written sink.old) (K.written sink.new) bytes.now) }
    ensures front { OnErr result (WritesFront (K.written sink.old) (K.written sink.new) bytes.now) }
    ensures cause { HasCause (K.faults sink.old) (K.faults sink.new) result }
{
    let mut done = 0;
    while done < bytes.len() {
        done += sink.put(&bytes[done..])?;
    }
    Ok(())
}
