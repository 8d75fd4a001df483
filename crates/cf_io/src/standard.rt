//! The streams of a process, as a source and sinks.

ghost use Rattle.std.specs.Prelude.{◌≡◌, None};
ghost use Rattle.std.specs.Io.KnownBytes.{ReadConsumes, WriteAppends};
ghost use Rattle.cf_io.specs.Adapted.{answer_of_reader, answer_of_writer};
ghost use Rattle.cf_io.specs.Causes.{HasCause};
ghost use Rattle.cf_io.specs.Takes.{Takes};
ghost use Rattle.cf_io.specs.Puts.{Puts};

use crate::failed::Failed;
use crate::sink::Sink;
use crate::source::Source;
use std::io::{self, Read, Write};

/// A reader's answer as a source's: the number of bytes that it gave, where 0 is the end and not a fault. Each error is
/// a failure.
fn taken(answer: io::Result<usize>) -> Result<usize, Failed>
    ensures { result ≡ answer_of_reader answer }
{
    match answer {
        Ok(count) => Ok(count),
        Err(_) => Err(Failed),
    }
}

/// A writer's answer, for a nonempty piece, as a sink's: the number of bytes that it accepted, if any. Accepting none
/// is a failure, and so is each error.
fn written(answer: io::Result<usize>) -> Result<usize, Failed>
    ensures { result ≡ answer_of_writer answer }
{
    match answer {
        Ok(count) if count > 0 => Ok(count),
        _ => Err(Failed),
    }
}

/// A reader, such as standard input, as a source that does not expose what it has left. Its takes are the reader's own
/// reads.
#[derive(Drop)]
pub struct StdSource<R: Read + Drop> {
    inner: R,
    faults: u64,
}

impl<R: Read + Drop> StdSource<R> {
    /// A source over this reader, with no faults yet.
    pub fn new(inner: R) -> Self
        ensures { result ≡ record { inner = inner; faults = 0 } }
    {
        StdSource { inner, faults: 0 }
    }
}

impl<R: Read + Drop> Source for StdSource<R> {
    ghost left = { λ _. None };

    ghost faults = { λ s. s.faults };

    // A reader promises nothing about the slice beyond the bytes that it gave, nor after an error. So it reads into a
    // separate buffer.
    fn take(&mut self, into: &mut [u8]) -> Result<usize, Failed>
        ensures bytes { Takes None None into.old into.new result }
        ensures cause { HasCause self.old.faults self.new.faults result }
        ensures reads { ReadConsumes (R.remaining self.old.inner) (R.remaining self.new.inner)
            result into.new }
    {
        if into.is_empty() {
            return Ok(0);
        }
        let mut buffer = [0u8; 4096];
        let room = into.len().min(buffer.len());
        match taken(self.inner.read(&mut buffer[..room])) {
            Ok(count) => {
                into[..count].copy_from_slice(&buffer[..count]);
                Ok(count)
            }
            Err(Failed) => {
                self.faults = self.faults.saturating_add(1);
                Err(Failed)
            }
        }
    }
}

/// A writer, such as standard output, as a sink that does not expose what was written. It is never flushed, so it
/// should not buffer. A write that accepts nothing of a piece is a fault.
#[derive(Drop)]
pub struct StdSink<W: Write + Drop> {
    inner: W,
    faults: u64,
}

impl<W: Write + Drop> StdSink<W> {
    /// A sink over this writer, with no faults yet.
    pub fn new(inner: W) -> Self
        ensures { result ≡ record { inner = inner; faults = 0 } }
    {
        StdSink { inner, faults: 0 }
    }
}

impl<W: Write + Drop> Sink for StdSink<W> {
    ghost written = { λ _. None };

    ghost faults = { λ s. s.faults };

    fn put(&mut self, bytes: &[u8]) -> Result<usize, Failed>
        ensures bytes { Puts None None bytes.now result }
        ensures cause { HasCause self.old.faults self.new.faults result }
        ensures writes { WriteAppends (W.contents self.old.inner) (W.contents self.new.inner)
            result bytes.now }
    {
        if bytes.is_empty() {
            return Ok(0);
        }
        match written(self.inner.write(bytes)) {
            Ok(count) => Ok(count),
            Err(Failed) => {
                self.faults = self.faults.saturating_add(1);
                Err(Failed)
            }
        }
    }
}
