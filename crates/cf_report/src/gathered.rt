//! A sink that gathers what is written to it.

ghost use Rattle.std.specs.Prelude.{◌≡◌, ◌+◌, ◌-◌, ◌<◌, ◌≤◌, [], ◌++◌, OnErr, OnOk, length, min, take, drop};
ghost use Rattle.cf_io.specs.Causes.{HasCause};
ghost use Rattle.cf_io.specs.Puts.{Puts, WritesNothing};
ghost use Rattle.cf_report.specs.Gathering.{PassesOn, followed_by, gathers_for, written_by};

use crate::report_sink::ReportSink;
use cf_io::{Failed, Sink};
use std::marker::Model;

/// The maximum number of bytes that are gathered.
const MOST_KEPT: usize = 4096;

/// A sink that passes its bytes on to another sink. Once it is asked to gather, it collects up to 4,096 bytes of what
/// is written to it, and writes them to the other sink in one piece: when there is no room for more, or when it is
/// asked to pass them on. It allocates no memory.
#[derive(Drop)]
pub struct Gathered<K: Sink + Drop> {
    sink: K,
    bytes: [u8; 4096],
    start: usize,
    end: usize,
    gathers: bool,
}

impl<K: Sink + Drop> Model for Gathered<K> {
    ghost use Rattle.std.specs.Prelude.{◌-◌, ◌≤◌, drop, take};
    ghost use Rattle.cf_report.specs.Gathering.{Gathering};

    ghost Value = { Gathering K };

    ghost view = { λ g. record { sink = g.sink; kept = drop g.start (take g.end g.bytes); room = 4096 - g.end; gathers = g.gathers } };

    ghost invariant = { λ g. (g.start ≤ g.end) × (g.end ≤ 4096) };
}

/// Writes the bytes from `start` on; `start` then says how far the sink got.
fn put_rest<K: Sink>(sink: &mut K, bytes: &[u8], start: &mut usize) -> Result<(), Failed>
    requires { start.old ≤ length bytes.now }
    ensures all { OnOk result (start.new ≡ length bytes.now) }
    ensures some { OnErr result (start.new < length bytes.now) }
    ensures written { WritesNothing (followed_by (K.written sink.old) (drop start.old bytes.now))
        (followed_by (K.written sink.new) (drop start.new bytes.now)) }
    ensures cause { HasCause (K.faults sink.old) (K.faults sink.new) result }
{
    let mut done = *start;
    while done < bytes.len() {
        match sink.put(&bytes[done..]) {
            Ok(count) => done += count,
            Err(failed) => {
                *start = done;
                return Err(failed);
            }
        }
    }
    *start = done;
    Ok(())
}

impl<K: Sink + Drop> Gathered<K> {
    /// A sink that passes on to this one at once what is written to it.
    pub fn new(sink: K) -> Gathered<K>
        ensures { result ≡ gathers_for sink }
    {
        Gathered {
            sink,
            bytes: [0; 4096],
            start: 0,
            end: 0,
            gathers: false,
        }
    }

    /// The next sink, which has what was passed on.
    pub fn sink(&self) -> &K
        ensures { result.now ≡ self.now.sink }
    {
        &self.sink
    }

    /// Writes all that was gathered to the next sink. If that fails, what it did not take is kept.
    #[inline(never)]
    fn pass_all(&mut self) -> Result<(), Failed>
        ensures written { WritesNothing (written_by K.written self.old) (written_by K.written self.new) }
        ensures passes { PassesOn self.new result }
        ensures cause { HasCause (K.faults self.old.sink) (K.faults self.new.sink) result }
    {
        let bytes = self.bytes;
        let end = self.end;
        let mut start = self.start;
        let passed = put_rest(&mut self.sink, &bytes[..end], &mut start);
        match passed {
            Ok(()) => {
                self.start = 0;
                self.end = 0;
            }
            Err(_) => self.start = start,
        }
        passed
    }

    /// Makes room for at least one byte.
    #[inline(always)]
    #[tactic(auto, using(crate::proofs::Keeping::keeping))]
    fn make_room(&mut self) -> Result<(), Failed>
        ensures written { WritesNothing (written_by K.written self.old) (written_by K.written self.new) }
        ensures room { OnOk result (0 < self.new.room) }
        ensures cause { HasCause (K.faults self.old.sink) (K.faults self.new.sink) result }
    {
        if self.end < MOST_KEPT {
            return Ok(());
        }
        self.pass_all()
    }

    /// Gathers as many of these bytes as there is room for, and returns how many.
    #[inline(always)]
    fn keep(&mut self, bytes: &[u8]) -> usize
        ensures count { result ≡ min (length bytes.now) self.old.room }
        ensures kept { self.new.kept ≡ self.old.kept ++ take result bytes.now }
        ensures sink { self.new.sink ≡ self.old.sink }
    {
        let count = bytes.len().min(MOST_KEPT - self.end);
        let end = self.end + count;
        self.bytes[self.end..end].copy_from_slice(&bytes[..count]);
        self.end = end;
        count
    }

    /// Gathers bytes from the start of a piece that is not empty.
    #[inline(always)]
    #[tactic(auto, using(crate::proofs::Keeping::keeping))]
    fn gather_piece(&mut self, bytes: &[u8]) -> Result<usize, Failed>
        requires { 0 < length bytes.now }
        ensures bytes { Puts (written_by K.written self.old) (written_by K.written self.new) bytes.now result }
        ensures cause { HasCause (K.faults self.old.sink) (K.faults self.new.sink) result }
    {
        self.make_room()?;
        Ok(self.keep(bytes))
    }

    /// Writes bytes from the start of a piece that is not empty to the next sink.
    #[tactic(auto, using(crate::proofs::Keeping::keeping))]
    fn put_through(&mut self, bytes: &[u8]) -> Result<usize, Failed>
        requires { 0 < length bytes.now }
        ensures bytes { Puts (written_by K.written self.old) (written_by K.written self.new) bytes.now result }
        ensures cause { HasCause (K.faults self.old.sink) (K.faults self.new.sink) result }
    {
        self.pass_all()?;
        self.sink.put(bytes)
    }
}

impl<K: Sink + Drop> Sink for Gathered<K> {
    ghost use Rattle.cf_report.specs.Gathering.{written_by};

    ghost written = { λ g. written_by K.written g };

    ghost faults = { λ g. K.faults g.sink };

    #[tactic(auto, using(crate::proofs::Keeping::keeping))]
    fn put(&mut self, bytes: &[u8]) -> Result<usize, Failed> {
        if bytes.is_empty() {
            return Ok(0);
        }
        if self.gathers {
            self.gather_piece(bytes)
        } else {
            self.put_through(bytes)
        }
    }
}

impl<K: Sink + Drop> ReportSink for Gathered<K> {
    ghost kept = { λ g. g.kept };

    #[tactic(auto, using(crate::proofs::Keeping::keeping))]
    fn gather(&mut self) {
        self.gathers = true;
    }

    fn pass_on(&mut self) -> Result<(), Failed> {
        self.pass_all()
    }
}
