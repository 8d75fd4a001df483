//! A sink in memory.

ghost use Rattle.std.specs.Prelude.{◌≡◌, ◌↔◌, Some, length, IfOk, IsErr, IsTrue};
ghost use Rattle.cf_io.specs.Causes.{HasCause};
ghost use Rattle.cf_io.specs.Puts.{Puts};
ghost use Rattle.cf_io.specs.MemorySink.{empty_sink, put_size, put_fails, after_put};

use crate::failed::Failed;
use crate::failing_calls::FailingCalls;
use crate::sink::Sink;
use std::alloc::{AllocError, Global};
use std::marker::Model;

/// A buffer of fixed capacity. Exactly the puts whose numbers are listed fail, and those into a full buffer.
#[derive(Drop)]
pub struct MemSink {
    bytes: Vec<u8>,
    capacity: usize,
    calls: FailingCalls,
    faults: u64,
}

impl Model for MemSink {
    ghost use Rattle.std.specs.Prelude.{◌≤◌, vec_len, vec_capacity};
    ghost use Rattle.cf_io.specs.MemorySink.{MemorySink};

    ghost Value = { MemorySink };

    ghost view = { λ s. record {
      written = s.bytes.items;
      capacity = s.capacity;
      calls = s.calls;
      faults = s.faults;
    } };

    ghost invariant = { λ s. (vec_len s.bytes ≤ s.capacity) × (s.capacity ≤ vec_capacity s.bytes) };
}

impl MemSink {
    /// An empty sink with room for `capacity` bytes, which are allocated here. `fails` lists the numbers of the puts
    /// that fail, counted from 1; puts of nothing are not counted.
    pub fn new(alloc: Global, capacity: usize, fails: Vec<u64>) -> Result<MemSink, AllocError>
        ensures { IfOk result (λ sink. sink ≡ empty_sink capacity fails.items) }
    {
        let bytes = Vec::with_capacity(alloc, capacity)?;
        Ok(MemSink {
            bytes,
            capacity,
            calls: FailingCalls::new(fails),
            faults: 0,
        })
    }

    /// All bytes that were written, in order.
    pub fn bytes(&self) -> &[u8]
        ensures { result.now ≡ self.now.written }
    {
        self.bytes.as_slice()
    }
}

impl Sink for MemSink {
    ghost use Rattle.std.specs.Prelude.{Some};

    ghost written = { λ s. Some s.written };

    ghost faults = { λ s. s.faults };

    #[tactic(auto, unfolding(crate::specs::MemorySink::put_fails, crate::specs::MemorySink::after_put))]
    fn put(&mut self, bytes: &[u8]) -> Result<usize, Failed>
        ensures bytes { Puts (Some self.old.written) (Some self.new.written) bytes.now result }
        ensures cause { HasCause self.old.faults self.new.faults result }
        ensures count { IfOk result (λ n. n ≡ put_size self.old (length bytes.now)) }
        ensures fails { IsErr result ↔ IsTrue (put_fails self.old (length bytes.now)) }
        ensures state { self.new ≡ after_put self.old bytes.now }
    {
        if bytes.is_empty() {
            return Ok(0);
        }
        let room = self.capacity - self.bytes.len();
        if self.calls.next() || room == 0 {
            self.faults = self.faults.saturating_add(1);
            return Err(Failed);
        }
        let count = bytes.len().min(room);
        match self.bytes.extend_from_slice(&bytes[..count]) {
            Ok(()) => Ok(count),
            Err(_) => unreachable!(),
        }
    }
}
