//! A source in memory.

ghost use Rattle.std.specs.Prelude.{◌≡◌, ◌<◌, ◌↔◌, Some, length, IfOk, IsErr, IsTrue};
ghost use Rattle.cf_io.specs.Causes.{HasCause};
ghost use Rattle.cf_io.specs.Takes.{Takes};
ghost use Rattle.cf_io.specs.MemorySource.{source_at_start, piece_size, take_fails, after_take};

use crate::failed::Failed;
use crate::failing_calls::FailingCalls;
use crate::source::Source;
use std::marker::Model;

/// Bytes in memory that are given in pieces. Exactly the takes whose numbers are listed fail.
#[derive(Drop)]
pub struct MemSource {
    bytes: Vec<u8>,
    at: usize,
    piece: usize,
    calls: FailingCalls,
    faults: u64,
}

impl Model for MemSource {
    ghost use Rattle.std.specs.Prelude.{◌≤◌, ◌<◌, drop, vec_len};
    ghost use Rattle.cf_io.specs.MemorySource.{MemorySource};

    ghost Value = { MemorySource };

    ghost view = { λ s. record {
      left = drop s.at s.bytes.items;
      piece = s.piece;
      calls = s.calls;
      faults = s.faults;
    } };

    ghost invariant = { λ s. (s.at ≤ vec_len s.bytes) × (0 < s.piece) };
}

impl MemSource {
    /// A source of `bytes`. Each call gives the minimum of `piece`, the slice's length and what is left. `fails` lists
    /// the numbers of the takes that fail, counted from 1; takes into an empty slice are not counted.
    pub fn new(bytes: Vec<u8>, piece: usize, fails: Vec<u64>) -> MemSource
        requires { 0 < piece }
        ensures { result ≡ source_at_start bytes.items piece fails.items }
    {
        MemSource {
            bytes,
            at: 0,
            piece,
            calls: FailingCalls::new(fails),
            faults: 0,
        }
    }
}

impl Source for MemSource {
    ghost use Rattle.std.specs.Prelude.{Some};

    ghost left = { λ s. Some s.left };

    ghost faults = { λ s. s.faults };

    #[tactic(auto, unfolding(crate::specs::MemorySource::take_fails, crate::specs::MemorySource::after_take))]
    fn take(&mut self, into: &mut [u8]) -> Result<usize, Failed>
        ensures bytes { Takes (Some self.old.left) (Some self.new.left) into.old into.new result }
        ensures cause { HasCause self.old.faults self.new.faults result }
        ensures count { IfOk result (λ n. n ≡ piece_size self.old (length into.old)) }
        ensures fails { IsErr result ↔ IsTrue (take_fails self.old (length into.old)) }
        ensures state { self.new ≡ after_take self.old (length into.old) }
    {
        if into.is_empty() {
            return Ok(0);
        }
        if self.calls.next() {
            self.faults = self.faults.saturating_add(1);
            return Err(Failed);
        }
        let left = &self.bytes[self.at..];
        let count = into.len().min(left.len()).min(self.piece);
        into[..count].copy_from_slice(&left[..count]);
        self.at += count;
        Ok(count)
    }
}
