//! The register file and fetch.

ghost use Rattle.std.specs.Prelude.{◌≡◌, ◌≢◌, ◌<◌, ◌≤◌, IfOk, length, slice_index, slice_set};
ghost use Rattle.cf_ends.specs.Ends.{fresh_ends, with_zero};

use cf_bind::Fetch;
use circular_buffer::HeapCircularBuffer;
use std::alloc::{AllocError, Global};
use std::marker::Model;

/// The ends of the pipes: the register file with its lane of requests, fetch, and the register cache at the bottom.
/// Only `new` allocates memory.
#[derive(Drop)]
pub struct Ends {
    pub(crate) regs: [u32; 32],
    pub(crate) lane: HeapCircularBuffer<u8>,
    pub(crate) fetch: Fetch,
    pub(crate) cache: [Option<u32>; 32],
}

impl Model for Ends {
    ghost use Rattle.std.specs.Prelude.{◌≡◌, ◌<◌, ◌≤◌, All, None, length, slice_index, slice_get, Some};
    ghost use Rattle.cf_ends.specs.Ends.{PipeEnds};

    ghost Value = { PipeEnds };

    ghost view = { λ e. record { regs = e.regs; lane = e.lane.items; room = e.lane.capacity; fetch = e.fetch; cache = e.cache } };

    ghost invariant = { λ e. (slice_index e.regs 0 ≡ 0) × (e.lane.capacity ≤ 64) × All (λ r. r < 32) e.lane.items × (slice_get e.cache 0 ≡ Some None) };
}

impl Ends {
    /// The ends of empty pipes: the registers, with x0 zero in any case, a lane for 2 to 64 requests, and fetch at the
    /// address; or an error if there is no memory for the lane.
    pub fn new(alloc: Global, regs: [u32; 32], pc: u32, lane: u32) -> Result<Ends, AllocError>
        requires least { 2 ≤ lane }
        requires most { lane ≤ 64 }
        ensures ends { IfOk result (λ ends. ends ≡ fresh_ends (with_zero regs) pc lane) }
        ensures given { slice_index regs 0 ≡ 0 → IfOk result (λ ends. ends ≡ fresh_ends regs pc lane) }
    {
        let mut regs = regs;
        regs[0] = 0;
        Ok(Ends {
            regs,
            lane: HeapCircularBuffer::with_capacity(alloc, lane as usize)?,
            fetch: Fetch::Running(pc),
            cache: [None; 32],
        })
    }

    /// The value of the register.
    #[inline(always)]
    pub fn reg(&self, r: u8) -> u32
        requires { r < 32 }
        ensures value { result ≡ slice_index self.now.regs r }
        ensures zero { r ≡ 0 → result ≡ 0 }
    {
        self.regs[r as usize]
    }

    /// The 32 registers; x0 is always zero.
    #[inline(always)]
    pub fn regs(&self) -> &[u32; 32]
        ensures registers { result.now ≡ self.now.regs }
        ensures zero { slice_index result.now 0 ≡ 0 }
    {
        &self.regs
    }

    /// Writes a register other than x0.
    #[inline(always)]
    pub fn write(&mut self, r: u8, value: u32)
        requires register { r < 32 }
        requires other { r ≢ 0 }
        ensures { self.new ≡ record self.old { regs = slice_set self.old.regs r value } }
    {
        self.regs[r as usize] = value;
    }

    /// What fetch does.
    #[inline(always)]
    pub fn fetch(&self) -> Fetch
        ensures { result ≡ self.now.fetch }
    {
        self.fetch
    }

    /// Makes fetch run at another address, or wait.
    #[inline(always)]
    pub fn set_fetch(&mut self, fetch: Fetch)
        ensures { self.new ≡ record self.old { fetch = fetch } }
    {
        self.fetch = fetch;
    }
}
