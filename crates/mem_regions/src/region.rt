//! One region of memory.

ghost use Rattle.std.specs.Prelude.{◌≡◌, ◌<◌, IsTrue, length};
ghost use Rattle.mem_regions.specs.Access.{area_bounds, holds, permits_in, IsWidth};
ghost use Rattle.mem_regions.specs.Ranges.{lies_in, writes_in, bytes_in};
ghost use Rattle.mem_regions.specs.Fetching.{fetches_in, word_in, synced_area};
ghost use Rattle.mem_regions.specs.Writing.{area_with};
ghost use Rattle.mem_regions.specs.Bytes.{le_bytes};

use crate::numbers::{bytes_of, word_of};
use std::marker::Model;

/// A region: its bytes, and, if it is executable, a copy of them as its code.
#[derive(Drop)]
pub(crate) struct Region {
    pub(crate) base: u32,
    pub(crate) size: u32,
    pub(crate) write: bool,
    pub(crate) exec: bool,
    pub(crate) bytes: Vec<u8>,
    pub(crate) code: Vec<u8>,
}

impl Model for Region {
    ghost use Rattle.std.specs.Prelude.{◌+◌, ◌≤◌, ◌^◌, ◌≡◌, length, IsTrue};
    ghost use Rattle.mem_regions.specs.Area.{Area};

    ghost Value = { Area };

    ghost view = { λ r. record { base = r.base; write = r.write; exec = r.exec; bytes = r.bytes.items; code = r.code.items } };

    ghost invariant = { λ r. (length r.bytes.items ≡ r.size) × (r.base + r.size ≤ 2 ^ 32) × (IsTrue r.exec → length r.code.items ≡ r.size) };
}

impl Region {
    /// Whether the range is in the region.
    pub(crate) fn holds(&self, addr: u32, len: u32) -> bool
        ensures { result ≡ lies_in addr len self.now }
    {
        self.base <= addr
            && u64::from(addr) + u64::from(len) <= u64::from(self.base) + u64::from(self.size)
    }

    /// Whether the range may be written in the region.
    pub(crate) fn writes(&self, addr: u32, len: u32) -> bool
        ensures { result ≡ writes_in addr len self.now }
    {
        self.holds(addr, len) && self.write
    }

    /// Whether a range of at least one byte is in the region.
    #[inline(always)]
    #[tactic(auto, using(crate::proofs::RegionLemmas::offsets))]
    pub(crate) fn holds_some(&self, addr: u32, len: u32) -> bool
        requires { 0 < len }
        ensures { result ≡ lies_in addr len self.now }
    {
        let offset = addr.wrapping_sub(self.base);
        offset < self.size && self.size - offset >= len
    }

    /// Whether the region permits an access of at least one byte.
    #[inline(always)]
    pub(crate) fn permits_some(&self, addr: u32, len: u32, write: bool) -> bool
        requires { 0 < len }
        ensures { result ≡ permits_in addr len write (area_bounds self.now) }
    {
        self.holds_some(addr, len) && (!write || self.write)
    }

    /// Whether the word is in the region, and the region is executable.
    #[inline(always)]
    pub(crate) fn fetches(&self, pc: u32) -> bool
        ensures { result ≡ fetches_in pc self.now }
    {
        self.holds_some(pc, 4) && self.exec
    }

    /// The word of the region's code. Only this function reads the code.
    #[inline(always)]
    pub(crate) fn word(&self, pc: u32) -> u32
        requires { IsTrue (fetches_in pc self.now) }
        ensures { result ≡ word_in pc self.now }
    {
        let start = (pc - self.base) as usize;
        word_of(&self.code[start..start + 4])
    }

    /// Makes the code of an executable region a copy of its bytes again.
    pub(crate) fn sync(&mut self)
        ensures { self.new ≡ synced_area self.old }
    {
        if self.exec {
            self.code.copy_from_slice(&self.bytes);
        }
    }

    /// The bytes of a range in the region.
    #[inline(always)]
    pub(crate) fn range(&self, addr: u32, len: u32) -> &[u8]
        requires { IsTrue (lies_in addr len self.now) }
        ensures value { result.now ≡ bytes_in addr len self.now }
        ensures length { length result.now ≡ len }
    {
        let start = (addr - self.base) as usize;
        &self.bytes[start..start + len as usize]
    }
}

impl Region {
    ghost use Rattle.std.specs.Borrow.{sem};
    ghost use Rattle.mem_regions.specs.Lending.{LendsRange};

    /// The bytes of a range in the region, borrowed for writing.
    #[inline(always)]
    pub(crate) fn range_mut(&mut self, addr: u32, len: u32) -> &mut [u8]
        requires { IsTrue (lies_in addr len self.old) }
        ensures* writes_back { sem 𝓛 (LendsRange self.entry addr result) }
        ensures value { result.now ≡ bytes_in addr len self.old }
        ensures length { length result.now ≡ len }
    {
        let start = (addr - self.base) as usize;
        self.bytes.slice_mut(start..start + len as usize)
    }

    /// Writes the low bytes of the number.
    #[inline(always)]
    pub(crate) fn store(&mut self, addr: u32, width: u32, number: u32)
        requires width { IsWidth width }
        requires holds { IsTrue (lies_in addr width self.old) }
        ensures { self.new ≡ area_with addr (le_bytes width number) self.old }
    {
        let [a, b, c, d] = bytes_of(number);
        match width {
            1 => self.range_mut(addr, 1).copy_from_slice(&[a]),
            2 => self.range_mut(addr, 2).copy_from_slice(&[a, b]),
            _ => self.range_mut(addr, 4).copy_from_slice(&[a, b, c, d]),
        }
    }
}
