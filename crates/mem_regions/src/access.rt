//! Loads and stores.

ghost use Rattle.std.specs.Prelude.{◌≡◌, ◌<◌, find, position, length, false, true, IsTrue, OnErr};
ghost use Rattle.std.specs.List.{list_any};
ghost use Rattle.std.specs.Option.{option_copied};
ghost use Rattle.mem_regions.specs.Access.{IsWidth, bounds_of, permits_at, permission_told};
ghost use Rattle.mem_regions.specs.Ranges.{lies_in, permits_area, writes_in, load_at};
ghost use Rattle.mem_regions.specs.Writing.{stored};
ghost use Rattle.mem_regions.specs.Bytes.{le_bytes};
ghost use Rattle.mem_regions.specs.Lending.{area_at, memory_at};

use crate::Regions;
use crate::numbers::number_of;
use crate::region::Region;

/// Why an access is refused.
#[derive(Clone, Copy, PartialEq, Eq)]
pub enum MemErr {
    /// The address is not a multiple of the width.
    Misaligned,
    /// The address is aligned, but no region that permits the access holds all its bytes.
    NoAccess,
}

/// The first region that holds the bytes of a load.
#[inline(always)]
fn find_loading<'a>(list: &'a [Region], addr: u32, width: u32) -> Option<&'a Region>
    requires { IsWidth width }
    ensures { option_copied result ≡ find (lies_in addr width) list.now }
{
    list.iter().find(|region| region.holds_some(addr, width))
}

/// Whether some region permits the access.
#[inline(always)]
fn any_permits(list: &[Region], addr: u32, width: u32, write: bool) -> bool
    requires { IsWidth width }
    ensures { result ≡ list_any (permits_area addr width write) list.now }
{
    list.iter()
        .any(|region| region.permits_some(addr, width, write))
}

impl Regions {
    /// The number that a load reads.
    #[inline(always)]
    #[tactic(auto, using(crate::proofs::Finding::finding), unfolding(crate::specs::Ranges::load_at, crate::specs::Ranges::range_of))]
    fn number_at(&self, addr: u32, width: u32) -> Result<u32, MemErr>
        requires { IsWidth width }
        ensures { result ≡ load_at self.now addr width }
    {
        if addr % width != 0 {
            return Err(MemErr::Misaligned);
        }
        match find_loading(self.list.as_slice(), addr, width) {
            Some(region) => Ok(number_of(region.range(addr, width))),
            None => Err(MemErr::NoAccess),
        }
    }

    /// The little-endian number of 1, 2 or 4 bytes at the address, not sign-extended. The refusal is `Misaligned` if
    /// the address is not a multiple of the width, and otherwise `NoAccess` if the bytes are not in one region.
    #[inline(always)]
    #[tactic(auto, using(crate::proofs::Loads::permission))]
    pub fn load_number(&self, addr: u32, width: u32) -> Result<u32, MemErr>
        requires { IsWidth width }
        ensures number { result ≡ load_at self.now addr width }
        ensures permission { permission_told result ≡ permits_at (bounds_of self.now) addr width false }
    {
        // Each width has its own search, which is faster.
        match width {
            1 => self.number_at(addr, 1),
            2 => self.number_at(addr, 2),
            _ => self.number_at(addr, 4),
        }
    }

    /// The index of the first region that permits the store.
    #[inline(always)]
    pub(crate) fn place_to_store(&self, addr: u32, width: u32) -> Option<usize>
        requires { IsWidth width }
        ensures { result ≡ position (writes_in addr width) self.now.areas }
    {
        for (place, region) in self.list.iter().enumerate() {
            if region.permits_some(addr, width, true) {
                return Some(place);
            }
        }
        None
    }

    /// Writes the low bytes of the number in the region at an index.
    #[inline(always)]
    pub(crate) fn store_at(&mut self, place: usize, addr: u32, width: u32, number: u32)
        requires place { place < length self.old.areas }
        requires width { IsWidth width }
        requires lies { IsTrue (lies_in addr width (area_at self.old place)) }
        ensures { self.new ≡ memory_at self.old place addr (le_bytes width number) }
    {
        let region = &mut self.list[place];
        region.store(addr, width, number);
    }

    /// Writes the low bytes of the number at the address.
    #[inline(always)]
    #[tactic(auto, using(crate::proofs::Writes::storing), unfolding(crate::specs::Access::permits_at, crate::specs::Writing::stored))]
    fn store_number(&mut self, addr: u32, width: u32, number: u32) -> Result<(), MemErr>
        requires { IsWidth width }
        ensures answer { result ≡ permits_at (bounds_of self.old) addr width true }
        ensures memory { self.new ≡ stored self.old addr width number }
        ensures unchanged { OnErr result (self.new ≡ self.old) }
    {
        if addr % width != 0 {
            return Err(MemErr::Misaligned);
        }
        match self.place_to_store(addr, width) {
            Some(place) => {
                self.store_at(place, addr, width, number);
                Ok(())
            }
            None => Err(MemErr::NoAccess),
        }
    }

    /// Writes the low 1, 2 or 4 bytes of the number at the address, in little-endian order. The code of a region is
    /// unchanged. The refusal is `Misaligned` if the address is not a multiple of the width, and otherwise `NoAccess`
    /// if the bytes are not in one writable region; memory is then unchanged.
    #[inline(always)]
    pub fn store(&mut self, addr: u32, width: u32, number: u32) -> Result<(), MemErr>
        requires { IsWidth width }
        ensures answer { result ≡ permits_at (bounds_of self.old) addr width true }
        ensures memory { self.new ≡ stored self.old addr width number }
        ensures unchanged { OnErr result (self.new ≡ self.old) }
    {
        // As for a load, each width has its own search.
        match width {
            1 => self.store_number(addr, 1, number),
            2 => self.store_number(addr, 2, number),
            _ => self.store_number(addr, 4, number),
        }
    }

    /// Whether a load of 1, 2 or 4 bytes at the address, or a store if `write` is set, is permitted, and why not.
    #[inline(always)]
    #[tactic(auto, using(crate::proofs::Writes::permitting), unfolding(crate::specs::Access::permits_at))]
    pub fn permits(&self, addr: u32, width: u32, write: bool) -> Result<(), MemErr>
        requires { IsWidth width }
        ensures { result ≡ permits_at (bounds_of self.now) addr width write }
    {
        if addr % width != 0 {
            return Err(MemErr::Misaligned);
        }
        if !any_permits(self.list.as_slice(), addr, width, write) {
            return Err(MemErr::NoAccess);
        }
        Ok(())
    }
}
