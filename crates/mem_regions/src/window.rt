//! The region that is tried before all others.

ghost use Rattle.std.specs.Prelude.{◌≡◌, ◌+◌, ◌≤◌, ◌<◌, ◌^◌, Some, IsTrue, OnErr, length, map, true};
ghost use Rattle.std.specs.List.{list_all};
ghost use Rattle.mem_regions.specs.Access.{IsWidth, area_bounds, bounds_of, permits_at};
ghost use Rattle.mem_regions.specs.Lending.{area_at};
ghost use Rattle.mem_regions.specs.Ranges.{bytes_in, lies_in, load_at};
ghost use Rattle.mem_regions.specs.Writing.{memory_with, stored};
ghost use Rattle.mem_regions.specs.Bytes.{le_bytes, le_number};
ghost use Rattle.mem_regions.specs.Window.{IsWindowOf, are_apart, lies_within};

use crate::numbers::number_of;
use crate::region::Region;
use crate::{MemErr, Regions};

/// The position of the last region, if a program may write to it and it shares no address with another; otherwise the
/// window is empty. Programs use the last region most: it is their stack.
#[derive(Clone, Copy)]
pub struct Window {
    pub(crate) place: usize,
    pub(crate) base: u32,
    pub(crate) size: u64,
}

/// A window that contains no access.
const EMPTY: Window = Window {
    place: 0,
    base: 0,
    size: 0,
};

impl Region {
    /// Whether the two regions share no address.
    fn is_apart(&self, other: &Region) -> bool
        ensures { result ≡ are_apart (area_bounds self.now) (area_bounds other.now) }
    {
        u64::from(self.base) + u64::from(self.size) <= u64::from(other.base)
            || u64::from(other.base) + u64::from(other.size) <= u64::from(self.base)
    }
}

/// Whether the region shares no address with those of the list.
fn is_apart_from(list: &[Region], region: &Region) -> bool
    ensures { result ≡ list_all (λ a. are_apart (area_bounds a) (area_bounds region.now)) list.now }
{
    list.iter().all(|other| other.is_apart(region))
}

/// The window of a list of regions.
#[tactic(auto, using(crate::proofs::Windows::beginning))]
fn window_of(list: &[Region]) -> Window
    ensures { IsWindowOf (map area_bounds list.now) result }
{
    if list.is_empty() {
        return EMPTY;
    }
    let place = list.len() - 1;
    let last = &list[place];
    if last.write && is_apart_from(&list[..place], last) {
        Window {
            place,
            base: last.base,
            size: u64::from(last.size),
        }
    } else {
        EMPTY
    }
}

impl Window {
    /// Whether an access of at least one byte is in the window.
    #[inline(always)]
    #[tactic(auto, using(crate::proofs::RegionLemmas::offsets))]
    fn holds(&self, addr: u32, width: u32) -> bool
        requires some { 0 < width }
        requires ends { self.now.base + self.now.size ≤ 2 ^ 32 }
        ensures { result ≡ lies_within addr width self.now }
    {
        let offset = addr.wrapping_sub(self.base);
        u64::from(offset) + u64::from(width) <= self.size
    }
}

impl Regions {
    /// The region to try before all others.
    #[tactic(auto, unfolding(crate::specs::Access::bounds_of))]
    pub fn window(&self) -> Window
        ensures { IsWindowOf (bounds_of self.now) result }
    {
        window_of(self.list.as_slice())
    }

    /// The number of the bytes in the region at an index.
    #[inline(always)]
    fn number_at_place(&self, place: usize, addr: u32, width: u32) -> u32
        requires place { place < length self.now.areas }
        requires width { IsWidth width }
        requires lies { IsTrue (lies_in addr width (area_at self.now place)) }
        ensures { result ≡ le_number (bytes_in addr width (area_at self.now place)) }
    {
        let region = &self.list[place];
        number_of(region.range(addr, width))
    }

    /// Writes the low bytes of a number to an address in the window.
    #[inline(always)]
    #[tactic(auto, using(crate::proofs::Windows::storing, crate::proofs::Writes::storing))]
    fn store_within(&mut self, window: Window, addr: u32, width: u32, number: u32)
        requires window { IsWindowOf (bounds_of self.old) window }
        requires width { IsWidth width }
        requires within { IsTrue (lies_within addr width window) }
        ensures { self.new ≡ memory_with self.old addr width (le_bytes width number) }
    {
        self.store_at(window.place, addr, width, number);
    }

    /// The same as [`Regions::load_number`]: the window is tried first, which is faster.
    #[inline(always)]
    #[tactic(auto, using(crate::proofs::Windows::loading), unfolding(crate::specs::Ranges::load_at))]
    pub fn load_number_by(&self, window: Window, addr: u32, width: u32) -> Result<u32, MemErr>
        requires window { IsWindowOf (bounds_of self.now) window }
        requires width { IsWidth width }
        ensures number { result ≡ load_at self.now addr width }
    {
        if addr % width == 0 && window.holds(addr, width) {
            return Ok(self.number_at_place(window.place, addr, width));
        }
        self.load_number(addr, width)
    }

    /// The same as [`Regions::store`]: the window is tried first, which is faster.
    #[inline(always)]
    #[tactic(auto, using(crate::proofs::Windows::storing), unfolding(crate::specs::Access::permits_at, crate::specs::Writing::stored))]
    pub fn store_by(
        &mut self,
        window: Window,
        addr: u32,
        width: u32,
        number: u32,
    ) -> Result<(), MemErr>
        requires window { IsWindowOf (bounds_of self.old) window }
        requires width { IsWidth width }
        ensures answer { result ≡ permits_at (bounds_of self.old) addr width true }
        ensures memory { self.new ≡ stored self.old addr width number }
        ensures window { IsWindowOf (bounds_of self.new) window }
        ensures unchanged { OnErr result (self.new ≡ self.old) }
    {
        if addr % width == 0 && window.holds(addr, width) {
            self.store_within(window, addr, width, number);
            return Ok(());
        }
        self.store(addr, width, number)
    }
}
