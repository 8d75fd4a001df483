//! Ranges of memory, borrowed for reading or for writing.

ghost use Rattle.std.specs.Prelude.{◌≡◌, ◌<◌, Some, None, IfSome, IfNone, IsTrue, find, position, length};
ghost use Rattle.std.specs.Option.{option_copied};
ghost use Rattle.mem_regions.specs.Ranges.{lies_in, writes_in, bytes_in, range_of, writable_of, can_write};

use crate::Regions;
use crate::region::Region;

/// The first region that contains the range.
fn find_holding<'a>(list: &'a [Region], addr: u32, len: u32) -> Option<&'a Region>
    ensures { option_copied result ≡ find (lies_in addr len) list.now }
{
    list.iter().find(|region| region.holds(addr, len))
}

impl Regions {
    /// The bytes of the range, or `None` if it is not in one region. A range of length 0 is in a region from its base
    /// to its end, both included.
    #[tactic(auto, using(crate::proofs::Finding::finding), unfolding(crate::specs::Ranges::range_of))]
    pub fn part(&self, addr: u32, len: u32) -> Option<&[u8]>
        ensures none { IfNone result (range_of self.now addr len ≡ None) }
        ensures bytes { IfSome result (λ bytes. range_of self.now addr len ≡ Some bytes.now) }
        ensures length { IfSome result (λ bytes. length bytes.now ≡ len) }
    {
        let region = find_holding(self.list.as_slice(), addr, len)?;
        Some(region.range(addr, len))
    }

    /// The index of the first region in which the range may be written.
    fn place_to_write(&self, addr: u32, len: u32) -> Option<usize>
        ensures { result ≡ position (writes_in addr len) self.now.areas }
    {
        self.list.iter().position(|region| region.writes(addr, len))
    }

    /// Whether the range is in one writable region.
    #[tactic(auto, using(crate::proofs::Writes::finding_a_place))]
    pub fn is_writable(&self, addr: u32, len: u32) -> bool
        ensures { result ≡ can_write self.now addr len }
    {
        self.place_to_write(addr, len).is_some()
    }

    /// The same index, if there is one.
    #[tactic(auto, using(crate::proofs::Writes::having_a_place))]
    fn writable_place(&self, addr: u32, len: u32) -> usize
        requires { IsTrue (can_write self.now addr len) }
        ensures { Some result ≡ position (writes_in addr len) self.now.areas }
    {
        match self.place_to_write(addr, len) {
            Some(place) => place,
            None => unreachable!(),
        }
    }
}

impl Regions {
    ghost use Rattle.std.specs.Borrow.{sem};
    ghost use Rattle.mem_regions.specs.Area.{Area};
    ghost use Rattle.mem_regions.specs.Lending.{LendsAt, LendsPart, LendsWritable, lent_bytes, area_at};

    /// The bytes of a range in the region at that index, borrowed for writing.
    fn range_at(&mut self, place: usize, addr: u32, len: u32) -> &mut [u8]
        requires place { place < length self.old.areas }
        requires holds { IsTrue (lies_in addr len (area_at self.old place)) }
        ensures* writes_back { sem 𝓛 (LendsAt self.entry place addr result) }
        ensures value { result.now ≡ bytes_in addr len (area_at self.old place) }
        ensures length { length result.now ≡ len }
    {
        let region = &mut self.list[place];
        region.range_mut(addr, len)
    }

    /// The bytes of a range that is in one writable region, borrowed for writing.
    #[tactic(auto, using(crate::proofs::Writes::storing))]
    pub fn writable(&mut self, addr: u32, len: u32) -> &mut [u8]
        requires { IsTrue (can_write self.old addr len) }
        ensures* writes_back { sem 𝓛 (LendsWritable self.entry addr len result) }
        ensures value { Some result.now ≡ writable_of self.old addr len }
        ensures length { length result.now ≡ len }
    {
        let place = self.writable_place(addr, len);
        self.range_at(place, addr, len)
    }

    /// The bytes of a range, borrowed for writing, or `None` if it is not in one writable region. Writing through the
    /// borrow changes these bytes of memory and nothing else.
    pub fn part_mut(&mut self, addr: u32, len: u32) -> Option<&mut [u8]>
        ensures* writes_back { sem 𝓛 (LendsPart self.entry addr len result) }
        ensures bytes { lent_bytes result ≡ writable_of self.old addr len }
        ensures length { IfSome result (λ bytes. length bytes.now ≡ len) }
    {
        if !self.is_writable(addr, len) {
            return None;
        }
        Some(self.writable(addr, len))
    }
}
