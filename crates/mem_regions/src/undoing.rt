//! The number that a store overwrites, and restoring it.

ghost use Rattle.std.specs.Prelude.{◌≡◌, ◌<◌, Some, None, IfSome, IfNone, IsTrue, length};
ghost use Rattle.mem_regions.specs.Access.{IsWidth};
ghost use Rattle.mem_regions.specs.Bytes.{le_bytes};
ghost use Rattle.mem_regions.specs.Lending.{area_at};
ghost use Rattle.mem_regions.specs.Ranges.{bytes_in, lies_in, writable_of};
ghost use Rattle.mem_regions.specs.Writing.{memory_with};

use crate::Regions;

/// A number whose low 1, 2 or 4 bytes these are.
#[inline(always)]
fn number_in(bytes: &[u8]) -> u32
    requires { IsWidth (length bytes.now) }
    ensures { bytes.now ≡ le_bytes (length bytes.now) result }
{
    match bytes {
        [a] => u32::from(*a),
        [a, b] => u32::from(*a) + 256 * u32::from(*b),
        [a, b, c, d] => {
            let high = u32::from(*c) + 256 * u32::from(*d);
            u32::from(*a) + 256 * (u32::from(*b) + 256 * high)
        }
        _ => unreachable!(),
    }
}

impl Regions {
    /// The number in the region at an index.
    #[inline(always)]
    fn number_in_region(&self, place: usize, addr: u32, width: u32) -> u32
        requires place { place < length self.now.areas }
        requires width { IsWidth width }
        requires lies { IsTrue (lies_in addr width (area_at self.now place)) }
        ensures { bytes_in addr width (area_at self.now place) ≡ le_bytes width result }
    {
        let region = &self.list[place];
        number_in(region.range(addr, width))
    }

    /// The number of 1, 2 or 4 bytes that a store at the address would overwrite, or `None` if they are not in one
    /// writable region.
    #[inline(always)]
    #[tactic(auto, using(crate::proofs::Writes::storing, crate::proofs::Writes::missing))]
    pub fn number_under(&self, addr: u32, width: u32) -> Option<u32>
        requires { IsWidth width }
        ensures number { IfSome result (λ number. writable_of self.now addr width ≡ Some (le_bytes width number)) }
        ensures none { IfNone result (writable_of self.now addr width ≡ None) }
    {
        let place = self.place_to_store(addr, width)?;
        Some(self.number_in_region(place, addr, width))
    }

    /// Restores the number of 1, 2 or 4 bytes that a store overwrote. If they are not in one writable region, memory is
    /// unchanged.
    #[inline(always)]
    #[tactic(auto, using(crate::proofs::Writes::storing))]
    pub fn put_back(&mut self, addr: u32, width: u32, number: u32)
        requires { IsWidth width }
        ensures { self.new ≡ memory_with self.old addr width (le_bytes width number) }
    {
        if let Some(place) = self.place_to_store(addr, width) {
            self.store_at(place, addr, width, number);
        }
    }
}
