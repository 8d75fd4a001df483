//! Instruction words, and the copies of memory that they come from.

ghost use Rattle.std.specs.Prelude.{◌≡◌, map, find};
ghost use Rattle.std.specs.Option.{option_copied};
ghost use Rattle.mem_regions.specs.Fetching.{fetches_in, fetch_at, synced};

use crate::region::Region;
use crate::{MemErr, Regions};

/// The first region that the word can be fetched from.
#[inline(always)]
fn find_fetching<'a>(list: &'a [Region], pc: u32) -> Option<&'a Region>
    ensures { option_copied result ≡ find (fetches_in pc) list.now }
{
    list.iter().find(|region| region.fetches(pc))
}

impl Regions {
    /// The instruction word at the address, from the code of an executable region. The refusal is `Misaligned` if the
    /// address is not a multiple of 4, and otherwise `NoAccess` if the word is not in one executable region.
    #[inline(always)]
    #[tactic(auto, using(crate::proofs::Finding::finding), unfolding(crate::specs::Fetching::fetch_at))]
    pub fn fetch(&self, pc: u32) -> Result<u32, MemErr>
        ensures { result ≡ fetch_at self.now pc }
    {
        if pc % 4 != 0 {
            return Err(MemErr::Misaligned);
        }
        match find_fetching(self.list.as_slice(), pc) {
            Some(region) => Ok(region.word(pc)),
            None => Err(MemErr::NoAccess),
        }
    }

    /// Makes the code of each executable region a copy of its bytes again, as FENCE.I does.
    #[tactic(auto, unfolding(crate::specs::Fetching::synced))]
    pub fn sync_code(&mut self)
        ensures { self.new ≡ synced self.old }
    {
        for region in self.list.iter_mut() {
            region.sync();
        }
    }
}
