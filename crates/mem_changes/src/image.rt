//! The memory of a program as it was loaded.

ghost use Rattle.std.specs.Prelude.{◌≡◌, IfOk, IfErr, IfSome, IfNone, All, Some, None};
ghost use Rattle.std.specs.List.{list_any};
ghost use Rattle.mem_regions.specs.Access.{IsWidth, bounds_of};
ghost use Rattle.mem_regions.specs.Bytes.{le_bytes};
ghost use Rattle.mem_regions.specs.Causes.{AreAccepted, IsLoadCause};
ghost use Rattle.mem_regions.specs.Loading.{LiesIn, loaded as loaded_memory};
ghost use Rattle.mem_regions.specs.Ranges.{writable_of};
ghost use Rattle.mem_regions.specs.Refusal.{refusal, refusal_told};
ghost use Rattle.mem_changes.specs.Differing.{runs_at};
ghost use Rattle.mem_changes.specs.Images.{IsAsLoaded, byte_at, part_runs};

use mem_regions::{LoadErr, Part, Regions};
use std::alloc::Global;
use std::marker::Model;

/// The memory of a program as it was loaded, which no program changes. Contracts see it as that memory.
#[derive(Drop)]
pub struct Image {
    loaded: Regions,
    parts: Vec<Part>,
}

impl Model for Image {
    ghost use Rattle.mem_regions.specs.Memory.{Memory};
    ghost use Rattle.mem_changes.specs.Images.{IsAsLoaded, TellsRunning};

    ghost Value = { Memory };

    ghost view = { λ s. s.loaded };

    ghost invariant = { λ s. IsAsLoaded s.loaded × TellsRunning s.parts.items s.loaded };
}

/// Whether instructions are fetched from the part at the address.
fn runs_in(part: &Part, addr: u32) -> bool
    ensures { result ≡ part_runs addr part.now }
{
    part.exec && part.base <= addr && u64::from(addr) < u64::from(part.base) + u64::from(part.size)
}

/// Whether instructions are fetched from one of the parts at the address.
fn any_runs(parts: &[Part], addr: u32) -> bool
    ensures { result ≡ list_any (part_runs addr) parts.now }
{
    parts.iter().any(|part| runs_in(part, addr))
}

impl Image {
    /// The memory that is made from these parts of the file, as [`Regions::load`] says.
    #[tactic(auto, using(crate::proofs::Loaded::loading))]
    pub fn load(alloc: Global, file: &[u8], parts: &[Part]) -> Result<Image, LoadErr>
        requires { All (LiesIn file.now) parts.now }
        ensures accepted { IfOk result (λ image. AreAccepted parts.now) }
        ensures memory { IfOk result (λ image. image ≡ loaded_memory file.now parts.now) }
        ensures refused { IfErr result (λ error. refusal parts.now ≡ refusal_told error) }
        ensures cause { IfErr result (λ error. IsLoadCause parts.now error) }
    {
        let loaded = Regions::load(alloc, file, parts)?;
        match parts.to_vec(alloc) {
            Ok(parts) => Ok(Image { loaded, parts }),
            Err(_) => Err(LoadErr::NoMemory),
        }
    }

    /// The memory.
    pub fn memory(&self) -> &Regions
        ensures memory { result.now ≡ self.now }
        ensures loaded { IsAsLoaded self.now }
    {
        &self.loaded
    }

    /// Whether instructions are fetched from the region of the address.
    pub fn runs(&self, addr: u32) -> bool
        ensures { result ≡ runs_at (bounds_of self.now) addr }
    {
        any_runs(&self.parts, addr)
    }

    /// The byte at the address if a program may write it; 0 at any other address.
    #[tactic(auto, unfolding(crate::specs::Images::byte_at))]
    pub fn byte(&self, addr: u32) -> u8
        ensures { result ≡ byte_at self.now addr }
    {
        match self.loaded.number_under(addr, 1) {
            Some(number) => (number % 256) as u8,
            None => 0,
        }
    }

    /// The number of 1, 2 or 4 bytes at the address, or `None` if a program may not write them.
    pub fn number(&self, addr: u32, width: u32) -> Option<u32>
        requires { IsWidth width }
        ensures number { IfSome result (λ number. writable_of self.now addr width ≡ Some (le_bytes width number)) }
        ensures none { IfNone result (writable_of self.now addr width ≡ None) }
    {
        self.loaded.number_under(addr, width)
    }
}
