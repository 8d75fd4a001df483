//! Instructions that were decoded earlier.
#![tactic(auto, unfolding(crate::specs::Decoded::found_at))]

ghost use Rattle.std.specs.Prelude.{◌≡◌, ◌<◌, false, IsTrue, IfSome, IfNone};
ghost use Rattle.std.specs.List.{All};
ghost use Rattle.rv_machine.specs.Decoded.{IsEmpty, IsCacheOf, found_at, is_instruction, place_at, cache_keeps};

use mem_regions::{MemErr, Regions};
use rv_inst::{Instr, decode_m};

/// How many entries the cache has: enough for 16 KiB of code.
const PLACES: usize = 4096;

/// What is at an address.
#[derive(Clone, Copy)]
pub(crate) enum Found {
    /// A word, and the instruction of RV32IM that it encodes.
    Instruction { word: u32, instr: Instr },

    /// A word that does not encode an instruction.
    Unknown(u32),

    /// Nothing that can be fetched.
    Nothing,

    /// Nothing, since the address is not a multiple of 4.
    Misaligned,
}

/// An instruction that was decoded, with its address and its word.
#[derive(Clone, Copy)]
pub(crate) struct Decoded {
    // The address of an empty entry is beyond all others.
    pub(crate) address: u64,
    pub(crate) word: u32,
    pub(crate) instr: Instr,
}

/// An empty entry.
const EMPTY: Decoded = Decoded {
    address: u64::MAX,
    word: 0,
    instr: Instr::Ebreak,
};

/// The instructions that were decoded last, each at the index of its address.
#[derive(Drop)]
pub(crate) struct DecodeCache {
    pub(crate) places: [Decoded; 4096],
}

/// The index of an address in the cache.
#[inline(always)]
fn place_of(pc: u32) -> usize
    ensures place { result ≡ place_at pc }
    ensures below { result < 4096 }
{
    (pc / 4) as usize % PLACES
}

/// What is at the address.
#[inline(always)]
pub(crate) fn look_up(mem: &Regions, pc: u32) -> Found
    ensures { result ≡ found_at mem.now pc }
{
    match mem.fetch(pc) {
        Ok(word) => match decode_m(word) {
            Some(instr) => Found::Instruction { word, instr },
            None => Found::Unknown(word),
        },
        Err(MemErr::NoAccess) => Found::Nothing,
        Err(MemErr::Misaligned) => Found::Misaligned,
    }
}

impl DecodeCache {
    /// An empty cache.
    pub(crate) fn new() -> DecodeCache
        ensures { All IsEmpty result.places }
    {
        DecodeCache {
            places: [EMPTY; PLACES],
        }
    }

    /// Empties the cache.
    pub(crate) fn clear(&mut self)
        ensures { All IsEmpty self.new.places }
    {
        self.places = [EMPTY; PLACES];
    }

    /// Whether the cache has the address.
    #[inline(always)]
    #[tactic(auto, unfolding(crate::specs::Decoded::cache_keeps))]
    fn has(&self, pc: u32) -> bool
        ensures { result ≡ cache_keeps self.now.places pc }
    {
        self.places[place_of(pc)].address == u64::from(pc)
    }

    /// Decodes and stores the instruction at the address, if there is one.
    #[inline(never)]
    #[tactic(auto, using(crate::proofs::Keeping::keeping))]
    fn keep(&mut self, mem: &Regions, pc: u32) -> bool
        requires { IsCacheOf mem.now self.old.places }
        ensures found { result ≡ is_instruction (found_at mem.now pc) }
        ensures has { IsTrue result → IsTrue (cache_keeps self.new.places pc) }
        ensures cache { IsCacheOf mem.now self.new.places }
    {
        match look_up(mem, pc) {
            Found::Instruction { word, instr } => {
                self.places[place_of(pc)] = Decoded {
                    address: u64::from(pc),
                    word,
                    instr,
                };
                true
            }
            _ => false,
        }
    }

    /// Whether there is an instruction at the address; if so, the cache has it afterwards.
    #[inline(always)]
    #[tactic(auto, using(crate::proofs::Keeping::having))]
    fn comes_to_have(&mut self, mem: &Regions, pc: u32) -> bool
        requires { IsCacheOf mem.now self.old.places }
        ensures found { result ≡ is_instruction (found_at mem.now pc) }
        ensures has { IsTrue result → IsTrue (cache_keeps self.new.places pc) }
        ensures cache { IsCacheOf mem.now self.new.places }
    {
        self.has(pc) || self.keep(mem, pc)
    }

    /// The instruction at the address, if there is one. It is read from the cache even if it has just been decoded,
    /// which keeps the rare path out of the hot loop.
    #[inline(always)]
    #[tactic(auto, using(crate::proofs::Keeping::keeping))]
    pub(crate) fn find(&mut self, mem: &Regions, pc: u32) -> Option<Decoded>
        requires { IsCacheOf mem.now self.old.places }
        ensures some { IfSome result (λ d. found_at mem.now pc ≡ Found.Instruction d.word d.instr) }
        ensures none { IfNone result (is_instruction (found_at mem.now pc) ≡ false) }
        ensures cache { IsCacheOf mem.now self.new.places }
    {
        if self.comes_to_have(mem, pc) {
            Some(self.places[place_of(pc)])
        } else {
            None
        }
    }
}
