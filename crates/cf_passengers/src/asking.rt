//! The registers that an instruction requests.

ghost use Rattle.std.specs.Prelude.{◌≡◌, IfSome, length};
ghost use Rattle.rv_inst.specs.declared.isa.Isa.{Isa as InstructionSet};
ghost use Rattle.cf_semantics.specs.state.Passengers.{requests as requested};
ghost use Rattle.cf_passengers.specs.Waiting.{listed};
ghost use Rattle.cf_passengers.specs.Facts.{IsPassenger, IsWritable};

use crate::reading::missing;
use cf_bind::Passenger;

/// The registers that are requested, at most two and each once.
#[derive(Clone, Copy)]
pub struct RequestedSources {
    /// The one to be requested first.
    pub first: Option<u8>,

    /// The one to be requested after it.
    pub second: Option<u8>,
}

impl RequestedSources {
    /// How many there are.
    #[inline(always)]
    pub fn count(self) -> u32
        ensures { result ≡ length (listed self) }
    {
        u32::from(self.first.is_some()) + u32::from(self.second.is_some())
    }
}

/// The registers of the sources without a value, each once, beginning with that of the first source.
#[inline(always)]
pub fn requests(p: &Passenger) -> RequestedSources
    ensures requests { listed result ≡ requested p.now }
    ensures first { (isa : InstructionSet) → IsPassenger isa p.now → IfSome result.first IsWritable }
    ensures second { (isa : InstructionSet) → IsPassenger isa p.now → IfSome result.second IsWritable }
{
    let first = missing(p.src1);
    let second = missing(p.src2);
    RequestedSources {
        first,
        second: if second == first { None } else { second },
    }
}
