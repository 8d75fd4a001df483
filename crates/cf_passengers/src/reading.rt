//! Reading the fields of a `Passenger`.

ghost use Rattle.std.specs.Prelude.{◌≡◌};
ghost use Rattle.cf_semantics.specs.state.Passengers.{instruction as instruction_of, kind as kind_of_passenger, missing as missing_in, value_in as value_held};
ghost use Rattle.cf_passengers.specs.Waiting.{first_unknown};

use cf_bind::{Binding, Passenger};
use rv_inst::{Class, Instr, class_of};

/// The decoded instruction. A `Passenger` without one ended when it was issued, and counts as EBREAK, which does so
/// too.
#[inline(always)]
pub fn instruction(p: &Passenger) -> Instr
    ensures { result ≡ instruction_of p.now }
{
    match p.what {
        Some(i) => i,
        None => Instr::Ebreak,
    }
}

/// The class of the instruction; `Free` if there is none.
#[inline(always)]
#[tactic(auto, unfolding(cf_semantics::specs::moves::Instructions::kind_of))]
pub fn kind(p: &Passenger) -> Class
    ensures { result ≡ kind_of_passenger p.now }
{
    match p.what {
        Some(i) => class_of(i),
        None => Class::Free,
    }
}

/// The register of a source that has no value yet.
#[inline(always)]
pub fn missing(source: Option<Binding>) -> Option<u8>
    ensures { result ≡ missing_in source }
{
    match source {
        Some(binding) if binding.value.is_none() => Some(binding.reg),
        _ => None,
    }
}

/// The register of the first source that has no value yet.
#[inline(always)]
pub fn first_missing(p: &Passenger) -> Option<u8>
    ensures { result ≡ first_unknown p.now }
{
    missing(p.src1).or(missing(p.src2))
}

/// The value of a source; 0 if there is no source or no value.
#[inline(always)]
pub fn value_in(source: Option<Binding>) -> u32
    ensures { result ≡ value_held source }
{
    match source {
        Some(binding) => binding.value.unwrap_or(0),
        None => 0,
    }
}
