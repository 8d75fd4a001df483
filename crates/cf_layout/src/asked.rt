//! What the parts of a layout request.

ghost use Rattle.std.specs.Prelude.{◌≡◌, All, IfSome, find, not, true};
ghost use Rattle.std.specs.Option.{option_copied};
ghost use Rattle.cf_layout.specs.Asked.{is_integer_within, IsSmallSiding, natural, lists_class, is_unit, is_sided, is_asked, stages_listed};
ghost use Rattle.cf_layout.specs.Refusal.{siding_for};
ghost use Rattle.cf_layout.specs.Layout.{same_class};

use crate::classes::is_same;
use crate::{Listed, Parts, Siding};
use rv_inst::Class;

/// Whether the number is from `least` to `most`.
pub(crate) fn is_within(least: u32, most: u32, number: i64) -> bool
    ensures { result ≡ is_integer_within least most number }
{
    i64::from(least) <= number && number <= i64::from(most)
}

/// The number, which fits 32 bits.
pub(crate) fn natural(number: i64) -> u32
    requires { is_integer_within 0 4294967295 number ≡ true }
    ensures { result ≡ natural number }
{
    number as u32
}

/// The first of the stages that is not from 1 to `most`.
pub(crate) fn first_outside(most: u32, stages: &[i64]) -> Option<&i64>
    ensures { option_copied result ≡ find (λ stage. not (is_integer_within 1 most stage)) stages.now }
{
    stages.iter().find(|stage| !is_within(1, most, **stage))
}

/// Whether the list names the class.
pub(crate) fn names(classes: &[Class], class: Class) -> bool
    ensures { result ≡ lists_class classes.now class }
{
    classes.iter().any(|other| is_same(class, *other))
}

/// Whether the class is in a unit.
pub(crate) fn is_unit(units: &[(Class, Listed<i64>)], class: Class) -> bool
    ensures { result ≡ is_unit units.now class }
{
    units.iter().any(|unit| is_same(class, unit.0))
}

/// Whether the class is in a siding.
pub(crate) fn is_sided(sidings: &[Siding], class: Class) -> bool
    ensures { result ≡ is_sided sidings.now class }
{
    sidings
        .iter()
        .any(|siding| names(siding.classes.as_slice(), class))
}

/// Whether the class is in a unit or a siding.
#[tactic(auto, unfolding(crate::specs::Asked::is_asked))]
pub(crate) fn is_asked(parts: &Parts, class: Class) -> bool
    ensures { result ≡ is_asked parts.now class }
{
    is_unit(parts.units.as_slice(), class) || is_sided(parts.sidings.as_slice(), class)
}

fn unit_for(units: &[(Class, Listed<i64>)], class: Class) -> Option<&(Class, Listed<i64>)>
    ensures { option_copied result ≡ find (λ unit. same_class class unit.0) units.now }
{
    units.iter().find(|unit| is_same(class, unit.0))
}

/// The stages that are listed for the units of the class.
#[tactic(auto, unfolding(crate::specs::Asked::stages_listed))]
pub(crate) fn listed(units: &[(Class, Listed<i64>)], class: Class) -> &[i64]
    ensures { result.now ≡ stages_listed units.now class }
{
    match unit_for(units, class) {
        Some(unit) => unit.1.as_slice(),
        None => &[],
    }
}

/// The requested siding for the class.
#[tactic(auto, using(crate::proofs::Steps::found_small), unfolding(crate::specs::Refusal::siding_for))]
pub(crate) fn siding_for(sidings: &[Siding], class: Class) -> Option<&Siding>
    ensures first { option_copied result ≡ siding_for sidings.now class }
    ensures small { All IsSmallSiding sidings.now → IfSome result (λ siding. IsSmallSiding siding.now) }
{
    sidings
        .iter()
        .find(|siding| names(siding.classes.as_slice(), class))
}
