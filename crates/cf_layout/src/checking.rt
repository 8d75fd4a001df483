//! The tests of a layout, in their order.

ghost use Rattle.std.specs.Prelude.{◌≡◌, All, IfOk, IfErr, OnOk, true, Some, None, ◌≤◌, ◌||◌, [], ◌∷◌, find, not, nat_lt, length, is_some};
ghost use Rattle.std.specs.Option.{option_copied};
ghost use Rattle.cf_layout.specs.Asked.{plan_of, is_integer_within, IsSmallSiding, natural, is_unit, is_sided, is_asked, lists_class, stages_listed, ascending};
ghost use Rattle.cf_layout.specs.Acceptable.{AreComputed, AreEquipped, IsAcceptable};
ghost use Rattle.cf_layout.specs.Causes.{IsLayoutCause};
ghost use Rattle.cf_layout.specs.Refusal.{loose_refusal, first_refusal, test_outcome, limits_refusal, unit_refusal, units_refusal, first_repeated, stages_refusal, classes_refusal, filled_refusal, siding_refusal, sidings_refusal, missing_refusal, memory_launch_in, siding_for, launch_in, turns_in, turn_refusal, control_refusal, needed_classes};

use crate::asked::{
    first_outside, is_asked, is_sided, is_unit, is_within, listed, names, natural, siding_for,
};
use crate::classes::{CLASSES, is_same};
use crate::stage_set::StageSet;
use crate::{Layout, LayoutErr, Listed, LooseLayout, Parts, Siding};
use rv_inst::Class;

/// How many classes every processor computes: those at the start of class order, all but multiplication and division.
const NEEDED: usize = 7;

/// Tests how many stages, entries of the lane and sidings there are.
#[tactic(auto, unfolding(crate::specs::Refusal::limits_refusal))]
fn check_limits(parts: &Parts) -> Result<(), LayoutErr>
    ensures answer { result ≡ test_outcome (limits_refusal parts.now) }
    ensures stages { OnOk result (is_integer_within 2 32 parts.now.stages ≡ true) }
    ensures lane { OnOk result (is_integer_within 2 64 parts.now.lane ≡ true) }
    ensures few { OnOk result (length parts.now.sidings ≤ 8) }
{
    if !is_within(2, 32, parts.stages) {
        return Err(LayoutErr::StagesOutOfRange(parts.stages));
    }
    if !is_within(2, 64, parts.lane) {
        return Err(LayoutErr::LaneOutOfRange(parts.lane));
    }
    let count = parts.sidings.as_slice().len();
    if count > 8 {
        let told = u32::try_from(count).unwrap_or(u32::MAX);
        return Err(LayoutErr::TooManySidings(told));
    }
    Ok(())
}

/// Tests a unit, given the units before it.
#[tactic(auto, unfolding(crate::specs::Refusal::unit_refusal))]
fn check_unit(
    most: u32,
    before: &[(Class, Listed<i64>)],
    unit: &(Class, Listed<i64>),
) -> Result<(), LayoutErr>
    ensures { result ≡ test_outcome (unit_refusal most before.now unit.now) }
{
    let class = unit.0;
    let stages = unit.1.as_slice();
    if is_same(class, Class::Memory) {
        return Err(LayoutErr::MemoryNotSiding);
    }
    if stages.is_empty() {
        return Err(LayoutErr::EmptyUnit(class));
    }
    if let Some(stage) = first_outside(most, stages) {
        return Err(LayoutErr::StageOutOfRange(class, *stage));
    }
    if is_unit(before, class) {
        return Err(LayoutErr::ClassTwice(class));
    }
    Ok(())
}

/// Tests each unit in order.
#[tactic(auto, using(crate::proofs::Steps::units_step))]
fn check_units(most: u32, units: &[(Class, Listed<i64>)]) -> Result<(), LayoutErr>
    ensures { result ≡ test_outcome (units_refusal most [] units.now) }
{
    for (index, unit) in units.iter().enumerate() {
        check_unit(most, &units[..index], unit)?;
    }
    Ok(())
}

/// Whether the class is in a unit, in one of the sidings or among the earlier classes.
fn stands_before(
    units: &[(Class, Listed<i64>)],
    before: &[Siding],
    earlier: &[Class],
    class: Class,
) -> bool
    ensures { result ≡ ((is_unit units.now class || is_sided before.now class) || lists_class earlier.now class) }
{
    is_unit(units, class) || is_sided(before, class) || names(earlier, class)
}

/// The first of the classes that is listed in a unit, in one of the sidings or earlier among them.
#[tactic(auto, using(crate::proofs::Steps::repeated_step))]
fn first_repeated(
    units: &[(Class, Listed<i64>)],
    before: &[Siding],
    classes: &[Class],
) -> Option<Class>
    ensures { result ≡ first_repeated (λ c. is_unit units.now c || is_sided before.now c) [] classes.now }
{
    for (index, class) in classes.iter().enumerate() {
        if stands_before(units, before, &classes[..index], *class) {
            return Some(*class);
        }
    }
    None
}

/// Tests the cells and the stages of a siding whose first class this is.
#[tactic(auto, unfolding(crate::specs::Refusal::stages_refusal))]
fn check_siding_stages(most: u32, siding: &Siding, first: Class) -> Result<(), LayoutErr>
    ensures { result ≡ test_outcome (stages_refusal most siding.now first) }
{
    if !is_within(1, 8, siding.cells) {
        return Err(LayoutErr::CellsOutOfRange(siding.cells));
    }
    if !is_within(1, most, siding.launch) {
        return Err(LayoutErr::StageOutOfRange(first, siding.launch));
    }
    if !is_within(1, most, siding.recover) {
        return Err(LayoutErr::StageOutOfRange(first, siding.recover));
    }
    if siding.launch >= siding.recover {
        return Err(LayoutErr::SidingOrder(siding.launch, siding.recover));
    }
    Ok(())
}

/// Tests the classes of a siding, given the units and the sidings before it.
#[tactic(auto, unfolding(crate::specs::Refusal::classes_refusal))]
fn check_siding_classes(
    units: &[(Class, Listed<i64>)],
    before: &[Siding],
    classes: &[Class],
) -> Result<(), LayoutErr>
    ensures { result ≡ test_outcome (classes_refusal (λ c. is_unit units.now c || is_sided before.now c) classes.now) }
{
    if let Some(class) = first_repeated(units, before, classes) {
        return Err(LayoutErr::ClassTwice(class));
    }
    if names(classes, Class::Memory) && classes.len() > 1 {
        return Err(LayoutErr::MemorySharesSiding);
    }
    Ok(())
}

/// Tests a siding, given the units and the sidings before it.
#[tactic(auto, unfolding(crate::specs::Refusal::siding_refusal))]
fn check_siding(
    most: u32,
    units: &[(Class, Listed<i64>)],
    before: &[Siding],
    siding: &Siding,
) -> Result<(), LayoutErr>
    requires { length before.now ≤ 8 }
    ensures { result ≡ test_outcome (siding_refusal most units.now before.now siding.now) }
{
    let classes = siding.classes.as_slice();
    match classes {
        [] => Err(LayoutErr::EmptySiding(before.len() as u32)),
        [first, ..] => {
            check_siding_stages(most, siding, *first)?;
            check_siding_classes(units, before, classes)
        }
    }
}

/// Tests each siding in order.
#[tactic(auto, using(crate::proofs::Steps::sidings_step))]
fn check_each_siding(
    most: u32,
    units: &[(Class, Listed<i64>)],
    sidings: &[Siding],
) -> Result<(), LayoutErr>
    requires { length sidings.now ≤ 8 }
    ensures { result ≡ test_outcome (sidings_refusal most units.now [] sidings.now) }
{
    for (index, siding) in sidings.iter().enumerate() {
        check_siding(most, units, &sidings[..index], siding)?;
    }
    Ok(())
}

/// Tests each siding in order, in a pipeline that is not too long.
fn check_sidings(
    most: u32,
    units: &[(Class, Listed<i64>)],
    sidings: &[Siding],
) -> Result<(), LayoutErr>
    requires eight { length sidings.now ≤ 8 }
    requires tall { most ≤ 32 }
    ensures answer { result ≡ test_outcome (sidings_refusal most units.now [] sidings.now) }
    ensures small { OnOk result (All IsSmallSiding sidings.now) }
{
    check_each_siding(most, units, sidings)
}

/// The first class that every processor computes and that is missing.
fn first_missing(parts: &Parts) -> Option<&Class>
    ensures { option_copied result ≡ find (λ c. not (is_asked parts.now c)) needed_classes }
{
    CLASSES[..NEEDED]
        .iter()
        .find(|class| !is_asked(parts, **class))
}

/// Tests that no class that every processor computes is missing, and that of multiplication and division both are
/// present or neither.
#[tactic(auto, unfolding(crate::specs::Refusal::missing_refusal))]
fn check_missing(parts: &Parts) -> Result<(), LayoutErr>
    ensures { result ≡ test_outcome (missing_refusal parts.now) }
{
    if let Some(class) = first_missing(parts) {
        return Err(LayoutErr::MissingUnit(*class));
    }
    let multiplies = is_asked(parts, Class::Mul);
    let divides = is_asked(parts, Class::Div);
    if divides && !multiplies {
        return Err(LayoutErr::MissingUnit(Class::Mul));
    }
    if multiplies && !divides {
        return Err(LayoutErr::MissingUnit(Class::Div));
    }
    Ok(())
}

/// The stage from which the siding launches.
fn launch_of(siding: &Siding) -> u32
    requires { IsSmallSiding siding.now }
    ensures { result ≡ natural siding.now.launch }
{
    natural(siding.launch)
}

/// The stage at which the siding recovers.
fn recovery_of(siding: &Siding) -> u32
    requires { IsSmallSiding siding.now }
    ensures { result ≡ natural siding.now.recover }
{
    natural(siding.recover)
}

/// The stage from which loads and stores are launched.
#[tactic(auto, unfolding(crate::specs::Refusal::memory_launch_in))]
fn memory_launch(sidings: &[Siding]) -> u32
    requires { All IsSmallSiding sidings.now }
    ensures { result ≡ memory_launch_in sidings.now }
{
    match siding_for(sidings, Class::Memory) {
        Some(siding) => launch_of(siding),
        None => 0,
    }
}

/// The lowest stage above the given one where the class can turn control.
fn turn_above(
    units: &[(Class, Listed<i64>)],
    sidings: &[Siding],
    class: Class,
    launch: u32,
) -> Option<u32>
    requires { All IsSmallSiding sidings.now }
    ensures { result ≡ find (nat_lt launch) (turns_in (ascending (stages_listed units.now class)) (siding_for sidings.now class)) }
{
    match siding_for(sidings, class) {
        Some(siding) => {
            let stage = recovery_of(siding);
            (stage > launch).then_some(stage)
        }
        None => StageSet::of(listed(units, class)).first_above(launch),
    }
}

/// Tests that the class turns control at no stage above the one from which loads and stores are launched.
#[tactic(auto, unfolding(crate::specs::Refusal::turn_refusal))]
fn check_turns(parts: &Parts, class: Class) -> Result<(), LayoutErr>
    requires { All IsSmallSiding parts.now.sidings }
    ensures { result ≡ test_outcome (turn_refusal parts.now class) }
{
    let sidings = parts.sidings.as_slice();
    let launch = memory_launch(sidings);
    match turn_above(parts.units.as_slice(), sidings, class, launch) {
        Some(stage) => Err(LayoutErr::ControlAboveMemory(class, stage, launch)),
        None => Ok(()),
    }
}

/// Tests where branches and jumps turn control.
#[tactic(auto, unfolding(crate::specs::Refusal::control_refusal))]
fn check_control(parts: &Parts) -> Result<(), LayoutErr>
    requires { All IsSmallSiding parts.now.sidings }
    ensures { result ≡ test_outcome (control_refusal parts.now) }
{
    check_turns(parts, Class::Branch)?;
    check_turns(parts, Class::Jump)
}

/// How many stages the pipeline has.
#[tactic(auto, using(crate::proofs::Passing::within_word, crate::proofs::Passing::within_most))]
fn count_stages(parts: &Parts) -> u32
    requires { is_integer_within 2 32 parts.now.stages ≡ true }
    ensures number { result ≡ natural parts.now.stages }
    ensures few { result ≤ 32 }
{
    natural(parts.stages)
}

/// Makes all tests but the last, in their order.
#[tactic(auto, unfolding(crate::specs::Refusal::loose_refusal))]
fn check_equipment(parts: &Parts) -> Result<(), LayoutErr>
    ensures answer { result ≡ test_outcome (loose_refusal parts.now) }
    ensures small { OnOk result (All IsSmallSiding parts.now.sidings) }
{
    let units = parts.units.as_slice();
    check_limits(parts)?;
    let most = count_stages(parts);
    check_units(most, units)?;
    check_sidings(most, units, parts.sidings.as_slice())?;
    check_missing(parts)
}

/// Makes all tests, in their order.
#[tactic(auto, unfolding(crate::specs::Refusal::first_refusal))]
fn check_all(parts: &Parts) -> Result<(), LayoutErr>
    ensures { result ≡ test_outcome (first_refusal parts.now) }
{
    check_equipment(parts)?;
    check_control(parts)
}

/// The layout that the parts describe, if they pass all tests but perhaps the last, and otherwise the first test that
/// they fail.
fn lay_loosely(parts: &Parts) -> Result<LooseLayout, LayoutErr>
    requires { AreComputed parts.now }
    ensures ok { IfOk result (λ layout. layout ≡ plan_of parts.now) }
    ensures not_refused { IfOk result (λ layout. loose_refusal parts.now ≡ None) }
    ensures refused { IfErr result (λ error. loose_refusal parts.now ≡ Some error) }
{
    match check_equipment(parts) {
        Ok(()) => Ok(LooseLayout::lay(parts)),
        Err(error) => Err(error),
    }
}

/// The layout that the parts describe, if they pass the tests, and otherwise the first test that they fail.
fn lay_out(parts: &Parts) -> Result<Layout, LayoutErr>
    requires { AreComputed parts.now }
    ensures ok { IfOk result (λ layout. layout ≡ plan_of parts.now) }
    ensures not_refused { IfOk result (λ layout. first_refusal parts.now ≡ None) }
    ensures refused { IfErr result (λ error. first_refusal parts.now ≡ Some error) }
{
    match check_all(parts) {
        Ok(()) => Ok(Layout::lay(parts)),
        Err(error) => Err(error),
    }
}

/// The layout that the parts describe, if it meets every rule except, perhaps, the one on where control turns, and
/// otherwise the first test that the parts fail.
///
/// It refuses as `check` does, but never because of where control turns: that is the last of the tests. Each entry must
/// name a class that units or sidings compute.
pub fn check_loosely(parts: &Parts) -> Result<LooseLayout, LayoutErr>
    requires { AreComputed parts.now }
    ensures ok { IfOk result (λ layout. layout ≡ plan_of parts.now) }
    ensures equipped { IfOk result (λ layout. AreEquipped parts.now) }
    ensures not_refused { IfOk result (λ layout. loose_refusal parts.now ≡ None) }
    ensures refused { IfErr result (λ error. loose_refusal parts.now ≡ Some error) }
    ensures unequipped { IfErr result (λ error. ¬ AreEquipped parts.now) }
    ensures cause { IfErr result (λ error. IsLayoutCause parts.now error) }
{
    lay_loosely(parts)
}

/// The layout that the parts describe, if it is accepted, and otherwise the first test that they fail.
///
/// The tests are, in this order: the number of stages, of entries in the lane and of sidings; each unit; each siding;
/// that no class is missing; and that control turns at or below the stage from which loads and stores are launched.
/// Each entry must name a class that units or sidings compute.
pub fn check(parts: &Parts) -> Result<Layout, LayoutErr>
    requires { AreComputed parts.now }
    ensures ok { IfOk result (λ layout. layout ≡ plan_of parts.now) }
    ensures acceptable { IfOk result (λ layout. IsAcceptable parts.now) }
    ensures not_refused { IfOk result (λ layout. first_refusal parts.now ≡ None) }
    ensures refused { IfErr result (λ error. first_refusal parts.now ≡ Some error) }
    ensures unacceptable { IfErr result (λ error. ¬ IsAcceptable parts.now) }
    ensures cause { IfErr result (λ error. IsLayoutCause parts.now error) }
{
    lay_out(parts)
}
