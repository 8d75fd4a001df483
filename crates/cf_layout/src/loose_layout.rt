//! A layout that meets every rule except, perhaps, the one on where control turns.

ghost use Rattle.std.specs.Prelude.{◌≡◌, ◌↔◌, IsTrue, ◌<◌, ◌≤◌, true, All, IfOk, IfSome, None, length};
ghost use Rattle.cf_layout.specs.Asked.{is_integer_within, IsSmallSiding, plan_of};
ghost use Rattle.cf_layout.specs.Layout.{stages_of, unit_at, siding_of, recovers_by, is_homed, launch_stage, recover_stage, cells_of, serves, siding_plan_at, has_mul, last_stage};
ghost use Rattle.cf_layout.specs.Accepted.{IsEquipped};

use crate::Parts;
use crate::accepted_siding::AcceptedSiding;
use crate::asked::natural;
use crate::class_set::ClassSet;
use crate::classes::place;
use crate::comparing::{same_sidings, same_units};
use crate::laying::{lay_sidings, lay_units, no_siding};
use crate::stage_set::StageSet;
use rv_inst::Class;
use std::alloc::{AllocError, Global};
use std::marker::Model;

/// A layout that meets every rule except, perhaps, the one on where control turns: a branch or a jump may turn it above
/// the stage from which loads and stores are launched.
#[derive(Clone, Copy)]
pub struct LooseLayout {
    stages: u32,
    lane: u32,
    cache: bool,
    units: [StageSet; 9],
    count: u32,
    sidings: [AcceptedSiding; 8],
}

impl Model for LooseLayout {
    ghost use Rattle.std.specs.Prelude.{take, length};
    ghost use Rattle.cf_layout.specs.Layout.{Plan};
    ghost use Rattle.cf_layout.specs.Accepted.{IsEquipped};
    ghost use Rattle.cf_layout.specs.Held.{AreHeld, places_for, places_kept, count_kept};

    ghost Value = { Plan };

    ghost view = { λ l. record { stages = l.stages; lane = l.lane; cache = l.cache; units = l.units; sidings = take l.count l.sidings } };

    ghost invariant = { λ l. IsEquipped (record { stages = l.stages; lane = l.lane; cache = l.cache; units = l.units; sidings = take l.count l.sidings }) × AreHeld l.count l.sidings };

    ghost inverse = { λ p. record { stages = p.stages; lane = p.lane; cache = p.cache; units = p.units; count = length p.sidings; sidings = places_for p.sidings } };

    ghost inverse_ok = { λ l h i. record { stages = l.stages; lane = l.lane; cache = l.cache; units = l.units; count = count_kept l.count l.sidings h.1 i; sidings = places_kept l.count l.sidings h.1 i } };
}

impl LooseLayout {
    /// How many stages the pipeline has: 2 to 32.
    #[inline(always)]
    pub fn stages(&self) -> u32
        ensures stages { result ≡ self.now.stages }
        ensures equipped { IsEquipped self.now }
    {
        self.stages
    }

    /// How many entries the request lane has: 2 to 64.
    #[inline(always)]
    pub fn lane(&self) -> u32
        ensures { result ≡ self.now.lane }
    {
        self.lane
    }

    /// Whether there is a register cache.
    #[inline(always)]
    pub fn cache(&self) -> bool
        ensures { result ≡ self.now.cache }
    {
        self.cache
    }

    /// The stages with a unit for the class.
    #[inline(always)]
    #[tactic(auto, using(crate::proofs::Reading::stages_within, crate::proofs::Reading::stages_without))]
    fn stages_of(&self, class: Class) -> StageSet
        ensures { result ≡ stages_of self.now class }
    {
        let place = place(class);
        if place < self.units.len() {
            self.units[place]
        } else {
            StageSet::empty()
        }
    }

    /// Whether the stage has a unit for the class.
    #[inline(always)]
    #[tactic(auto, unfolding(crate::specs::Layout::unit_at))]
    pub fn unit_at(&self, class: Class, stage: u32) -> bool
        ensures { result ≡ unit_at self.now class stage }
    {
        self.stages_of(class).has(stage)
    }

    /// The stages with a unit for the class, ascending.
    pub fn unit_stages(&self, alloc: Global, class: Class) -> Result<Vec<u32>, AllocError>
        ensures { IfOk result (λ list. list.items ≡ stages_of self.now class) }
    {
        self.stages_of(class).list(alloc)
    }

    /// How many sidings there are: at most 8.
    #[inline(always)]
    pub fn siding_count(&self) -> u32
        ensures { result ≡ length self.now.sidings }
    {
        self.count
    }

    /// The sidings.
    #[inline(always)]
    fn sidings(&self) -> &[AcceptedSiding]
        ensures { result.now ≡ self.now.sidings }
    {
        &self.sidings[..self.count as usize]
    }

    /// The siding with that number.
    #[inline(always)]
    fn siding(&self, siding: u32) -> &AcceptedSiding
        requires { siding < length self.now.sidings }
        ensures { result.now ≡ siding_plan_at self.now siding }
    {
        &self.sidings[siding as usize]
    }

    #[inline(always)]
    #[tactic(auto, unfolding(crate::specs::Layout::siding_of, crate::specs::Layout::serves))]
    fn siding_index(&self, class: Class) -> Option<usize>
        ensures siding { result ≡ siding_of self.now class }
        ensures within { IfSome result (λ k. k < length self.now.sidings) }
    {
        self.sidings()
            .iter()
            .position(|siding| siding.classes.has(class))
    }

    /// The number of the siding that the class goes through.
    #[inline(always)]
    pub fn siding_of(&self, class: Class) -> Option<u32>
        ensures siding { result ≡ siding_of self.now class }
        ensures within { IfSome result (λ k. k < length self.now.sidings) }
    {
        let _count = self.count;
        match self.siding_index(class) {
            Some(index) => Some(index as u32),
            None => None,
        }
    }

    /// Whether the class goes through the siding with that number.
    #[tactic(auto, unfolding(crate::specs::Layout::serves))]
    pub fn serves(&self, siding: u32, class: Class) -> bool
        requires { siding < length self.now.sidings }
        ensures { result ≡ serves (siding_plan_at self.now siding) class }
    {
        self.siding(siding).classes.has(class)
    }

    /// The classes that go through the siding with that number, in class order.
    pub fn siding_classes(&self, alloc: Global, siding: u32) -> Result<Vec<Class>, AllocError>
        requires { siding < length self.now.sidings }
        ensures { IfOk result (λ list. list.items ≡ (siding_plan_at self.now siding).classes) }
    {
        self.siding(siding).classes.list(alloc)
    }

    /// The stage from which the siding with that number launches.
    #[inline(always)]
    #[tactic(auto, unfolding(crate::specs::Layout::launch_stage))]
    pub fn launch_stage(&self, siding: u32) -> u32
        requires { siding < length self.now.sidings }
        ensures { result ≡ launch_stage self.now siding }
    {
        self.siding(siding).launch
    }

    /// The stage at which the siding with that number recovers.
    #[inline(always)]
    #[tactic(auto, unfolding(crate::specs::Layout::recover_stage))]
    pub fn recover_stage(&self, siding: u32) -> u32
        requires { siding < length self.now.sidings }
        ensures { result ≡ recover_stage self.now siding }
    {
        self.siding(siding).recover
    }

    /// How many cells the siding with that number has: 1 to 8.
    #[inline(always)]
    #[tactic(auto, unfolding(crate::specs::Layout::cells_of))]
    pub fn cells_of(&self, siding: u32) -> u32
        requires { siding < length self.now.sidings }
        ensures { result ≡ cells_of self.now siding }
    {
        self.siding(siding).cells
    }

    /// The last stage of a class, given the stage at which its siding recovers, or the pipeline's last if it has none.
    #[inline(always)]
    #[tactic(auto, unfolding(crate::specs::Layout::last_stage))]
    fn last_before(&self, class: Class, recovery: u32) -> u32
        requires { recovery ≡ recovers_by self.now (siding_of self.now class) }
        ensures { result ≡ last_stage self.now class }
    {
        match class {
            Class::Free => 1,
            Class::Serial => self.stages,
            _ => self.stages_of(class).last_or(recovery),
        }
    }

    /// The last stage at which an instruction of the class can still be computed: that of its last unit, or the one at
    /// which its siding recovers. It is the last of the pipeline for a class that has neither, and the first for
    /// `Free`, which needs no computing.
    #[inline(always)]
    pub fn last_stage(&self, class: Class) -> u32
        ensures { result ≡ last_stage self.now class }
    {
        self.last_before(class, self.recovers_by(class))
    }

    /// The same for a class without a siding; it saves the search for one.
    #[inline(always)]
    pub fn last_unit_stage(&self, class: Class) -> u32
        requires { siding_of self.now class ≡ None }
        ensures { result ≡ last_stage self.now class }
    {
        self.last_before(class, self.stages)
    }

    /// The recovery stage of the class's siding, or the last stage of the pipeline if it has none.
    #[inline(always)]
    fn recovers_by(&self, class: Class) -> u32
        ensures { result ≡ recovers_by self.now (siding_of self.now class) }
    {
        match self.siding_of(class) {
            Some(siding) => self.recover_stage(siding),
            None => self.stages,
        }
    }

    /// Whether the class has units or a siding.
    #[inline(always)]
    #[tactic(auto, using(crate::proofs::Reading::homed))]
    fn is_homed(&self, class: Class) -> bool
        ensures { result ≡ is_homed self.now class }
    {
        !self.stages_of(class).is_empty() || self.siding_of(class).is_some()
    }

    /// Whether the processor multiplies and divides.
    #[inline(always)]
    #[tactic(auto, unfolding(crate::specs::Layout::has_mul))]
    pub fn has_mul(&self) -> bool
        ensures { result ≡ has_mul self.now }
    {
        self.is_homed(Class::Mul) && self.is_homed(Class::Div)
    }

    /// Whether the two layouts have the same stages, lane, cache, units and sidings.
    pub fn same(&self, other: &LooseLayout) -> bool
        ensures { IsTrue result ↔ (self.now ≡ other.now) }
    {
        self.stages == other.stages
            && self.lane == other.lane
            && self.cache == other.cache
            && same_units(&self.units, &other.units)
            && same_sidings(self.sidings(), other.sidings())
    }
}

impl LooseLayout {
    /// The layout that the parts describe.
    #[tactic(auto, unfolding(crate::specs::Asked::plan_of))]
    pub(crate) fn lay(parts: &Parts) -> LooseLayout
        requires equipped { IsEquipped (plan_of parts.now) }
        requires stages { is_integer_within 2 32 parts.now.stages ≡ true }
        requires lane { is_integer_within 2 64 parts.now.lane ≡ true }
        requires few { length parts.now.sidings ≤ 8 }
        requires small { All IsSmallSiding parts.now.sidings }
        ensures { result ≡ plan_of parts.now }
    {
        let sidings = parts.sidings.as_slice();
        LooseLayout {
            stages: natural(parts.stages),
            lane: natural(parts.lane),
            cache: parts.cache,
            units: lay_units(parts.units.as_slice()),
            count: sidings.len() as u32,
            sidings: lay_sidings(sidings),
        }
    }
}

impl LooseLayout {
    ghost use Rattle.cf_layout.specs.Plain.{plain};

    /// The built-in layout.
    #[tactic(auto, using(crate::proofs::PlainLayout::plain_equipped, crate::proofs::PlainLayout::plain_held, crate::proofs::PlainLayout::plain_stages))]
    pub(crate) fn builtin() -> LooseLayout
        ensures { result ≡ plain }
    {
        let none = StageSet::empty();
        let memory = AcceptedSiding {
            classes: ClassSet::of(&[Class::Memory]),
            launch: 4,
            recover: 6,
            cells: 2,
        };
        let free = no_siding();
        LooseLayout {
            stages: 8,
            lane: 16,
            cache: false,
            units: [
                StageSet::of(&[2, 4, 6]),
                StageSet::of(&[2, 4]),
                StageSet::of(&[4]),
                StageSet::of(&[2, 4]),
                StageSet::of(&[3]),
                StageSet::of(&[3]),
                none,
                none,
                none,
            ],
            count: 1,
            sidings: [memory, free, free, free, free, free, free, free],
        }
    }
}
