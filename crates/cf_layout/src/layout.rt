//! An accepted layout.

ghost use Rattle.std.specs.Prelude.{◌≡◌, ◌↔◌, IsTrue, ◌<◌, ◌≤◌, true, All, IfOk, IfSome, None, length};
ghost use Rattle.cf_layout.specs.Asked.{is_integer_within, IsSmallSiding, plan_of};
ghost use Rattle.cf_layout.specs.Layout.{stages_of, unit_at, siding_of, launch_stage, recover_stage, cells_of, serves, siding_plan_at, has_mul, last_stage};
ghost use Rattle.cf_layout.specs.Accepted.{IsAccepted};

use crate::{LooseLayout, Parts};
use rv_inst::Class;
use std::alloc::{AllocError, Global};
use std::marker::Model;

/// An accepted layout.
#[derive(Clone, Copy)]
pub struct Layout {
    loose: LooseLayout,
}

impl Model for Layout {
    ghost use Rattle.cf_layout.specs.Layout.{Plan};
    ghost use Rattle.cf_layout.specs.Accepted.{IsAccepted};

    ghost Value = { Plan };

    ghost view = { λ l. l.loose };

    ghost invariant = { λ l. IsAccepted l.loose };

    ghost inverse = { λ p. record { loose = p } };
}

impl Layout {
    /// The same layout, as one that meets every rule except, perhaps, the one on where control turns.
    #[inline(always)]
    pub fn loose(&self) -> &LooseLayout
        ensures { result.now ≡ self.now }
    {
        &self.loose
    }

    /// How many stages the pipeline has: 2 to 32.
    #[inline(always)]
    pub fn stages(&self) -> u32
        ensures stages { result ≡ self.now.stages }
        ensures accepted { IsAccepted self.now }
    {
        self.loose.stages()
    }

    /// How many entries the request lane has: 2 to 64.
    #[inline(always)]
    pub fn lane(&self) -> u32
        ensures { result ≡ self.now.lane }
    {
        self.loose.lane()
    }

    /// Whether there is a register cache.
    #[inline(always)]
    pub fn cache(&self) -> bool
        ensures { result ≡ self.now.cache }
    {
        self.loose.cache()
    }

    /// Whether the stage has a unit for the class.
    #[inline(always)]
    pub fn unit_at(&self, class: Class, stage: u32) -> bool
        ensures { result ≡ unit_at self.now class stage }
    {
        self.loose.unit_at(class, stage)
    }

    /// The stages with a unit for the class, ascending.
    pub fn unit_stages(&self, alloc: Global, class: Class) -> Result<Vec<u32>, AllocError>
        ensures { IfOk result (λ list. list.items ≡ stages_of self.now class) }
    {
        self.loose.unit_stages(alloc, class)
    }

    /// How many sidings there are: at most 8.
    #[inline(always)]
    pub fn siding_count(&self) -> u32
        ensures { result ≡ length self.now.sidings }
    {
        self.loose.siding_count()
    }

    /// The number of the siding that the class goes through.
    #[inline(always)]
    pub fn siding_of(&self, class: Class) -> Option<u32>
        ensures siding { result ≡ siding_of self.now class }
        ensures within { IfSome result (λ k. k < length self.now.sidings) }
    {
        self.loose.siding_of(class)
    }

    /// Whether the class goes through the siding with that number.
    pub fn serves(&self, siding: u32, class: Class) -> bool
        requires { siding < length self.now.sidings }
        ensures { result ≡ serves (siding_plan_at self.now siding) class }
    {
        self.loose.serves(siding, class)
    }

    /// The classes that go through the siding with that number, in class order.
    pub fn siding_classes(&self, alloc: Global, siding: u32) -> Result<Vec<Class>, AllocError>
        requires { siding < length self.now.sidings }
        ensures { IfOk result (λ list. list.items ≡ (siding_plan_at self.now siding).classes) }
    {
        self.loose.siding_classes(alloc, siding)
    }

    /// The stage from which the siding with that number launches.
    #[inline(always)]
    pub fn launch_stage(&self, siding: u32) -> u32
        requires { siding < length self.now.sidings }
        ensures { result ≡ launch_stage self.now siding }
    {
        self.loose.launch_stage(siding)
    }

    /// The stage at which the siding with that number recovers.
    #[inline(always)]
    pub fn recover_stage(&self, siding: u32) -> u32
        requires { siding < length self.now.sidings }
        ensures { result ≡ recover_stage self.now siding }
    {
        self.loose.recover_stage(siding)
    }

    /// How many cells the siding with that number has: 1 to 8.
    #[inline(always)]
    pub fn cells_of(&self, siding: u32) -> u32
        requires { siding < length self.now.sidings }
        ensures { result ≡ cells_of self.now siding }
    {
        self.loose.cells_of(siding)
    }

    /// The last stage at which an instruction of the class can still be computed: that of its last unit, or the one at
    /// which its siding recovers. It is the last of the pipeline for a class that has neither, and the first for
    /// `Free`, which needs no computing.
    #[inline(always)]
    pub fn last_stage(&self, class: Class) -> u32
        ensures { result ≡ last_stage self.now class }
    {
        self.loose.last_stage(class)
    }

    /// The same for a class without a siding; it saves the search for one.
    #[inline(always)]
    pub fn last_unit_stage(&self, class: Class) -> u32
        requires { siding_of self.now class ≡ None }
        ensures { result ≡ last_stage self.now class }
    {
        self.loose.last_unit_stage(class)
    }

    /// Whether the processor multiplies and divides.
    #[inline(always)]
    pub fn has_mul(&self) -> bool
        ensures { result ≡ has_mul self.now }
    {
        self.loose.has_mul()
    }

    /// Whether the two layouts have the same stages, lane, cache, units and sidings.
    pub fn same(&self, other: &Layout) -> bool
        ensures { IsTrue result ↔ (self.now ≡ other.now) }
    {
        self.loose.same(&other.loose)
    }
}

impl Layout {
    /// The layout that the parts describe, which is accepted.
    pub(crate) fn lay(parts: &Parts) -> Layout
        requires accepted { IsAccepted (plan_of parts.now) }
        requires stages { is_integer_within 2 32 parts.now.stages ≡ true }
        requires lane { is_integer_within 2 64 parts.now.lane ≡ true }
        requires few { length parts.now.sidings ≤ 8 }
        requires small { All IsSmallSiding parts.now.sidings }
        ensures { result ≡ plan_of parts.now }
    {
        Layout {
            loose: LooseLayout::lay(parts),
        }
    }
}

impl Layout {
    ghost use Rattle.cf_layout.specs.Plain.{plain};

    /// The built-in layout.
    #[tactic(auto, using(crate::proofs::PlainLayout::plain_accepted))]
    pub(crate) fn builtin() -> Layout
        ensures { result ≡ plain }
    {
        Layout {
            loose: LooseLayout::builtin(),
        }
    }
}
