//! A siding of an accepted layout.

ghost use Rattle.std.specs.Prelude.{◌≡◌, ◌↔◌, IsTrue};

use crate::class_set::ClassSet;
use std::marker::Model;

/// A siding: the classes that go through it, the stage from which it launches, the one at which it recovers, and how
/// many cells it has.
#[derive(Clone, Copy)]
pub(crate) struct AcceptedSiding {
    pub(crate) classes: ClassSet,
    pub(crate) launch: u32,
    pub(crate) recover: u32,
    pub(crate) cells: u32,
}

impl Model for AcceptedSiding {
    ghost use Rattle.cf_layout.specs.Layout.{SidingPlan};

    ghost Value = { SidingPlan };

    ghost view = { λ s. record { classes = s.classes; launch = s.launch; recover = s.recover; cells = s.cells } };

    ghost inverse = { λ s. record { classes = s.classes; launch = s.launch; recover = s.recover; cells = s.cells } };
}

impl AcceptedSiding {
    /// Whether the two sidings have the same classes, the same stages and the same number of cells.
    pub(crate) fn same(&self, other: &AcceptedSiding) -> bool
        ensures { IsTrue result ↔ (self.now ≡ other.now) }
    {
        self.classes.same(other.classes)
            && self.launch == other.launch
            && self.recover == other.recover
            && self.cells == other.cells
    }
}
