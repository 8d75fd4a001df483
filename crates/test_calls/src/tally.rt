//! How many rows have the expected outcome.

/// How many rows agree with the outcomes of their calls, and how many differ.
#[derive(Drop)]
pub(crate) struct RowTally {
    agreeing: u64,
    differing: u64,
}

impl RowTally {
    /// A tally of no rows.
    pub(crate) fn new() -> RowTally {
        RowTally {
            agreeing: 0,
            differing: 0,
        }
    }

    /// Counts a row that agrees.
    pub(crate) fn agree(&mut self) {
        self.agreeing = self.agreeing.saturating_add(1);
    }

    /// Counts a row that differs, or a line that is not one of a row.
    pub(crate) fn differ(&mut self) {
        self.differing = self.differing.saturating_add(1);
    }

    /// How many agree.
    pub(crate) fn agreeing(&self) -> u64 {
        self.agreeing
    }

    /// How many differ.
    pub(crate) fn differing(&self) -> u64 {
        self.differing
    }
}
