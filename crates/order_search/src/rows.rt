//! Lists, stored one after another in memory.

ghost use Rattle.std.specs.Prelude.{◌≡◌, ◌<◌, ◌≤◌, [], ◌∷◌, ◌++◌, length, OnErr, OnOk};
ghost use Rattle.std.specs.List.{slice_range};
ghost use Rattle.order_search.specs.Rows.{numbered_row, piece_start as begins_at};

use std::alloc::{AllocError, Global};
use std::marker::Model;

/// Lists, stored one after another in memory. Contracts see the list of these lists.
#[derive(Drop)]
pub(crate) struct Rows<T: Copy + Drop> {
    values: Vec<T>,
    ends: Vec<usize>,
}

impl<T: Copy + Drop> Model for Rows<T> {
    ghost use Rattle.std.specs.Prelude.{List, length};
    ghost use Rattle.order_search.specs.Rows.{pieces_to, AreEnds};

    ghost Value = { List (List T) };

    ghost view = { λ rows. pieces_to 0 rows.ends.items rows.values.items };

    ghost invariant = { λ rows. AreEnds 0 rows.ends.items (length rows.values.items) };
}

/// Where the list with a number begins.
fn start_of(ends: &[usize], number: usize) -> usize
    requires { number ≤ length ends.now }
    ensures { result ≡ begins_at 0 ends.now number }
{
    if number == 0 { 0 } else { ends[number - 1] }
}

/// The values from one place to another.
fn cut<T: Copy>(values: &[T], start: usize, end: usize) -> &[T]
    requires order { start ≤ end }
    requires inside { end ≤ length values.now }
    ensures { result.now ≡ slice_range values.now start end }
{
    &values[start..end]
}

impl<T: Copy + Drop> Rows<T> {
    /// No lists.
    pub(crate) fn new(alloc: Global) -> Rows<T>
        ensures { result ≡ [] }
    {
        Rows {
            values: Vec::new(alloc),
            ends: Vec::new(alloc),
        }
    }

    /// How many lists there are.
    #[tactic(auto, using(crate::proofs::Pieces::counting))]
    pub(crate) fn len(&self) -> usize
        ensures { result ≡ length self.now }
    {
        self.ends.len()
    }

    /// The list with a number.
    #[tactic(auto, using(crate::proofs::Pieces::piece))]
    pub(crate) fn row(&self, number: usize) -> &[T]
        requires { number < length self.now }
        ensures { result.now ≡ numbered_row self.now number }
    {
        let start = start_of(&self.ends, number);
        cut(&self.values, start, self.ends[number])
    }

    /// Adds a list.
    #[tactic(auto, using(crate::proofs::Pieces::pushing))]
    pub(crate) fn push(&mut self, row: &[T]) -> Result<(), AllocError>
        ensures added { OnOk result (self.new ≡ self.old ++ row.now ∷ []) }
        ensures kept { OnErr result (self.new ≡ self.old) }
    {
        self.ends.reserve(1)?;
        self.values.extend_from_slice(row)?;
        self.ends.push_reserved(self.values.len());
        Ok(())
    }
}
