//! The source that has nothing to give.

ghost use Rattle.std.specs.Prelude.{Some, []};

use crate::failed::Failed;
use crate::source::Source;

/// A source that is always at its end and never fails.
#[derive(Clone, Copy)]
pub struct Empty;

impl Source for Empty {
    ghost left = { λ _. Some [] };

    ghost faults = { λ _. 0 };

    fn take(&mut self, _into: &mut [u8]) -> Result<usize, Failed> {
        Ok(0)
    }
}
