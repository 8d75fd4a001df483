//! The answer of a call that failed.

/// A `take` or a `put` failed: the source's or the sink's count of faults rose in that call.
#[derive(Clone, Copy, Debug, PartialEq)]
pub struct Failed;
