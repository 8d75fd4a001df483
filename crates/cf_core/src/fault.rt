//! Which side of the outside failed a call of the environment.

/// The side of the outside that failed a call of the environment.
#[derive(Clone, Copy, PartialEq, Eq)]
pub enum Fault {
    /// The input.
    Read,

    /// The output.
    Write,
}
