//! A register and its value, as instructions and results hold them.

/// A register's name with its value, once that is known ("Counterflow Pipeline Processor Architecture", 1994: a
/// binding).
#[derive(Clone, Copy, PartialEq, Eq)]
pub struct Binding {
    /// The register, from 1 to 31.
    pub reg: u8,

    /// Its value, or `None` while it is not known.
    pub value: Option<u32>,
}
