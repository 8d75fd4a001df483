//! The kinds of tables and of values.

use crate::format::Format;

/// The kind of a table in a layout file, with the format of the file if its keys depend on it.
#[derive(Clone, Copy)]
pub(crate) enum TableKind {
    /// The whole document.
    Top(Format),
    /// The units.
    Units(Format),
    /// A siding.
    Siding,
}

/// The type that a value must have.
#[derive(Clone, Copy)]
pub(crate) enum Shape {
    Integer,
    Text,
    Truth,
    Table,
}
