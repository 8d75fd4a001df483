//! The formats of a layout file.

/// A format of layout files, as the value of the key `format` gives it.
#[derive(Clone, Copy)]
pub(crate) enum Format {
    /// Format 1: the first seven classes, and no cache.
    First,
    /// Format 2: the same with the key `cache`, and the classes `mul` and `div`.
    Second,
}
