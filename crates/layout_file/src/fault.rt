//! Why a file is not a layout.

use crate::Name;
use cf_layout::LayoutErr;
use std::alloc::{AllocError, AllocFailed};

/// Why a file is not a layout.
#[derive(Drop)]
pub enum FileErr {
    /// The file has more than `MOST_LAYOUT` bytes.
    TooLong,
    /// The file is not a TOML document.
    NotToml,
    /// A table has this key, which is not allowed there.
    UnknownKey(Name),
    /// This key of a table is missing.
    MissingKey(Name),
    /// The value at this key is of the wrong type, or is an array of more than 1,000 elements.
    WrongType(Name),
    /// No class has this name.
    UnknownClass(Name),
    /// The file is of this format, which is neither 1 nor 2.
    UnknownFormat(i64),
    /// The layout that the file describes is not accepted.
    Refused(LayoutErr),
    /// There was no memory to read the file.
    NoMemory,
}

impl From<AllocError> for FileErr {
    ghost use Rattle.std.specs.Prelude.{◌≡◌};
    ghost use Rattle.layout_file.specs.declared.fault.FileErr.TheVariants.{NoMemory};

    ghost from_gives = { λ _ e. e ≡ NoMemory };

    fn from(_e: AllocError) -> FileErr {
        FileErr::NoMemory
    }
}

impl<T: Drop> From<AllocFailed<T>> for FileErr {
    ghost use Rattle.std.specs.Prelude.{◌≡◌};
    ghost use Rattle.layout_file.specs.declared.fault.FileErr.TheVariants.{NoMemory};

    ghost from_gives = { λ _ e. e ≡ NoMemory };

    fn from(_e: AllocFailed<T>) -> FileErr {
        FileErr::NoMemory
    }
}
