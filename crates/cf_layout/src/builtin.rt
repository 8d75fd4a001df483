//! The built-in layout.

ghost use Rattle.std.specs.Prelude.{◌≡◌};
ghost use Rattle.cf_layout.specs.Plain.{plain};

use crate::Layout;

/// The built-in layout: eight stages and no register cache, with memory through a two-cell siding.
pub fn plain() -> Layout
    ensures { result ≡ plain }
{
    Layout::builtin()
}
