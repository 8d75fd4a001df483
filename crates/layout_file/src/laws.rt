//! The law of layout files, as the contract of a function.

ghost use Rattle.std.specs.Prelude.{◌≡◌, IfOk, IfErr};
ghost use Rattle.layout_file.specs.declared.fault.FileErr.TheVariants.{NoMemory as OutOfMemory};

use crate::{FileErr, read_layout, write_layout};
use cf_layout::Layout;
use std::alloc::Global;

/// Writes a layout and reads the text back: the result is the same layout, unless memory runs out.
pub fn read_back(alloc: Global, layout: &Layout) -> Result<Layout, FileErr>
    ensures same { IfOk result (λ back. back ≡ layout.now) }
    ensures memory { IfErr result (λ error. error ≡ OutOfMemory) }
{
    let file = write_layout(alloc, layout)?;
    read_layout(alloc, &file)
}
