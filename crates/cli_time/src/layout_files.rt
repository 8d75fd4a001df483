//! The layouts that some arguments name.

ghost use Rattle.std.specs.Prelude.{◌≡◌, ◌<◌, Some, length, map, slice_get, string_bytes, vec_items};
ghost use Rattle.cli_arguments.specs.Views.{layout_of};
ghost use Rattle.cli_arguments.specs.Arguments.{layout_in};
ghost use Rattle.cli_files.specs.ReadsFiles.{ReadsFiles};
ghost use Rattle.cli_time.specs.LayoutFiles.{AreLayoutsAt, LacksLayouts};

use cf_io::Files;
use cf_layout::Layout;
use cli_arguments::LayoutArgument;
use cli_files::{Answer, layout_at, no_memory};
use std::alloc::Global;

/// The layout that the argument at a place names.
pub(crate) fn argument_at(arguments: &[String], place: usize) -> LayoutArgument<'_>
    requires { place < length arguments.now }
    ensures { slice_get (map layout_in (map string_bytes arguments.entry.now)) place ≡ Some (layout_of result) }
{
    LayoutArgument::from_argument(arguments[place].as_str())
}

/// The layouts that arguments name, read in order; or the answer of the first that is missing.
pub(crate) fn layouts_at<F: Files>(
    alloc: Global,
    arguments: &[String],
    files: &mut F,
) -> Result<Vec<Layout>, Answer>
    ensures { ReadsFiles (λ before after layouts. AreLayoutsAt (map layout_in (map string_bytes arguments.now)) before after (vec_items layouts))
        (LacksLayouts (map layout_in (map string_bytes arguments.now))) F.Files files.old files.new result }
{
    let mut layouts = Vec::new(alloc);
    for place in 0..arguments.len() {
        let layout = match layout_at(alloc, argument_at(arguments, place), files) {
            Ok(layout) => layout,
            Err(answer) => return Err(answer),
        };
        if layouts.push(layout).is_err() {
            return Err(no_memory());
        }
    }
    Ok(layouts)
}
