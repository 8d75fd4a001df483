//! The command `check`.

ghost use Rattle.cli_arguments.specs.Views.{layout_of};
ghost use Rattle.cli_check.specs.Check.{AnswersCheck, WritesText};
ghost use Rattle.cli_reports.specs.FileCommands.{AnswersByFile, AnswersByOutput};

use cf_io::{Files, Sink, put_all};
use cf_layout::Layout;
use cli_arguments::LayoutArgument;
use cli_files::{Answer, done, layout_at, no_memory, write_fault};
use layout_file::write_layout;
use std::alloc::Global;

/// Writes the layout in its canonical form.
fn write_text<K: Sink>(alloc: Global, layout: &Layout, output: &mut K) -> Answer
    ensures { AnswersByOutput (WritesText layout.now) K.Sink output.old output.new result }
{
    let text = match write_layout(alloc, layout) {
        Ok(text) => text,
        Err(_) => return no_memory(),
    };
    match put_all(output, text.as_slice()) {
        Ok(()) => done(),
        Err(_) => write_fault(),
    }
}

/// Carries out `check`: reads the layout that the argument names, and writes it to the output in its canonical form.
pub fn check_layout<F: Files, K: Sink>(
    alloc: Global,
    argument: LayoutArgument<'_>,
    files: &mut F,
    output: &mut K,
) -> Answer
    ensures { AnswersByFile (AnswersCheck (layout_of argument.entry)) F.Files K.Sink (files.old, output.old) (files.new, output.new) result }
{
    match layout_at(alloc, argument, files) {
        Ok(layout) => write_text(alloc, &layout, output),
        Err(answer) => answer,
    }
}
