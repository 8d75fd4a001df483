//! The command `orders`.

ghost use Rattle.std.specs.Prelude.{◌≡◌, ◌≢◌, ◌≤◌, None, false, true};
ghost use Rattle.run_options.specs.Limits.{most_issues};
ghost use Rattle.cf_layout.specs.Accepted.{IsEquipped};
ghost use Rattle.cli_arguments.specs.Views.{layout_of};
ghost use Rattle.cli_orders.specs.Orders.{AnswersOrders, ComesOfOrders, is_loose as is_loosely, orders_asked};
ghost use Rattle.cli_reports.specs.OutsideChanges.{run_change, outside_change};
ghost use Rattle.cli_reports.specs.Reporting.{ReportsCommand, ReportsRun};

use crate::found::put_found;
use cf_io::{Files, Sink, Source};
use cf_layout::{Layout, LooseLayout};
use cli_arguments::{LayoutArgument, OrdersOptions};
use cli_files::{LoadedImages, LooseImages, ProgramImages, load_images, load_images_loosely};
use cli_reports::{Reported, RunStreams, put_answer};
use order_graph::{search_loosely, search_orders};
use order_rules::Rule;
use std::alloc::Global;

/// Whether the rule on where control turns is taken away.
fn is_loose(away: Option<Rule>) -> bool
    ensures { result ≡ is_loosely away }
{
    matches!(away, Some(Rule::ControlAboveMemory))
}

/// A fact for the prover: a layout has passed the tests of its parts, so each state that a search reaches can be
/// written.
fn is_equipped(layout: &LooseLayout)
    ensures { IsEquipped layout.now }
{
    let _ = layout.stages();
}

/// Searches all orders of a program under a layout, and writes the findings.
fn search_images<S: Source, K: Sink, R: Sink>(
    alloc: Global,
    layout: &Layout,
    images: ProgramImages,
    options: OrdersOptions,
    streams: RunStreams<'_, S, K, R>,
) -> Reported
    requires image { images.machine.mem ≡ images.image }
    requires memory { images.mem ≡ images.image }
    requires count { images.machine.retired ≡ 0 }
    requires issues { options.issues ≤ most_issues }
    requires states { 1 ≤ options.states }
    ensures { ReportsRun (ComesOfOrders options layout.now images.machine)
        (run_change S.Source K.Sink R.Sink streams.entry streams.exit) result }
{
    let loose = layout.loose();
    is_equipped(loose);
    let found = search_orders(
        alloc,
        layout,
        images.image,
        images.mem,
        images.machine,
        options.without,
        options.issues as u8,
        options.states,
    );
    let RunStreams {
        input: _,
        output,
        report,
    } = streams;
    put_found(alloc, loose, options, found, output, report)
}

/// The same under a layout that may break the rule on where control turns, which is the rule taken away.
fn search_images_loosely<S: Source, K: Sink, R: Sink>(
    alloc: Global,
    layout: &LooseLayout,
    images: ProgramImages,
    options: OrdersOptions,
    streams: RunStreams<'_, S, K, R>,
) -> Reported
    requires image { images.machine.mem ≡ images.image }
    requires memory { images.mem ≡ images.image }
    requires count { images.machine.retired ≡ 0 }
    requires issues { options.issues ≤ most_issues }
    requires states { 1 ≤ options.states }
    requires rule { options.without ≢ None }
    ensures { ReportsRun (ComesOfOrders options layout.now images.machine)
        (run_change S.Source K.Sink R.Sink streams.entry streams.exit) result }
{
    is_equipped(layout);
    let found = search_loosely(
        alloc,
        layout,
        images.image,
        images.mem,
        images.machine,
        options.without,
        options.issues as u8,
        options.states,
    );
    let RunStreams {
        input: _,
        output,
        report,
    } = streams;
    put_found(alloc, layout, options, found, output, report)
}

/// Reads the layout and the program, and searches.
fn search_strictly<F: Files, S: Source, K: Sink, R: Sink>(
    alloc: Global,
    layout: LayoutArgument<'_>,
    program: &str,
    options: OrdersOptions,
    files: &mut F,
    streams: RunStreams<'_, S, K, R>,
) -> Reported
    requires issues { options.issues ≤ most_issues }
    requires states { 1 ≤ options.states }
    requires rule { is_loosely options.without ≡ false }
    ensures { ReportsCommand (AnswersOrders (orders_asked (layout_of layout.entry) program.now options))
        (outside_change F.Files S.Source K.Sink R.Sink files.old files.new streams.entry streams.exit) result }
{
    match load_images(alloc, layout, program, files) {
        Ok(LoadedImages { layout, images }) => search_images(
            alloc, &layout, images, options, streams,
        ),
        Err(answer) => put_answer(answer, streams.report),
    }
}

/// The same, if the rule on where control turns is taken away.
fn search_without_control<F: Files, S: Source, K: Sink, R: Sink>(
    alloc: Global,
    layout: LayoutArgument<'_>,
    program: &str,
    options: OrdersOptions,
    files: &mut F,
    streams: RunStreams<'_, S, K, R>,
) -> Reported
    requires issues { options.issues ≤ most_issues }
    requires states { 1 ≤ options.states }
    requires rule { is_loosely options.without ≡ true }
    ensures { ReportsCommand (AnswersOrders (orders_asked (layout_of layout.entry) program.now options))
        (outside_change F.Files S.Source K.Sink R.Sink files.old files.new streams.entry streams.exit) result }
{
    match load_images_loosely(alloc, layout, program, files) {
        Ok(LooseImages { layout, images }) => search_images_loosely(
            alloc, &layout, images, options, streams,
        ),
        Err(answer) => put_answer(answer, streams.report),
    }
}

/// Carries out `orders`: reads the layout and the program, in this order, and tries all lists of moves with at most as
/// many Issue moves as the options say, breadth first, in the table without the rule that they take away, if any. The
/// first wrong list is written to the output as a script; then the report says after how many moves and in which way it
/// is wrong, and ends as that of a run of the script. If no list is wrong, the report has the numbers of states, of
/// moves between them, of states without a move and of lists that lead to these, and the output has each move if edges
/// are shown. More states than the options allow end the search. The program's input is empty. If the rule on where
/// control turns is taken away, a layout that breaks only that rule is accepted.
pub fn search_program<F: Files, S: Source, K: Sink, R: Sink>(
    alloc: Global,
    layout: LayoutArgument<'_>,
    program: &str,
    options: OrdersOptions,
    files: &mut F,
    streams: RunStreams<'_, S, K, R>,
) -> Reported
    requires issues { options.issues ≤ most_issues }
    requires states { 1 ≤ options.states }
    ensures { ReportsCommand (AnswersOrders (orders_asked (layout_of layout.entry) program.now options))
        (outside_change F.Files S.Source K.Sink R.Sink files.old files.new streams.entry streams.exit) result }
{
    if is_loose(options.without) {
        search_without_control(alloc, layout, program, options, files, streams)
    } else {
        search_strictly(alloc, layout, program, options, files, streams)
    }
}
