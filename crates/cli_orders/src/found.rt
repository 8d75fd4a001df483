//! Writing the findings of a search.

ghost use Rattle.std.specs.Prelude.{◌≡◌, ◌⊎◌, IfOk};
ghost use Rattle.cli_files.specs.Outside.{report_in};
ghost use Rattle.cli_files.specs.declared.status.Status.TheVariants.{Wrong as IsWrong};
ghost use Rattle.cli_orders.specs.OrderTexts.{DoEnd, IsWrongReport, script_text};
ghost use Rattle.cli_orders.specs.Orders.{CanBePut, ComesOfFound, PutsFirst, PutsFound, PutsNothing, PutsReached, ReportsByOutput};
ghost use Rattle.cli_reports.specs.FileCommands.{AnswersByOutput};
ghost use Rattle.cli_reports.specs.Reporting.{ReportsAlone};
ghost use Rattle.order_graph.specs.OrderAnswers.{IsSearched};
ghost use Rattle.order_graph.specs.declared.found.OrdersFound.TheVariants as founds;

use crate::counts::{counted, too_many};
use crate::edges::shown_edges;
use crate::script::script_of;
use crate::seen::seen_line;
use crate::wrong::put_report;
use cf_io::{Sink, put_all};
use cf_layout::LooseLayout;
use cli_arguments::OrdersOptions;
use cli_files::{Answer, Status, no_memory, write_fault};
use cli_reports::{Reported, put_answer};
use order_graph::{OrdersFound, OrdersReached, WrongOrder};
use std::alloc::{AllocError, Global};

/// Writes the report of a wrong list of moves.
fn report_wrong<R: Sink>(layout: &LooseLayout, wrong: &WrongOrder, report: &mut R) -> Reported
    requires { CanBePut (founds.Wrong wrong.now) }
    ensures status { result.status ≡ IsWrong }
    ensures reports { ReportsAlone (λ answer text. IsWrongReport layout.now wrong.now text)
        (report_in R.Sink report.old) (report_in R.Sink report.new) result }
{
    let seen = seen_line(&wrong.seen);
    Reported {
        status: Status::Wrong,
        put: put_report(layout, wrong, seen, report),
    }
}

/// Writes the script of a wrong list of moves to the output, and then the report.
fn put_wrong<K: Sink, R: Sink>(
    alloc: Global,
    layout: &LooseLayout,
    wrong: &WrongOrder,
    output: &mut K,
    report: &mut R,
) -> Reported
    requires { CanBePut (founds.Wrong wrong.now) }
    ensures { ReportsByOutput (λ before after answer text.
        PutsFirst (script_text wrong.now.moves.items) IsWrong (IsWrongReport layout.now wrong.now) before after answer text
        ⊎ PutsNothing before after answer text)
        K.Sink R.Sink (output.old, report.old) (output.new, report.new) result }
{
    let script = match script_of(alloc, wrong.moves.as_slice()) {
        Ok(script) => script,
        Err(_) => return put_answer(no_memory(), report),
    };
    match put_all(output, script.as_slice()) {
        Ok(()) => report_wrong(layout, wrong, report),
        Err(_) => put_answer(write_fault(), report),
    }
}

/// Writes the moves to the output if they are shown, and returns how much was reached.
fn answer_reached<K: Sink>(
    alloc: Global,
    edges: bool,
    reached: &mut OrdersReached,
    output: &mut K,
) -> Answer
    requires searched { IsSearched reached.old }
    requires end { DoEnd reached.old.reached.orders }
    ensures { AnswersByOutput (λ before after answer text. PutsReached edges reached.old before after answer text ⊎ PutsNothing before after answer text)
        K.Sink output.old output.new result }
{
    let text = match shown_edges(alloc, edges, reached) {
        Ok(text) => text,
        Err(_) => return no_memory(),
    };
    match put_all(output, text.as_slice()) {
        Ok(()) => counted(reached),
        Err(_) => write_fault(),
    }
}

/// Writes the findings of a search.
fn put_some<K: Sink, R: Sink>(
    alloc: Global,
    layout: &LooseLayout,
    options: OrdersOptions,
    found: OrdersFound,
    output: &mut K,
    report: &mut R,
) -> Reported
    requires { CanBePut found }
    ensures { ReportsByOutput (λ before after answer text. PutsFound options layout.now found before after answer text ⊎ PutsNothing before after answer text)
        K.Sink R.Sink (output.old, report.old) (output.new, report.new) result }
{
    match found {
        OrdersFound::Wrong(wrong) => put_wrong(alloc, layout, &wrong, output, report),
        OrdersFound::Reached(reached) => {
            let mut reached = reached;
            let answer = answer_reached(alloc, options.show_edges, &mut reached, output);
            put_answer(answer, report)
        }
        OrdersFound::TooMany => put_answer(too_many(options.states), report),
    }
}

/// The same, if there was memory for the search.
pub(crate) fn put_found<K: Sink, R: Sink>(
    alloc: Global,
    layout: &LooseLayout,
    options: OrdersOptions,
    found: Result<OrdersFound, AllocError>,
    output: &mut K,
    report: &mut R,
) -> Reported
    requires { IfOk found CanBePut }
    ensures { ReportsByOutput (ComesOfFound options layout.now found)
        K.Sink R.Sink (output.old, report.old) (output.new, report.new) result }
{
    match found {
        Ok(found) => put_some(alloc, layout, options, found, output, report),
        Err(_) => put_answer(no_memory(), report),
    }
}
