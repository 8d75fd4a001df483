//! The moves of a search, each with the numbers of the states before and after it.
#![tactic(auto, unfolding(crate::specs::EdgeTexts::edge_line, crate::specs::EdgeTexts::edge_lines))]

ghost use Rattle.std.specs.Prelude.{◌≡◌, ◌++◌, IfOk, OnOk, codes, decimal, length};
ghost use Rattle.std.specs.List.{flat_map};
ghost use Rattle.cli_orders.specs.EdgeTexts.{HasEdgesOf, ShowsEdges, edge_line};
ghost use Rattle.order_graph.specs.OrderAnswers.{IsSearched, states_of};

use crate::script::push_move;
use cf_bind::Move;
use order_graph::OrdersReached;
use order_search::NumberedEdge;
use std::alloc::{AllocError, Global};
use texts::Page;

/// The numbers of the states before and after a move, each with a space after it.
fn numbers_page(from: u64, to: u64) -> Page
    ensures { result ≡ decimal from ++ codes " " ++ decimal to ++ codes " " }
{
    let mut page = Page::new();
    page.push_decimal(from);
    page.push(b" ");
    page.push_decimal(to);
    page.push(b" ");
    page
}

/// Appends the line of a move from the state of a number.
fn push_edge(text: &mut Vec<u8>, from: u64, edge: &NumberedEdge<Move>) -> Result<(), AllocError>
    ensures { OnOk result (text.new.items ≡ text.old.items ++ edge_line from edge.now) }
{
    let page = numbers_page(from, u64::from(edge.to));
    text.extend_from_slice(page.bytes())?;
    push_move(text, edge.label)
}

/// Appends the lines of all moves from that state.
fn push_row(text: &mut Vec<u8>, from: u64, row: &[NumberedEdge<Move>]) -> Result<(), AllocError>
    ensures { OnOk result (text.new.items ≡ text.old.items ++ flat_map (edge_line from) row.now) }
{
    for edge in row {
        push_edge(text, from, edge)?;
    }
    Ok(())
}

/// The lines of the moves from all states.
fn all_edges(alloc: Global, reached: &mut OrdersReached) -> Result<Vec<u8>, AllocError>
    requires { IsSearched reached.old }
    ensures text { IfOk result (λ text. HasEdgesOf reached.old.graph.trial (states_of reached.old) (length (states_of reached.old)) text.items) }
    ensures same { OnOk result (reached.new ≡ reached.old) }
{
    let mut text = Vec::new(alloc);
    for number in 0..reached.states() {
        let row = reached.moves_from(alloc, number)?;
        push_row(&mut text, number as u64, row.as_slice())?;
    }
    Ok(text)
}

/// The same, if edges are shown; otherwise no line.
pub(crate) fn shown_edges(
    alloc: Global,
    edges: bool,
    reached: &mut OrdersReached,
) -> Result<Vec<u8>, AllocError>
    requires { IsSearched reached.old }
    ensures text { IfOk result (λ text. ShowsEdges edges reached.old text.items) }
    ensures same { OnOk result (reached.new ≡ reached.old) }
{
    if edges {
        all_edges(alloc, reached)
    } else {
        Ok(Vec::new(alloc))
    }
}
