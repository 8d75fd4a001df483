//! Moves that change one or two stages and nothing else: the key after such a move, and the node before it.

ghost use Rattle.std.specs.Prelude.{◌≡◌, ◌≤◌, IfOk, IfSome, OnOk, length, take, drop};
ghost use Rattle.std.specs.List.{Contains};
ghost use Rattle.order_graph.specs.KeyGraph.{IsOrderNode, moves_from, node_next};
ghost use Rattle.order_graph.specs.MoveSpans.{IsSpanOf, stages_of_move as span_in};
ghost use Rattle.order_keys.specs.Keys.{key_of_node};
ghost use Rattle.order_keys.specs.Situations.{IsWhole};
ghost use Rattle.order_keys.specs.Stages.{lefts_of};

use crate::copying::copy_into;
use crate::trial::{Trial, note_trial};
use cf_bind::{Cell, Move};
use order_keys::{Node, write_key, write_key_beside};
use std::alloc::{AllocError, Global};

/// Consecutive stages, counted from 0: from `low` up to, but not including, `high`.
#[derive(Clone, Copy)]
pub(crate) struct StageSpan {
    pub(crate) low: usize,
    pub(crate) high: usize,
}

/// The stages that a move may change, if it changes nothing else.
#[inline(always)]
fn span_of(m: Move) -> Option<StageSpan>
    ensures { result ≡ span_in m }
{
    match m {
        Move::Climb(i) => Some(StageSpan {
            low: (i as usize).saturating_sub(1),
            high: i as usize + 1,
        }),
        Move::Fall(i) => Some(StageSpan {
            low: (i as usize).saturating_sub(2),
            high: i as usize,
        }),
        Move::Meet(i) | Move::Execute(i) | Move::Send(i) => Some(StageSpan {
            low: (i as usize).saturating_sub(1),
            high: i as usize,
        }),
        _ => None,
    }
}

/// The stages that a move which leads on from a node may change, if it changes nothing else.
#[inline(always)]
#[tactic(auto, using(crate::proofs::Within::span_known))]
fn span_from(trial: &Trial, node: &Node, m: Move) -> Option<StageSpan>
    requires node { IsOrderNode trial.now node.now }
    requires leads { Contains (moves_from trial.now node.now) m }
    ensures { IfSome result (IsSpanOf trial.now node.now m) }
{
    note_trial(trial);
    span_of(m)
}

/// The key of the node to which a move leads, from the key of the node.
pub(crate) fn next_key(
    alloc: Global,
    trial: &Trial,
    node: &Node,
    key: &[u8],
    lefts: &[usize],
    m: Move,
    next: &Node,
) -> Result<Vec<u8>, AllocError>
    requires node { IsOrderNode trial.now node.now }
    requires key { key.now ≡ key_of_node node.now }
    requires lefts { lefts.now ≡ lefts_of key.now }
    requires leads { Contains (moves_from trial.now node.now) m }
    requires next { next.now ≡ node_next trial.now node.now m }
    ensures key { IfOk result (λ key. key.items ≡ key_of_node next.now) }
    ensures whole { IsWhole next.now.situation }
{
    match span_from(trial, node, m) {
        Some(span) => write_key_beside(alloc, node, key, lefts, next, span.low, span.high),
        None => write_key(alloc, next),
    }
}

/// Sets the stages of a span to those of a list; outside the span they are the same already.
fn put_stages(cells: &mut [Cell], from: &[Cell], span: StageSpan)
    requires order { span.low ≤ span.high }
    requires inside { span.high ≤ length from.now }
    requires as_many { length cells.old ≡ length from.now }
    requires lower { take span.low cells.old ≡ take span.low from.now }
    requires upper { drop span.high cells.old ≡ drop span.high from.now }
    ensures { cells.new ≡ from.now }
{
    cells[span.low..span.high].copy_from_slice(&from[span.low..span.high]);
}

/// Turns the node to which a move led into the node that it led from again.
pub(crate) fn put_back(
    alloc: Global,
    trial: &Trial,
    node: &Node,
    m: Move,
    next: &mut Node,
) -> Result<(), AllocError>
    requires node { IsOrderNode trial.now node.now }
    requires leads { Contains (moves_from trial.now node.now) m }
    requires next { next.old ≡ node_next trial.now node.now m }
    ensures { OnOk result (next.new ≡ node.now) }
{
    match span_from(trial, node, m) {
        Some(span) => {
            put_stages(&mut next.situation.cells, &node.situation.cells, span);
            Ok(())
        }
        None => copy_into(alloc, node, next),
    }
}
