//! The moves that lead on from a node, made and judged.

ghost use Rattle.std.specs.Option.{option_to_list};
ghost use Rattle.std.specs.Prelude.{◌≡◌, ◌≤◌, map, not, take, IfNone, IfOk, OnOk};
ghost use Rattle.std.specs.List.{All, Contains};
ghost use Rattle.cf_semantics.specs.claims.Weight.{is_issue as issues};
ghost use Rattle.cf_semantics.specs.state.Options.{is_some};
ghost use Rattle.mem_changes.specs.Applied.{memory_after};
ghost use Rattle.mem_changes.specs.Differing.{AreChangesOf};
ghost use Rattle.order_claims.specs.MoveLists.{issued_with};
ghost use Rattle.order_graph.specs.Kinds.{kind_by, wrong_kind_told};
ghost use Rattle.order_graph.specs.KeyGraph.{IsOrderKey, IsOrderNode, IsRightNode, IsWrongAlong, IsWrongEdge, IsWrongFrom, IsWrongNode, IsWrongThere, edge_of, leads_from, memory_loaded, moves_from, node_next, state_of_node};
ghost use Rattle.order_keys.specs.Keys.{key_of_node};
ghost use Rattle.order_keys.specs.Stages.{lefts_of};
ghost use Rattle.order_keys.specs.Situations.{without_memory};
ghost use Rattle.order_model.specs.RuleBars.{bar_without};
ghost use Rattle.order_search.specs.Paths.{HasEdgeFault};
ghost use Rattle.order_search.specs.Views.{IsJudged, TellsFault, edge_view};

use crate::copying::{copy, copy_into};
use crate::ready::is_ready;
use crate::spans::{next_key, put_back};
use crate::trial::{Trial, note_trial};
use cf_bind::Move;
use mem_regions::Regions;
use order_claims::WrongKind;
use order_judging::{FailedTest, ProgramSetting, StateSeen, judge_move, judge_state};
use order_keys::Node;
use order_model::Situation;
use order_search::Edge;
use std::alloc::{AllocError, Global};

/// The number of Issue moves after this move.
fn issues_with(issues: u8, m: Move) -> u8
    requires { issues ≤ 64 }
    ensures { result ≡ issued_with issues m }
{
    match m {
        Move::Issue(_) => issues + 1,
        _ => issues,
    }
}

/// A state is considered without a memory, and without a fault.
#[inline(always)]
pub(crate) fn note_bare(situation: &Situation)
    ensures { without_memory situation.now ≡ situation.now }
{
    let _ = situation.lane.len();
}

/// Makes the move in `next`, which is the same as `node` before; the memory changes from that of the node to that of
/// the next one.
fn step_into(
    alloc: Global,
    trial: &Trial,
    mem: &mut Regions,
    node: &Node,
    m: Move,
    next: &mut Node,
) -> Result<(), AllocError>
    requires node { IsOrderNode trial.now node.now }
    requires memory { mem.old ≡ memory_after node.now.changes (memory_loaded trial.now) }
    requires leads { Contains (moves_from trial.now node.now) m }
    requires next { next.old ≡ node.now }
    ensures node { OnOk result (next.new ≡ node_next trial.now node.now m) }
    ensures memory { OnOk result (AreChangesOf (memory_loaded trial.now) mem.new next.new.changes) }
{
    note_trial(trial);
    next.situation.make_changing(
        alloc,
        trial.away,
        &trial.layout,
        &trial.image,
        mem,
        &mut next.changes,
        m,
    )?;
    note_bare(&next.situation);
    next.issues = issues_with(node.issues, m);
    Ok(())
}

/// The node to which the move leads; the memory changes from that of the node to that of the next one.
pub(crate) fn step(
    alloc: Global,
    trial: &Trial,
    mem: &mut Regions,
    node: &Node,
    m: Move,
) -> Result<Node, AllocError>
    requires node { IsOrderNode trial.now node.now }
    requires memory { mem.old ≡ memory_after node.now.changes (memory_loaded trial.now) }
    requires leads { Contains (moves_from trial.now node.now) m }
    ensures node { IfOk result (λ next. next ≡ node_next trial.now node.now m) }
    ensures memory { IfOk result (λ next. AreChangesOf (memory_loaded trial.now) mem.new next.changes) }
{
    let mut next = copy(alloc, node)?;
    step_into(alloc, trial, mem, node, m, &mut next)?;
    Ok(next)
}

/// In which way a list of moves is wrong, by the test that fails.
fn kind_of(test: FailedTest) -> WrongKind
    ensures { result ≡ kind_by test }
{
    match test {
        FailedTest::Retired => WrongKind::Retired,
        FailedTest::Ended => WrongKind::Ended,
        FailedTest::Output => WrongKind::Output,
        FailedTest::Stuck => WrongKind::Stuck,
        FailedTest::Memory => WrongKind::Memory,
    }
}

/// The same for the test that fails, if one does.
fn told(found: Option<FailedTest>) -> Option<WrongKind>
    ensures { result ≡ wrong_kind_told found }
{
    match found {
        Some(test) => Some(kind_of(test)),
        None => None,
    }
}

/// What is wrong with the move from a node to the next, if anything is; the memory is the node's, and is left as it is.
fn fault_of_move(
    alloc: Global,
    trial: &Trial,
    mem: &mut Regions,
    node: &Node,
    m: Move,
    next: &Node,
) -> Result<Option<WrongKind>, AllocError>
    requires node { IsRightNode trial.now node.now }
    requires memory { mem.old ≡ memory_after node.now.changes (memory_loaded trial.now) }
    requires next { next.now ≡ node_next trial.now node.now m }
    ensures kept { OnOk result (mem.new ≡ mem.old) }
    ensures fault { IfOk result (TellsFault (IsWrongFrom trial.now node.now m)) }
{
    note_trial(trial);
    let setting = ProgramSetting {
        away: trial.away,
        layout: &trial.layout,
        image: &trial.image,
    };
    let from = StateSeen {
        situation: &node.situation,
        changes: &node.changes,
    };
    let after = StateSeen {
        situation: &next.situation,
        changes: &next.changes,
    };
    let place = trial.place(&node.situation);
    let found = judge_move(alloc, setting, mem, place, from, m, after)?;
    Ok(told(found))
}

/// Whether the move is Issue.
fn is_issue(m: Move) -> bool
    ensures { result ≡ issues m }
{
    matches!(m, Move::Issue(_))
}

/// Whether no row of the table bars the move in a node with this memory.
fn is_allowed(trial: &Trial, mem: &Regions, node: &Node, m: Move) -> bool
    requires { mem.now ≡ memory_after node.now.changes (memory_loaded trial.now) }
    ensures { result ≡ not (is_some (bar_without trial.now.away trial.now.plan (state_of_node trial.now node.now) m)) }
{
    node.situation
        .bar(trial.away, &trial.layout, mem, m)
        .is_none()
}

/// Whether the move leads on from a node with this memory. The contents of its stages rule out most moves.
#[inline(always)]
#[tactic(auto, using(crate::proofs::Unready::barred_unready))]
fn leads_on(trial: &Trial, mem: &Regions, node: &Node, m: Move) -> bool
    requires { mem.now ≡ memory_after node.now.changes (memory_loaded trial.now) }
    ensures { result ≡ leads_from trial.now node.now m }
{
    is_ready(&trial.layout, &node.situation, m)
        && (node.issues < trial.issues || !is_issue(m))
        && is_allowed(trial, mem, node, m)
}

/// The first of the moves that lead on from a node with this memory.
#[tactic(auto, using(crate::proofs::Firsts::firsts))]
fn first_move(trial: &Trial, mem: &Regions, node: &Node) -> Option<Move>
    requires { mem.now ≡ memory_after node.now.changes (memory_loaded trial.now) }
    ensures { option_to_list result ≡ take 1 (moves_from trial.now node.now) }
{
    note_trial(trial);
    for m in &trial.moves {
        if leads_on(trial, mem, node, *m) {
            return Some(*m);
        }
    }
    None
}

/// What is wrong with the state of a node, if anything is; the memory is the node's.
fn fault_of(trial: &Trial, mem: &Regions, node: &Node) -> Option<WrongKind>
    requires node { IsRightNode trial.now node.now }
    requires memory { mem.now ≡ memory_after node.now.changes (memory_loaded trial.now) }
    ensures { TellsFault (IsWrongThere trial.now node.now) result }
{
    note_trial(trial);
    let first = first_move(trial, mem, node);
    let found = judge_state(
        &trial.image,
        trial.place(&node.situation),
        &node.situation,
        &node.changes,
        first.as_slice(),
    );
    told(found)
}

/// What is wrong with the state of a node, if anything is; the memory is that of the node before, and is left as it is.
fn fault_there(trial: &Trial, mem: &mut Regions, before: &Node, node: &Node) -> Option<WrongKind>
    requires before { IsRightNode trial.now before.now }
    requires node { IsRightNode trial.now node.now }
    requires memory { mem.old ≡ memory_after before.now.changes (memory_loaded trial.now) }
    ensures kept { mem.new ≡ mem.old }
    ensures fault { TellsFault (IsWrongThere trial.now node.now) result }
{
    note_trial(trial);
    before.changes.turn_into(&node.changes, &trial.image, mem);
    let fault = fault_of(trial, mem, node);
    node.changes.turn_into(&before.changes, &trial.image, mem);
    fault
}

/// What is wrong with the move from a node to the next, or otherwise with the next node, if anything is; the memory is
/// that of the node before, and is left as it is.
#[tactic(auto, using(crate::proofs::EdgeFacts::along))]
fn fault_along(
    alloc: Global,
    trial: &Trial,
    mem: &mut Regions,
    node: &Node,
    m: Move,
    next: &Node,
) -> Result<Option<WrongKind>, AllocError>
    requires node { IsRightNode trial.now node.now }
    requires memory { mem.old ≡ memory_after node.now.changes (memory_loaded trial.now) }
    requires leads { Contains (moves_from trial.now node.now) m }
    requires next { next.now ≡ node_next trial.now node.now m }
    ensures kept { OnOk result (mem.new ≡ mem.old) }
    ensures fault { IfOk result (TellsFault (IsWrongAlong trial.now node.now m)) }
{
    note_trial(trial);
    match fault_of_move(alloc, trial, mem, node, m, next)? {
        Some(kind) => Ok(Some(kind)),
        None => Ok(fault_there(trial, mem, node, next)),
    }
}

/// The edge of a move from a node with this memory, which is left as it is. The move is made in the next node, which is
/// the same as the node, and is so again afterwards.
fn edge(
    alloc: Global,
    trial: &Trial,
    mem: &mut Regions,
    node: &Node,
    key: &[u8],
    lefts: &[usize],
    m: Move,
    next: &mut Node,
) -> Result<Edge<Move, WrongKind>, AllocError>
    requires node { IsRightNode trial.now node.now }
    requires memory { mem.old ≡ memory_after node.now.changes (memory_loaded trial.now) }
    requires key { key.now ≡ key_of_node node.now }
    requires lefts { lefts.now ≡ lefts_of key.now }
    requires leads { Contains (moves_from trial.now node.now) m }
    requires next { next.old ≡ node.now }
    ensures kept { OnOk result (mem.new ≡ mem.old) }
    ensures next { OnOk result (next.new ≡ node.now) }
    ensures edge { IfOk result (λ edge. edge_view edge ≡ edge_of trial.now node.now m) }
    ensures fault { IfOk result (IsJudged (HasEdgeFault (IsWrongEdge trial.now) (IsWrongNode trial.now) (key_of_node node.now))) }
    ensures key { IfOk result (λ edge. IfNone edge.fault (IsOrderKey trial.now edge.node.items)) }
{
    note_trial(trial);
    step_into(alloc, trial, mem, node, m, next)?;
    next.changes.turn_into(&node.changes, &trial.image, mem);
    let fault = fault_along(alloc, trial, mem, node, m, &*next)?;
    let key = next_key(alloc, trial, node, key, lefts, m, &*next)?;
    put_back(alloc, trial, node, m, next)?;
    Ok(Edge {
        label: m,
        fault,
        node: key,
    })
}

/// Replaces the moves in the list by those that lead on from a node with this memory.
#[tactic(auto, using(crate::proofs::Unready::moves_kept))]
fn moves_on(
    trial: &Trial,
    mem: &Regions,
    node: &Node,
    moves: &mut Vec<Move>,
) -> Result<(), AllocError>
    requires { mem.now ≡ memory_after node.now.changes (memory_loaded trial.now) }
    ensures { OnOk result (moves.new.items ≡ moves_from trial.now node.now) }
{
    note_trial(trial);
    moves.clear();
    for m in &trial.moves {
        if leads_on(trial, mem, node, *m) {
            moves.push(*m)?;
        }
    }
    Ok(())
}

/// The edges of a node with this memory, which is left as it is; each move is made in the next node. The list holds the
/// moves meanwhile, so that its memory is used again.
pub(crate) fn edges_of(
    alloc: Global,
    trial: &Trial,
    mem: &mut Regions,
    node: &Node,
    key: &[u8],
    lefts: &[usize],
    moves: &mut Vec<Move>,
    next: &mut Node,
) -> Result<Vec<Edge<Move, WrongKind>>, AllocError>
    requires node { IsRightNode trial.now node.now }
    requires memory { mem.old ≡ memory_after node.now.changes (memory_loaded trial.now) }
    requires key { key.now ≡ key_of_node node.now }
    requires lefts { lefts.now ≡ lefts_of key.now }
    ensures kept { OnOk result (mem.new ≡ mem.old) }
    ensures edges { IfOk result (λ edges. map edge_view edges.items ≡ map (edge_of trial.now node.now) (moves_from trial.now node.now)) }
    ensures faults { IfOk result (λ edges. All (IsJudged (HasEdgeFault (IsWrongEdge trial.now) (IsWrongNode trial.now) (key_of_node node.now))) edges.items) }
    ensures keys { IfOk result (λ edges. All (λ edge. IfNone edge.fault (IsOrderKey trial.now edge.node.items)) edges.items) }
{
    moves_on(trial, mem, node, moves)?;
    copy_into(alloc, node, next)?;
    let mut edges = Vec::with_capacity(alloc, moves.len())?;
    for m in &*moves {
        let judged = edge(alloc, trial, mem, node, key, lefts, *m, next)?;
        edges.push(judged)?;
    }
    Ok(edges)
}
