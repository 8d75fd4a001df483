//! What a wrong list of moves shows.

ghost use Rattle.std.specs.Prelude.{◌≡◌, [], ◌∷◌, IfOk};
ghost use Rattle.rv_inst.specs.declared.isa.Isa.{Isa};
ghost use Rattle.cf_semantics.specs.runs.Lines.{line_read};
ghost use Rattle.cf_semantics.specs.state.Options.{on};
ghost use Rattle.mem_changes.specs.Applied.{memory_after};
ghost use Rattle.order_graph.specs.CountsMade.{counts_of};
ghost use Rattle.order_graph.specs.KeyGraph.{first_node, memory_loaded, nodes_after};
ghost use Rattle.order_graph.specs.OrderLists.{IsFirstWrong};
ghost use Rattle.order_graph.specs.OrderTrial.{IsTrialOrder};
ghost use Rattle.order_graph.specs.WrongAnswers.{ShowsWrong};
ghost use Rattle.order_judging.specs.Places.{next_lines};

use crate::edges::step;
use crate::found::{OrderCounts, WrongOrder};
use crate::graph::OrderGraph;
use crate::trial::{Trial, note_trial};
use cf_bind::Move;
use mem_regions::Regions;
use order_claims::WrongKind;
use order_keys::Node;
use order_machine::{NextStep, Waypoint};
use rv_machine::Retired;
use std::alloc::{AllocError, Global};

/// The line of the machine's next step, if that step does not end the program.
fn next_line(place: &Waypoint) -> Option<Retired>
    ensures { (isa : Isa) → on result [] (λ l. line_read isa l ∷ []) ≡ next_lines isa place.now.next }
{
    match place.next {
        NextStep::Retires(line) => Some(line),
        NextStep::Ends(_) => None,
    }
}

/// The node to which moves lead, and the counts of the moves.
#[derive(Drop)]
struct Replayed {
    node: Node,
    counts: OrderCounts,
}

/// Makes moves again from the start, and counts them; afterwards the memory is that of the node to which they lead.
fn replay(
    alloc: Global,
    trial: &Trial,
    mem: &mut Regions,
    start: Node,
    moves: &[Move],
) -> Result<Replayed, AllocError>
    requires start { start ≡ first_node trial.now }
    requires memory { mem.old ≡ memory_loaded trial.now }
    requires allowed { IsTrialOrder trial.now moves.now }
    ensures node { IfOk result (λ made. made.node ≡ nodes_after trial.now (first_node trial.now) moves.now) }
    ensures memory { IfOk result (λ made. mem.new ≡ memory_after made.node.changes (memory_loaded trial.now)) }
    ensures counts { IfOk result (λ made. made.counts ≡ counts_of trial.now moves.now) }
{
    note_trial(trial);
    let mut node = start;
    let mut counts = OrderCounts::none();
    for m in moves {
        let next = step(alloc, trial, mem, &node, *m)?;
        counts = counts.with(trial, &node, *m, &next);
        node = next;
    }
    Ok(Replayed { node, counts })
}

/// What the list of moves, which is wrong in this way, shows.
pub(crate) fn wrong_order(
    alloc: Global,
    graph: OrderGraph,
    start: Node,
    moves: Vec<Move>,
    kind: WrongKind,
    bound: u32,
) -> Result<WrongOrder, AllocError>
    requires start { start ≡ first_node graph.trial }
    requires memory { graph.mem ≡ memory_loaded graph.trial }
    requires wrong { IsFirstWrong graph.trial bound moves.items kind }
    ensures moves { IfOk result (λ w. w.moves.items ≡ moves.items) }
    ensures kind { IfOk result (λ w. w.kind ≡ kind) }
    ensures shows { IfOk result (λ w. ShowsWrong graph.trial moves.items w.reached w.counts w.seen w.wanted) }
{
    let OrderGraph {
        trial,
        mut mem,
        scratch,
    } = graph;
    drop(scratch);
    note_trial(&trial);
    let count = moves.len() - 1;
    let last = moves[count];
    let before = replay(alloc, &trial, &mut mem, start, &moves[..count])?;
    let seen = before
        .node
        .situation
        .retiring(trial.away, &trial.layout, last);
    let wanted = next_line(trial.place(&before.node.situation));
    let after = step(alloc, &trial, &mut mem, &before.node, last)?;
    let counts = before.counts.with(&trial, &before.node, last, &after);
    Ok(WrongOrder {
        moves,
        kind,
        reached: after.situation,
        counts,
        seen,
        wanted,
    })
}
