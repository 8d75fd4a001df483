//! The search through all orders.

ghost use Rattle.std.specs.Prelude.{◌≡◌, ◌+◌, ◌<◌, ◌≤◌, ◌^◌, IfOk, None, length};
ghost use Rattle.order_graph.specs.KeyGraph.{IsNodeIn, IsWrongEdge, IsWrongNode, edges_from, first_node, memory_loaded};
ghost use Rattle.order_graph.specs.OrderAnswers.{AreOrdersFound, IsNotWrong, trial_of};
ghost use Rattle.order_graph.specs.OrderTrial.{OrderTrial};
ghost use Rattle.order_keys.specs.Keys.{key_of_node};
ghost use Rattle.order_machine.specs.Waypoints.{machine_of};
ghost use Rattle.order_search.specs.SearchAnswers.{AnswersOf};

use crate::edges::note_bare;
use crate::found::OrdersFound;
use crate::graph::{OrderGraph, Scratch};
use crate::reached::OrdersReached;
use crate::replaying::wrong_order;
use crate::trial::{Trial, note_trial};
use cf_bind::Move;
use cf_layout::{Layout, LooseLayout};
use mem_changes::{Changes, Image};
use mem_regions::Regions;
use order_claims::WrongKind;
use order_claims::laws::no_order_is_wrong;
use order_keys::{Node, write_key};
use order_model::{Rule, Situation};
use order_search::{SearchAnswer, search};
use rv_machine::Machine;
use std::alloc::{AllocError, Global};

/// A register file has 32 values.
#[inline(always)]
fn note_length(regs: &[u32; 32])
    ensures { length regs.now ≡ 32 }
{}

/// The node at the start.
fn first_of(
    alloc: Global,
    layout: &LooseLayout,
    image: &Image,
    machine: &Machine,
) -> Result<Node, AllocError>
    requires { machine.now.mem ≡ image.now }
    ensures { IfOk result (λ node. (t : OrderTrial) → t.plan ≡ layout.now → t.machine ≡ machine_of machine.now → node ≡ first_node t) }
{
    let _ = image.memory();
    let situation = Situation::start(alloc, layout, machine)?;
    note_bare(&situation);
    Ok(Node {
        situation,
        changes: Changes::none(alloc, image),
        issues: 0,
    })
}

/// The answer of the search of the graph, in terms of the trial.
fn answered(
    alloc: Global,
    graph: OrderGraph,
    start: Node,
    most: u32,
    answer: SearchAnswer<Move, WrongKind>,
) -> Result<OrdersFound, AllocError>
    requires memory { graph.mem ≡ memory_loaded graph.trial }
    requires start { start ≡ first_node graph.trial }
    requires answer { AnswersOf (IsNodeIn graph.trial graph.mem) (edges_from graph.trial) (IsWrongEdge graph.trial) (IsWrongNode graph.trial)
        (key_of_node start) most answer }
    ensures { IfOk result (AreOrdersFound graph.trial most) }
{
    note_trial(&graph.trial);
    match answer {
        SearchAnswer::Found { labels, fault } => {
            let wrong = wrong_order(alloc, graph, start, labels, fault, most)?;
            Ok(OrdersFound::Wrong(wrong))
        }
        SearchAnswer::Counted(reached) => Ok(OrdersFound::Reached(OrdersReached {
            graph,
            reached,
        })),
        SearchAnswer::TooMany => Ok(OrdersFound::TooMany),
    }
}

/// Searches all lists of moves of a program under a layout, with at most this many Issue moves, in the table without
/// the rule that is taken away, if one is; nothing is left of the input. The lists are visited breadth first, as
/// [`order_search::search`] visits the paths of a graph: a list before all longer ones, and of two equally long lists
/// first the one whose move, where they first differ, comes first among all moves. The search ends at the first wrong
/// list, or when more than `most` states are reached. The three memories are the program's as it was loaded: the search
/// works in `mem`.
pub fn search_orders(
    alloc: Global,
    layout: &Layout,
    image: Image,
    mem: Regions,
    machine: Machine,
    away: Option<Rule>,
    issues: u8,
    most: u32,
) -> Result<OrdersFound, AllocError>
    requires loaded { machine.mem ≡ image }
    requires again { mem ≡ image }
    requires issues { issues ≤ 64 }
    requires count { machine.retired + issues + 1 < 2 ^ 64 }
    requires some { 1 ≤ most }
    ensures found { IfOk result (AreOrdersFound (trial_of away layout.now machine issues) most) }
    ensures table { away ≡ None → IfOk result IsNotWrong }
{
    no_order_is_wrong();
    let _ = layout.stages();
    note_length(machine.regs());
    search_loosely(
        alloc,
        layout.loose(),
        image,
        mem,
        machine,
        away,
        issues,
        most,
    )
}

/// The same under a layout where control may turn above the stage from which loads and stores are launched: a list may
/// be wrong there, although no other rule is taken away.
pub fn search_loosely(
    alloc: Global,
    layout: &LooseLayout,
    image: Image,
    mem: Regions,
    machine: Machine,
    away: Option<Rule>,
    issues: u8,
    most: u32,
) -> Result<OrdersFound, AllocError>
    requires loaded { machine.mem ≡ image }
    requires again { mem ≡ image }
    requires issues { issues ≤ 64 }
    requires count { machine.retired + issues + 1 < 2 ^ 64 }
    requires some { 1 ≤ most }
    ensures { IfOk result (AreOrdersFound (trial_of away layout.now machine issues) most) }
{
    let start = first_of(alloc, layout, &image, &machine)?;
    let trial = Trial::new(alloc, layout, image, machine, away, issues)?;
    let mut graph = OrderGraph {
        trial,
        mem,
        scratch: Scratch::new(alloc),
    };
    let first = write_key(alloc, &start)?;
    let answer = search(alloc, &mut graph, first, most)?;
    answered(alloc, graph, start, most, answer)
}
