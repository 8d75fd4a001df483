//! What is searched.

ghost use Rattle.std.specs.Prelude.{◌≡◌, ◌+◌, ◌<◌, ◌≤◌, ◌^◌, IfOk, Some, length, slice_get};
ghost use Rattle.cf_semantics.specs.claims.Refines.{gained};
ghost use Rattle.cf_semantics.specs.state.Layouts.{isa_of as set_of};
ghost use Rattle.mem_changes.specs.Differing.{AreChanges};
ghost use Rattle.order_graph.specs.KeyGraph.{memory_loaded};
ghost use Rattle.order_graph.specs.OrderAnswers.{trial_of};
ghost use Rattle.order_graph.specs.TrialParts.{HasPlace, IsSoundTrial};
ghost use Rattle.order_judging.specs.Places.{IsPlaceOf};
ghost use Rattle.rv_machine.specs.After.{after as after_steps};
ghost use Rattle.rv_machine.specs.Machine.{Machine as MachineState};

use cf_bind::Move;
use cf_layout::LooseLayout;
use cf_passengers::loose::isa_of;
use mem_changes::Image;
use order_claims::laws::{orders_end, retires_no_more_than_issued};
use order_machine::{Waypoint, waypoints};
use order_model::{Rule, Situation, all_moves};
use rv_machine::Machine;
use std::alloc::{AllocError, Global};
use std::marker::Model;

/// A program under a layout, in the table of moves without one of its rules, and how many instructions may be issued.
#[derive(Drop)]
pub(crate) struct Trial {
    /// The rule that is taken away, if any.
    pub(crate) away: Option<Rule>,

    /// The layout.
    pub(crate) layout: LooseLayout,

    /// The memory as it was loaded.
    pub(crate) image: Image,

    /// Where the sequential machine is before its first step, after one step, and so on.
    pub(crate) places: Vec<Waypoint>,

    /// All moves, in their order.
    pub(crate) moves: Vec<Move>,

    /// The maximum number of Issue moves.
    pub(crate) issues: u8,

    /// How many instructions had retired at the start.
    pub(crate) retired: u64,
}

impl Model for Trial {
    ghost use Rattle.order_graph.specs.OrderTrial.{OrderTrial};
    ghost use Rattle.order_graph.specs.TrialParts.{AreTrialParts, first_hart};
    ghost use Rattle.order_machine.specs.Waypoints.{machine_of};

    ghost Value = { OrderTrial };

    ghost view = { λ t. record { away = t.away; plan = t.layout; machine = machine_of (first_hart t.places.items t.image t.retired); most = t.issues } };

    ghost invariant = { λ t. AreTrialParts t.layout t.image t.places.items t.moves.items t.issues t.retired };
}

/// The place with an index.
fn nth(places: &[Waypoint], index: usize) -> &Waypoint
    requires { index < length places.now }
    ensures { slice_get places.now index ≡ Some result.now }
{
    &places[index]
}

impl Trial {
    /// The trial of a program that starts on this machine.
    pub(crate) fn new(
        alloc: Global,
        layout: &LooseLayout,
        image: Image,
        machine: Machine,
        away: Option<Rule>,
        issues: u8,
    ) -> Result<Trial, AllocError>
        requires loaded { machine.mem ≡ image }
        requires few { issues ≤ 64 }
        requires room { machine.retired + issues + 1 < 2 ^ 64 }
        ensures { IfOk result (λ trial. trial ≡ trial_of away layout.now machine issues) }
    {
        let _ = image.memory();
        let _ = layout.stages();
        let retired = machine.retired();
        let places = waypoints(alloc, isa_of(layout), &image, machine, u32::from(issues))?;
        let moves = all_moves(alloc, layout)?;
        Ok(Trial {
            away,
            layout: *layout,
            image,
            places,
            moves,
            issues,
            retired,
        })
    }

    /// Where the machine is after as many steps as instructions have retired in this state.
    pub(crate) fn place(&self, s: &Situation) -> &Waypoint
        requires { HasPlace self.now s.now }
        ensures place { (x : MachineState) → after_steps (set_of self.now.plan) self.now.machine (gained self.now.machine s.now) ≡ Some x →
            IsPlaceOf (set_of self.now.plan) (memory_loaded self.now) x result.now }
        ensures changes { AreChanges (memory_loaded self.now) result.now.changes }
    {
        nth(&self.places, (s.retired() - self.retired) as usize)
    }
}

/// The stored parts of a trial.
#[inline(always)]
pub(crate) fn note_trial(trial: &Trial)
    ensures { IsSoundTrial trial.now }
{
    retires_no_more_than_issued();
    orders_end();
    let _ = trial.moves.len();
}
