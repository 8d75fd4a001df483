//! Which test of a wrong list of moves is the first to hold.

ghost use Rattle.std.specs.Prelude.{◌≡◌, IfOk};
ghost use Rattle.cf_semantics.specs.state.Layouts.{isa_of as set_of};
ghost use Rattle.mem_changes.specs.Differing.{AreChanges, AreChangesOf};
ghost use Rattle.mem_regions.specs.Memory.{Memory};
ghost use Rattle.order_judging.specs.FirstTests.{IsFirstOfMove, IsFirstOfState, IsMoveJudged, IsStateJudged, state_reached};
ghost use Rattle.order_judging.specs.Judgements.{EndsApart, IsServeThat, IsServedApart, RestsApart, RetiresApart, at_top, lines_without};
ghost use Rattle.order_judging.specs.Places.{IsPlaceOf, next_lines};
ghost use Rattle.order_model.specs.Situations.{in_memory};
ghost use Rattle.rv_inst.specs.declared.isa.Isa.{Isa};
ghost use Rattle.rv_machine.specs.Machine.{Machine as MachineState};
ghost use Rattle.theory_orders.specs.Wrong.{IsStuckWrongly};

use crate::retiring::retires_apart;
use crate::serving::serves_apart;
use crate::states::{ends_apart, is_stuck, rests_apart};
use cf_bind::Move;
use cf_layout::LooseLayout;
use mem_changes::{Changes, Image};
use mem_regions::Regions;
use order_machine::Waypoint;
use order_model::{Rule, Situation};
use std::alloc::{AllocError, Global};

/// What is wrong with a list of moves at its last move.
#[derive(Clone, Copy, PartialEq, Eq)]
pub enum FailedTest {
    /// An instruction retires with a line other than that of the machine's next step, or that step ends the program.
    Retired,

    /// The program ends differently from the machine's next step, or with other registers or memory.
    Ended,

    /// Serve is for an instruction other than that of the machine's next step, or gets a different answer.
    Output,

    /// No move leads on, although the program has not ended, and the processor is not drained with fetch running.
    Stuck,

    /// The processor is drained with registers, memory or a fetch address other than the machine's.
    Memory,
}

/// A loaded program under a layout, in the table of moves without one of its rules.
#[derive(Clone, Copy)]
pub struct ProgramSetting<'a> {
    /// The rule that is taken away, if any.
    pub away: Option<Rule>,

    /// The layout.
    pub layout: &'a LooseLayout,

    /// The memory as it was loaded.
    pub image: &'a Image,
}

/// A state.
#[derive(Clone, Copy)]
pub struct StateSeen<'a> {
    /// The state, without its memory.
    pub situation: &'a Situation,

    /// How its memory differs from the loaded memory.
    pub changes: &'a Changes,
}

/// The test of a move that is the first to hold, where the machine is at this place.
fn first_of_move(
    alloc: Global,
    setting: ProgramSetting<'_>,
    mem: &mut Regions,
    place: &Waypoint,
    from: StateSeen<'_>,
    m: Move,
    after: StateSeen<'_>,
) -> Result<Option<FailedTest>, AllocError>
    requires changes { AreChangesOf setting.image.now mem.old from.changes.now }
    requires place { AreChanges setting.image.now place.now.changes }
    ensures kept { mem.new ≡ mem.old }
    ensures first { let plan = setting.entry.layout.now in let s = from.entry.situation.now in let t = after.entry.situation.now in IfOk result (λ found. IsFirstOfMove
        (RetiresApart (next_lines (set_of plan) place.now.next) (lines_without setting.entry.away plan s m))
        (EndsApart place.now t.ending t.regs after.entry.changes.now)
        (IsServeThat m (IsServedApart (set_of plan) setting.entry.image.now place.now s.regs mem.old (at_top plan s)))
        found) }
{
    let ProgramSetting {
        away,
        layout,
        image,
    } = setting;
    if retires_apart(away, layout, place, from.situation, m) {
        return Ok(Some(FailedTest::Retired));
    }
    if ends_apart(place, after.situation, after.changes) {
        return Ok(Some(FailedTest::Ended));
    }
    let s = from.situation;
    if serves_apart(alloc, layout, image, mem, from.changes, place, s, m)? {
        return Ok(Some(FailedTest::Output));
    }
    Ok(None)
}

/// What is wrong with a list of moves, by the tests of its last move, if anything is. The move is allowed and leads
/// from this state to the one after. The memory is that of the state, and is left as it is. The place is that of the
/// machine after as many steps as instructions have retired in the state.
pub fn judge_move(
    alloc: Global,
    setting: ProgramSetting<'_>,
    mem: &mut Regions,
    place: &Waypoint,
    from: StateSeen<'_>,
    m: Move,
    after: StateSeen<'_>,
) -> Result<Option<FailedTest>, AllocError>
    requires changes { AreChangesOf setting.image.now mem.old from.changes.now }
    requires place { AreChanges setting.image.now place.now.changes }
    requires after { let t = state_reached setting.away setting.layout.now (in_memory from.situation.now mem.old) m in in_memory after.situation.now t.mem ≡ t }
    requires after_changes { AreChangesOf setting.image.now
        (state_reached setting.away setting.layout.now (in_memory from.situation.now mem.old) m).mem after.changes.now }
    ensures kept { mem.new ≡ mem.old }
    ensures judged { IfOk result (λ found. (x : MachineState) →
        IsPlaceOf (set_of setting.entry.layout.now) setting.entry.image.now x place.now →
        IsMoveJudged setting.entry.away setting.entry.layout.now x (in_memory from.entry.situation.now mem.old) m found) }
{
    let _ = setting.image.memory();
    first_of_move(alloc, setting, mem, place, from, m, after)
}

/// The test of a state that is the first to hold, where the machine is at this place.
fn first_of_state(
    place: &Waypoint,
    s: &Situation,
    changes: &Changes,
    moves: &[Move],
) -> Option<FailedTest>
    ensures { IsFirstOfState (IsStuckWrongly moves.now s.now) (RestsApart place.now s.now changes.now) result }
{
    if is_stuck(s, moves) {
        Some(FailedTest::Stuck)
    } else if rests_apart(place, s, changes) {
        Some(FailedTest::Memory)
    } else {
        None
    }
}

/// What is wrong with a list of moves, by the tests of the state that it leads to, if anything is. The state's memory
/// has these changes, and these moves lead on from there. The place is that of the machine after as many steps as
/// instructions have retired in the state.
pub fn judge_state(
    image: &Image,
    place: &Waypoint,
    s: &Situation,
    changes: &Changes,
    moves: &[Move],
) -> Option<FailedTest>
    ensures { (isa : Isa) (x : MachineState) (mem : Memory) → IsPlaceOf isa image.now x place.now → AreChangesOf image.now mem changes.now →
        IsStateJudged x moves.now (in_memory s.now mem) result }
{
    let _ = image.memory();
    first_of_state(place, s, changes, moves)
}
