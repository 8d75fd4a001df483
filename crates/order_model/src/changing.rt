//! Moves in a memory whose changes are stored separately.

ghost use Rattle.std.specs.Prelude.{◌≡◌, ◌+◌, ◌<◌, ◌^◌, [], IfOk, None, Option, true};
ghost use Rattle.cf_bind.specs.declared.moves.Move.TheVariants as mv;
ghost use Rattle.rv_machine.specs.Call.{call as call_of};
ghost use Rattle.cf_semantics.specs.moves.Instructions.{mem_after, serve_of};
ghost use Rattle.cf_semantics.specs.moves.Moves.{moved, next};
ghost use Rattle.mem_changes.specs.Applied.{memory_after};
ghost use Rattle.mem_changes.specs.Differing.{AreChanges, AreChangesOf};
ghost use Rattle.order_model.specs.RuleBars.{bar_without};
ghost use Rattle.order_rules.specs.declared.rule.Rule.{Rule};
ghost use Rattle.order_model.specs.RuleMoves.{is_of_memory, next_without};
ghost use Rattle.order_model.specs.ServeEffects.{memory_served};
ghost use Rattle.order_model.specs.StepEffects.{memory_stepped};
ghost use Rattle.order_model.specs.Situations.{lone_moment, in_memory};

use crate::Rule;
use crate::bars::{is_memory, port};
use crate::serving::synchronizes;
use crate::siding_ops::last_op;
use crate::situation::Situation;
use crate::table::uses_memory;
use cf_bind::{Move, Op};
use cf_layout::LooseLayout;
use cf_passengers::instruction;
use mem_changes::{Changes, Image};
use mem_regions::Regions;
use rv_inst::{Class, Instr, access_of, class_of};
use std::alloc::{AllocError, Global};

/// Records what an operation does to memory.
#[tactic(auto, using(crate::proofs::Accessed::accessing), unfolding(cf_semantics::specs::moves::Instructions::mem_after))]
fn note_access(
    alloc: Global,
    image: &Image,
    changes: &mut Changes,
    op: Op,
) -> Result<(), AllocError>
    requires { AreChanges image.now changes.old }
    ensures lists { IfOk result (λ done. AreChanges image.now changes.new) }
    ensures memory { IfOk result (λ done. memory_after changes.new image.now ≡ mem_after op.instr op.a op.b (memory_after changes.old image.now)) }
{
    if !is_memory(class_of(op.instr)) {
        return Ok(());
    }
    let access = access_of(op.instr, op.a, op.b);
    if !access.write {
        return Ok(());
    }
    changes.store(alloc, image, access.addr, access.width, access.value)
}

/// Records what a call of the environment does to memory, when nothing is left of the input.
#[tactic(auto, using(crate::proofs::Noted::calling))]
fn note_call(regs: &[u32; 32], image: &Image, changes: &mut Changes)
    requires { AreChanges image.now changes.old }
    ensures lists { AreChanges image.now changes.new }
    ensures memory { memory_after changes.new image.now
        ≡ memory_served (call_of regs.now (memory_after changes.old image.now) []) (memory_after changes.old image.now) }
{
    if regs[17] == 214 && (0x7f00_0000..=0x7f08_0000).contains(&regs[10]) {
        changes.set_brk(image, regs[10]);
    }
}

/// Records what FENCE.I, or a call of the environment, does to memory. Nothing is left of the input.
#[tactic(auto, unfolding(cf_semantics::specs::moves::Instructions::serve_of))]
pub fn note_serial(
    alloc: Global,
    regs: &[u32; 32],
    image: &Image,
    changes: &mut Changes,
    i: Instr,
) -> Result<(), AllocError>
    requires { AreChanges image.now changes.old }
    ensures lists { IfOk result (λ done. AreChanges image.now changes.new) }
    ensures memory { IfOk result (λ done. memory_after changes.new image.now
        ≡ memory_served (serve_of i regs.now (memory_after changes.old image.now) []) (memory_after changes.old image.now)) }
{
    if synchronizes(i) {
        changes.sync(alloc, image)
    } else {
        note_call(regs, image, changes);
        Ok(())
    }
}

/// Records what a step of the sequential machine does to memory, given the instruction, the values of its sources, and
/// the registers. Nothing is left of the input.
#[tactic(auto, unfolding(crate::specs::StepEffects::memory_stepped, cf_semantics::specs::moves::Instructions::kind_of))]
pub fn note_step(
    alloc: Global,
    image: &Image,
    changes: &mut Changes,
    step: Op,
    regs: &[u32; 32],
) -> Result<(), AllocError>
    requires { AreChanges image.now changes.old }
    ensures lists { IfOk result (λ done. AreChanges image.now changes.new) }
    ensures memory { IfOk result (λ done. memory_after changes.new image.now
        ≡ memory_stepped step.instr step.a step.b regs.now (memory_after changes.old image.now)) }
{
    match class_of(step.instr) {
        Class::Memory => note_access(alloc, image, changes, step),
        Class::Serial => note_serial(alloc, regs, image, changes, step.instr),
        _ => Ok(()),
    }
}

impl Situation {
    /// Records what Access does to memory.
    #[tactic(auto, unfolding(cf_semantics::specs::moves::Moves::moved))]
    fn note_port(
        &self,
        alloc: Global,
        layout: &LooseLayout,
        image: &Image,
        changes: &mut Changes,
    ) -> Result<(), AllocError>
        requires { AreChanges image.now changes.old }
        ensures lists { IfOk result (λ done. AreChanges image.now changes.new) }
        ensures memory { IfOk result (λ done. memory_after changes.new image.now
            ≡ (moved layout.now (in_memory self.now (memory_after changes.old image.now)) mv.Access).mem) }
    {
        match last_op(self.siding(port(layout))) {
            Some(op) => note_access(alloc, image, changes, op),
            None => Ok(()),
        }
    }

    /// Records what Serve does to memory.
    #[tactic(auto, using(crate::proofs::Alone::serving), unfolding(cf_semantics::specs::moves::Moves::next))]
    fn note_serve(
        &self,
        alloc: Global,
        layout: &LooseLayout,
        image: &Image,
        changes: &mut Changes,
    ) -> Result<(), AllocError>
        requires { AreChanges image.now changes.old }
        ensures lists { IfOk result (λ done. AreChanges image.now changes.new) }
        ensures memory { IfOk result (λ done. memory_after changes.new image.now
            ≡ (next layout.now (lone_moment (in_memory self.now (memory_after changes.old image.now))) mv.Serve).state.mem) }
    {
        let Some(cell) = self.cell(layout.stages() as usize) else {
            return Ok(());
        };
        let Some(passenger) = cell.passenger else {
            return Ok(());
        };
        note_serial(alloc, self.regs(), image, changes, instruction(&passenger))
    }

    /// Records what Access or Serve does to memory.
    #[tactic(auto, unfolding(crate::specs::RuleMoves::moved_without, crate::specs::RuleMoves::next_without, cf_semantics::specs::moves::Moves::next))]
    fn note(
        &self,
        alloc: Global,
        layout: &LooseLayout,
        image: &Image,
        changes: &mut Changes,
        m: Move,
    ) -> Result<(), AllocError>
        requires lists { AreChanges image.now changes.old }
        requires memory { is_of_memory m ≡ true }
        ensures lists { IfOk result (λ done. AreChanges image.now changes.new) }
        ensures memory { IfOk result (λ done. (away : Option Rule) → memory_after changes.new image.now
            ≡ (next_without away layout.now (lone_moment (in_memory self.now (memory_after changes.old image.now))) m).state.mem) }
    {
        match m {
            Move::Access => self.note_port(alloc, layout, image, changes),
            Move::Serve => self.note_serve(alloc, layout, image, changes),
            _ => unreachable!(),
        }
    }

    /// Makes an allowed move in a memory with these changes, and records what it does to memory. Otherwise it is the
    /// same as `make`. After an error, for lack of memory for the changes, nothing is known of the three.
    #[tactic(auto, using(crate::proofs::Allowed::rows))]
    pub fn make_changing(
        &mut self,
        alloc: Global,
        away: Option<Rule>,
        layout: &LooseLayout,
        image: &Image,
        mem: &mut Regions,
        changes: &mut Changes,
        m: Move,
    ) -> Result<(), AllocError>
        requires allowed { bar_without away layout.now (in_memory self.old mem.old) m ≡ None }
        requires count { self.old.retired + 1 < 2 ^ 64 }
        requires changes { AreChangesOf image.now mem.old changes.old }
        ensures state { IfOk result (λ done. in_memory self.new mem.new
            ≡ (next_without away layout.now (lone_moment (in_memory self.old mem.old)) m).state) }
        ensures changes { IfOk result (λ done. AreChangesOf image.now mem.new changes.new) }
    {
        if uses_memory(m) {
            self.note(alloc, layout, image, changes, m)?;
            self.make(away, layout, mem, m);
            Ok(())
        } else {
            self.make_still(away, layout, mem, m);
            Ok(())
        }
    }
}
