//! One step of the sequential machine, when nothing is left of the input, and what the step does to memory.

ghost use Rattle.std.specs.Prelude.{◌≡◌, ◌+◌, ◌<◌, ◌≤◌, ◌^◌, IfOk};
ghost use Rattle.cf_passengers.specs.Issuing.{meant};
ghost use Rattle.cf_semantics.specs.moves.Instructions.{fetched as what_is_fetched, register, src1_of, src2_of, value_read};
ghost use Rattle.mem_changes.specs.Applied.{memory_after};
ghost use Rattle.mem_changes.specs.Differing.{AreChanges, AreChangesOf};
ghost use Rattle.order_model.specs.StepEffects.{memory_stepped};
ghost use Rattle.order_machine.specs.NextSteps.{IsAnswered, IsStepMade, memory_next};

use cf_bind::{End, Op};
use cf_io::{Empty, Nowhere};
use cf_passengers::fetched;
use mem_changes::{Changes, Image};
use order_model::note_step;
use rv_inst::{Instr, Isa, sources};
use rv_machine::{Machine, Retired, Stepped};
use std::alloc::{AllocError, Global};

/// What the next step of the machine does.
#[derive(Clone, Copy)]
pub enum NextStep {
    /// The instruction of this line retires.
    Retires(Retired),

    /// The program ends.
    Ends(End),
}

/// Makes one step; the bytes that a call writes are not kept.
#[tactic(auto, using(crate::proofs::Quiet::answering))]
fn answer(isa: Isa, machine: &mut Machine) -> Stepped
    requires { machine.old.retired + 1 < 2 ^ 64 }
    ensures answered { IsAnswered isa machine.old machine.new result }
    ensures count { machine.new.retired ≤ machine.old.retired + 1 }
{
    let mut input = Empty;
    let mut output = Nowhere;
    machine.step_as(isa, &mut input, &mut output)
}

/// Makes one step.
fn take(isa: Isa, machine: &mut Machine) -> NextStep
    requires { machine.old.retired + 1 < 2 ^ 64 }
    ensures taken { IsStepMade isa machine.old machine.new result }
    ensures count { machine.new.retired ≤ machine.old.retired + 1 }
{
    match answer(isa, machine) {
        Stepped::Next(line) => NextStep::Retires(line),
        Stepped::Trap { cause, pc, detail } => NextStep::Ends(End::Trap { cause, pc, detail }),
        Stepped::Exit(status) => NextStep::Ends(End::Exit(status)),
        Stepped::ReadFault => unreachable!(),
        Stepped::WriteFault => unreachable!(),
    }
}

/// The value of a source; 0 if there is none.
fn source_value(regs: &[u32; 32], reg: u8) -> u32
    ensures { result ≡ value_read regs.now (register reg) }
{
    if reg == 0 {
        return 0;
    }
    match regs.get(reg as usize) {
        Some(value) => *value,
        None => 0,
    }
}

/// Records what an instruction that retires does to memory.
#[tactic(auto, unfolding(cf_semantics::specs::moves::Instructions::src1_of, cf_semantics::specs::moves::Instructions::src2_of))]
fn note_retired(
    alloc: Global,
    image: &Image,
    changes: &mut Changes,
    i: Instr,
    regs: &[u32; 32],
) -> Result<(), AllocError>
    requires { AreChanges image.now changes.old }
    ensures lists { IfOk result (λ done. AreChanges image.now changes.new) }
    ensures memory { IfOk result (λ done. memory_after changes.new image.now
        ≡ memory_stepped i (value_read regs.now (src1_of i)) (value_read regs.now (src2_of i)) regs.now (memory_after changes.old image.now)) }
{
    let (first, second) = sources(i);
    let step = Op {
        pc: 0,
        instr: i,
        a: source_value(regs, first),
        b: source_value(regs, second),
        answer: None,
    };
    note_step(alloc, image, changes, step, regs)
}

/// Records what the step does to memory.
fn note_next(
    alloc: Global,
    image: &Image,
    changes: &mut Changes,
    next: NextStep,
    what: Result<Instr, End>,
    regs: &[u32; 32],
) -> Result<(), AllocError>
    requires { AreChanges image.now changes.old }
    ensures lists { IfOk result (λ done. AreChanges image.now changes.new) }
    ensures memory { IfOk result (λ done. memory_after changes.new image.now
        ≡ memory_next next (meant what) regs.now (memory_after changes.old image.now)) }
{
    match (next, what) {
        (NextStep::Retires(_), Ok(i)) => note_retired(alloc, image, changes, i, regs),
        (NextStep::Retires(_), Err(_)) => Ok(()),
        (NextStep::Ends(_), _) => Ok(()),
    }
}

/// Makes one step, and records what it does to memory.
#[tactic(auto, using(crate::proofs::Remembered::remembering))]
pub(crate) fn advance(
    alloc: Global,
    isa: Isa,
    image: &Image,
    machine: &mut Machine,
    changes: &mut Changes,
) -> Result<NextStep, AllocError>
    requires count { machine.old.retired + 1 < 2 ^ 64 }
    requires changes { AreChangesOf image.now machine.old.mem changes.old }
    ensures taken { IfOk result (λ next. IsStepMade isa machine.old machine.new next) }
    ensures changes { IfOk result (λ next. AreChangesOf image.now machine.new.mem changes.new) }
    ensures count { machine.new.retired ≤ machine.old.retired + 1 }
{
    let what = fetched(isa, machine.memory(), machine.pc());
    let regs = *machine.regs();
    let next = take(isa, machine);
    note_next(alloc, image, changes, next, what, &regs)?;
    Ok(next)
}
