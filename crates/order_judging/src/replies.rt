//! Replies: the environment's answer to an instruction, as a value.

ghost use Rattle.std.specs.Prelude.{◌≡◌, ◌↔◌, [], IfOk, IsTrue};
ghost use Rattle.cf_semantics.specs.moves.Instructions.{serve_of};
ghost use Rattle.mem_changes.specs.Applied.{memory_after};
ghost use Rattle.mem_changes.specs.Differing.{AreChanges, AreChangesOf};
ghost use Rattle.mem_regions.specs.Memory.{Memory};
ghost use Rattle.order_model.specs.ServeEffects.{memory_served};
ghost use Rattle.order_judging.specs.ReplyClaims.{AreSameReplies, HaveSameEffects, IsReply};

use mem_changes::{Changes, Image};
use mem_regions::Regions;
use order_model::{answer_to, note_serial, output_of};
use rv_inst::Instr;
use rv_machine::Served;
use std::alloc::{AllocError, Global};

/// The environment's answer, when nothing is left of the input.
#[derive(Drop)]
pub(crate) struct Reply {
    /// The value, or the status with which the program ends.
    told: Served,

    /// How memory then differs from the memory as it was loaded.
    changes: Changes,

    /// The bytes that go to the output.
    output: Vec<u8>,
}

/// The changes of a memory that had these changes, after the instruction is answered there with these registers.
fn changes_after(
    alloc: Global,
    image: &Image,
    changes: &Changes,
    i: Instr,
    regs: &[u32; 32],
) -> Result<Changes, AllocError>
    requires { AreChanges image.now changes.now }
    ensures { IfOk result (λ after. (mem : Memory) → mem ≡ memory_after changes.now image.now →
        AreChangesOf image.now (memory_served (serve_of i regs.now mem []) mem) after) }
{
    let mut after = changes.copy()?;
    note_serial(alloc, regs, image, &mut after, i)?;
    Ok(after)
}

/// Whether the two are the same value or the same status.
fn same_told(told: &Served, other: &Served) -> bool
    ensures { IsTrue result ↔ (told.now ≡ other.now) }
{
    told == other
}

impl Reply {
    /// The environment's answer to the instruction with these registers, in a memory with these changes; the memory is
    /// left as it is.
    pub(crate) fn to(
        alloc: Global,
        image: &Image,
        mem: &mut Regions,
        changes: &Changes,
        i: Instr,
        regs: &[u32; 32],
    ) -> Result<Reply, AllocError>
        requires { AreChangesOf image.now mem.old changes.now }
        ensures kept { mem.new ≡ mem.old }
        ensures reply { IfOk result (λ a. IsReply image.now mem.old (serve_of i regs.now mem.old []) a) }
    {
        let output = output_of(i, regs, mem).to_vec(alloc)?;
        let after = changes_after(alloc, image, changes, i, regs)?;
        let told = answer_to(i, regs, mem);
        after.turn_into(changes, image, mem);
        Ok(Reply {
            told,
            changes: after,
            output,
        })
    }

    /// Whether memory and output are the same.
    fn same_effects(&self, other: &Reply) -> bool
        ensures { IsTrue result ↔ HaveSameEffects self.now other.now }
    {
        self.changes.same(&other.changes) && self.output.as_slice() == other.output.as_slice()
    }

    /// Whether they are the same reply.
    pub(crate) fn same(&self, other: &Reply) -> bool
        ensures { IsTrue result ↔ AreSameReplies self.now other.now }
    {
        match self.told {
            Served::Value(_) => same_told(&self.told, &other.told) && self.same_effects(other),
            Served::Exit(_) | Served::ReadFault | Served::WriteFault => {
                same_told(&self.told, &other.told)
            }
        }
    }
}
