//! Carrying out loads and stores.

ghost use Rattle.std.specs.Prelude.{◌≡◌};
ghost use Rattle.cf_semantics.specs.moves.Instructions.{answer_of, mem_after};
ghost use Rattle.cf_sidings.specs.Sidings.{IsReadyOperation};

use cf_bind::Op;
use mem_regions::Regions;
use rv_inst::{access_of, extend};

/// Carries out a load or a store that memory permits. The answer is the value that a load writes to its register, and 0
/// for a store.
#[inline(always)]
#[tactic(auto, using(crate::proofs::Permitted::permitted_access), unfolding(cf_semantics::specs::moves::Instructions::answer_of, cf_semantics::specs::moves::Instructions::mem_after))]
pub(crate) fn make(op: Op, mem: &mut Regions) -> u32
    requires { IsReadyOperation op mem.old }
    ensures answer { result ≡ answer_of op.instr op.a op.b mem.old }
    ensures memory { mem.new ≡ mem_after op.instr op.a op.b mem.old }
{
    let access = access_of(op.instr, op.a, op.b);
    if access.write {
        match mem.store(access.addr, access.width, access.value) {
            Ok(()) => 0,
            Err(_) => unreachable!(),
        }
    } else {
        match mem.load_number(access.addr, access.width) {
            Ok(number) => extend(op.instr, number),
            Err(_) => unreachable!(),
        }
    }
}
