//! The moves of the sidings: Launch, Slide, Access and Recover.
#![tactic(auto, unfolding(crate::specs::RuleMoves::moved_without, cf_semantics::specs::moves::Moves::moved))]

ghost use Rattle.std.specs.Prelude.{◌≡◌, IfNone, IsTrue, None};
ghost use Rattle.rv_mul.specs.Values.{computes};
ghost use Rattle.cf_bind.specs.declared.moves.Move.TheVariants as mv;
ghost use Rattle.rv_inst.specs.Operands.{class_of};
ghost use Rattle.mem_regions.specs.Access.{IsWidth};
ghost use Rattle.mem_regions.specs.Ranges.{load_at};
ghost use Rattle.cf_semantics.specs.moves.Instructions.{answer_of, mem_after, number};
ghost use Rattle.cf_semantics.specs.moves.Moves.{back_in as comes_back, moved};
ghost use Rattle.cf_semantics.specs.state.Passengers.{kind as kind_of_passenger, with_value};
ghost use Rattle.order_model.specs.RuleBars.{row_bar_without};
ghost use Rattle.order_model.specs.RuleMoves.{answer_without, moved_without, sources_without};
ghost use Rattle.order_model.specs.Situations.{in_memory};

use crate::Rule;
use crate::bars::{is_memory, port};
use crate::siding_ops::last_op;
use crate::situation::Situation;
use cf_bind::{Binding, Op, Passenger};
use cf_layout::LooseLayout;
use cf_passengers::{kind, launch_trap, operation, recover, trap};
use mem_regions::Regions;
use order_rules::kept;
use rv_inst::{Class, access_of, class_of, extend};

/// The number that a load reads; 0 if it is not permitted.
#[inline(always)]
fn number_at(mem: &Regions, addr: u32, width: u32) -> u32
    requires { IsWidth width }
    ensures { result ≡ number (load_at mem.now addr width) }
{
    match mem.load_number(addr, width) {
        Ok(number) => number,
        Err(_) => 0,
    }
}

/// Carries out a load or a store. The answer is the value that a load writes to its register, or 0 for a store.
#[inline(always)]
#[tactic(auto, using(crate::proofs::Accessed::accessing), unfolding(cf_semantics::specs::moves::Instructions::answer_of, cf_semantics::specs::moves::Instructions::mem_after))]
fn access(op: Op, mem: &mut Regions) -> u32
    requires { class_of op.instr ≡ Class.Memory }
    ensures answer { result ≡ answer_of op.instr op.a op.b mem.old }
    ensures memory { mem.new ≡ mem_after op.instr op.a op.b mem.old }
{
    let access = access_of(op.instr, op.a, op.b);
    if access.write {
        let _ = mem.store(access.addr, access.width, access.value);
        0
    } else {
        extend(op.instr, number_at(mem, access.addr, access.width))
    }
}

/// The same for any operation; only a load or a store uses memory.
#[inline(always)]
#[tactic(auto, using(crate::proofs::Accessed::accessing))]
fn answer(op: Op, mem: &mut Regions) -> u32
    ensures answer { result ≡ answer_of op.instr op.a op.b mem.old }
    ensures memory { mem.new ≡ mem_after op.instr op.a op.b mem.old }
{
    match class_of(op.instr) {
        Class::Memory => access(op, mem),
        _ => 0,
    }
}

/// The answer that an instruction takes back; without its rule, a load or a store without an answer takes 0.
#[inline(always)]
fn answer_taken(away: Option<Rule>, p: &Passenger, op: &Op) -> Option<u32>
    ensures { result ≡ answer_without away p.now op.now }
{
    if kept(away, Rule::RecoverNotDone) || !is_memory(kind(p)) {
        op.answer
    } else {
        Some(op.answer.unwrap_or(0))
    }
}

/// A source with this value.
#[inline(always)]
fn holding(source: Option<Binding>, value: u32) -> Option<Binding>
    ensures { result ≡ with_value value source }
{
    match source {
        Some(Binding { reg, .. }) => Some(Binding {
            reg,
            value: Some(value),
        }),
        None => None,
    }
}

/// The instruction, with the source values that it has when it takes the operation back.
#[inline(always)]
fn sources_taken(away: Option<Rule>, p: Passenger, op: &Op) -> Passenger
    ensures { result ≡ sources_without away p op.now }
{
    if kept(away, Rule::LaunchDead) && kept(away, Rule::ExecuteDead) {
        return p;
    }
    Passenger {
        src1: holding(p.src1, op.a),
        src2: holding(p.src2, op.b),
        ..p
    }
}

/// The instruction takes the operation back; a live one finishes.
#[inline(always)]
#[tactic(auto, using(crate::proofs::Accessed::recovering))]
fn take_back(away: Option<Rule>, p: Passenger, op: &Op) -> Passenger
    requires computing { IfNone (answer_without away p op.now) (IsTrue (computes (kind_of_passenger p))) }
    ensures { result ≡ comes_back (sources_without away p op.now) (answer_without away p op.now) }
{
    let answer = answer_taken(away, &p, op);
    let mut taken = sources_taken(away, p, op);
    recover(&mut taken, answer);
    taken
}

impl Situation {
    /// The operation of the instruction enters the siding, or the instruction traps.
    #[inline(always)]
    pub(crate) fn launch(&mut self, layout: &LooseLayout, mem: &Regions, i: u32)
        ensures { in_memory self.new mem.now ≡ moved layout.now (in_memory self.old mem.now) (mv.Launch i) }
    {
        let Some(cell) = self.cell(i as usize) else {
            return;
        };
        let Some(mut passenger) = cell.passenger else {
            return;
        };
        if let Some(end) = launch_trap(&passenger, mem) {
            trap(&mut passenger, end);
            self.set_passenger(i as usize, cell, passenger);
            return;
        }
        let Some(k) = layout.siding_of(kind(&passenger)) else {
            return;
        };
        passenger.launched = true;
        self.set_passenger(i as usize, cell, passenger);
        self.set_op(k as usize, 0, Some(operation(&passenger)));
    }

    /// Moves the operation of a cell to the next one.
    #[inline(always)]
    pub(crate) fn slide(&mut self, layout: &LooseLayout, mem: &Regions, k: u32, c: u32)
        ensures { in_memory self.new mem.now ≡ moved layout.now (in_memory self.old mem.now) (mv.Slide k c) }
    {
        let Some(op) = self.op_at(k as usize, c as usize) else {
            return;
        };
        self.set_op(k as usize, c as usize, None);
        self.set_op(k as usize, c as usize + 1, op);
    }

    /// The load or store at the end of Memory's siding is carried out and answered.
    #[inline(always)]
    pub(crate) fn access(&mut self, layout: &LooseLayout, mem: &mut Regions)
        ensures { in_memory self.new mem.new ≡ moved layout.now (in_memory self.old mem.old) mv.Access }
    {
        let k = port(layout);
        let Some(op) = last_op(self.siding(k)) else {
            return;
        };
        let answered = Op {
            answer: Some(answer(op, mem)),
            ..op
        };
        self.set_last_op(k, Some(answered));
    }

    /// Takes out the operation at the end of the siding. A live instruction finishes.
    #[inline(always)]
    #[tactic(auto, using(crate::proofs::Allowed::allowing), unfolding(crate::specs::RuleMoves::moved_without))]
    pub(crate) fn recover(
        &mut self,
        away: Option<Rule>,
        layout: &LooseLayout,
        mem: &Regions,
        i: u32,
    )
        requires { row_bar_without away layout.now (in_memory self.old mem.now) (mv.Recover i) ≡ None }
        ensures { in_memory self.new mem.now ≡ moved_without away layout.now (in_memory self.old mem.now) (mv.Recover i) }
    {
        let _ = layout.stages();
        let Some(cell) = self.cell(i as usize) else {
            return;
        };
        let Some(passenger) = cell.passenger else {
            return;
        };
        let Some(k) = layout.siding_of(kind(&passenger)) else {
            return;
        };
        let Some(op) = last_op(self.siding(k as usize)) else {
            return;
        };
        self.set_passenger(i as usize, cell, take_back(away, passenger, &op));
        self.set_last_op(k as usize, None);
    }
}
