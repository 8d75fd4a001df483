//! What a flat operation does: the operation is known at compile time, so that no field is tested twice.

ghost use Rattle.std.specs.Prelude.{◌≡◌, ◌%◌, ◌<◌, ◌*◌, slice_index, IfSome, IsTrue};
ghost use Rattle.mem_regions.specs.Access.{IsWidth, bounds_of};
ghost use Rattle.mem_regions.specs.Window.{IsWindowOf};
ghost use Rattle.rv_inst.specs.Ranges.{Fits};
ghost use Rattle.rv_inst.specs.Accesses.{is_load};
ghost use Rattle.rv_inst.specs.Operands.{class_of, dest_of, sources_of};
ghost use Rattle.rv_inst.specs.declared.classes.Class.{Class};
ghost use Rattle.rv_mul.specs.Values.{computes};
ghost use Rattle.rv_inst.specs.Words.{word_sum};
ghost use Rattle.rv_machine.specs.Flat.{instr_of, writes_plainly};
ghost use Rattle.rv_machine.specs.Quick.{GoesOnward, IsCarriedOut, spot_address, hart_of, HasSameCode, goes_straight, is_store};
ghost use Rattle.rv_machine.specs.Step.{register_value, with_register, compute as computation, access_memory as memory_access};

use crate::executing::write_register;
use crate::flat::{Flat, FlatOp};
use mem_regions::{Regions, Window};
use rv_inst::{
    Cond, ImmOp, Instr, LoadKind, RegOp, StoreKind, access_of, dest, extend, is_taken, next_of,
    sources,
};
use rv_mul::value;

/// Where an operation is: at an index in a line that begins at an address.
#[derive(Clone, Copy)]
pub(crate) struct Spot {
    pub(crate) base: u32,
    pub(crate) at: usize,
}

/// The number of words in the address space.
const WORDS: usize = 1 << 30;

/// Where the program continues after an operation.
#[derive(Clone, Copy)]
pub(crate) enum Continuation {
    /// At the next word.
    On,

    /// At an index of the line, or beyond it.
    To(u32),

    /// Nowhere: the operation is not known, or it traps.
    Stop,
}

impl Spot {
    /// The address.
    #[inline(always)]
    #[tactic(auto, using(crate::proofs::Quick::distances))]
    pub(crate) fn pc(self) -> u32
        ensures { result ≡ spot_address self }
    {
        self.base.wrapping_add((self.at % WORDS) as u32 * 4)
    }

    /// The index of an address.
    #[inline(always)]
    #[tactic(auto, using(crate::proofs::Quick::distances))]
    fn index(self, pc: u32) -> u32
        requires base { self.base % 4 ≡ 0 }
        requires aligned { pc % 4 ≡ 0 }
        ensures { word_sum self.base (result * 4) ≡ pc }
    {
        pc.wrapping_sub(self.base) / 4
    }
}

/// The values of the two sources.
#[inline(always)]
fn source_values(regs: &[u32; 32], i: Instr) -> (u32, u32)
    requires fits { Fits i }
    requires zero { slice_index regs.now 0 ≡ 0 }
    ensures first { result.0 ≡ register_value regs.now (sources_of i).0 }
    ensures second { result.1 ≡ register_value regs.now (sources_of i).1 }
{
    let (first, second) = sources(i);
    (regs[first as usize], regs[second as usize])
}

/// Writes a register that is not x0.
#[inline(always)]
fn set_register(regs: &mut [u32; 32], r: u8, value: u32)
    requires register { r < 32 }
    requires written { 0 < r }
    requires zero { slice_index regs.old 0 ≡ 0 }
    ensures value { regs.new ≡ with_register regs.old r value }
    ensures zero { slice_index regs.new 0 ≡ 0 }
{
    regs[r as usize] = value;
}

/// An instruction that computes, after which the program continues at the next word.
#[inline(always)]
#[tactic(auto, using(crate::proofs::Quick::straight))]
fn computed(i: Instr, spot: Spot, regs: &mut [u32; 32], mem: &Regions) -> Continuation
    requires fits { Fits i }
    requires computing { IsTrue (computes (class_of i)) }
    requires straight { IsTrue (goes_straight i) }
    requires aligned { spot_address spot % 4 ≡ 0 }
    requires written { 0 < dest_of i }
    requires zero { slice_index regs.old 0 ≡ 0 }
    ensures goes { GoesOnward result (computation (hart_of (spot_address spot) regs.old mem.now) 0 i) spot regs.new mem.now }
    ensures on { result ≡ Continuation.On }
    ensures zero { slice_index regs.new 0 ≡ 0 }
{
    let (a, b) = source_values(regs, i);
    set_register(regs, dest(i), value(i, spot.pc(), a, b));
    Continuation::On
}

/// An instruction that computes a value for x0.
#[inline(always)]
#[tactic(auto, using(crate::proofs::Quick::straight))]
fn passed(i: Instr, spot: Spot, regs: &[u32; 32], mem: &Regions) -> Continuation
    requires straight { IsTrue (goes_straight i) }
    requires nothing { dest_of i ≡ 0 }
    requires aligned { spot_address spot % 4 ≡ 0 }
    ensures goes { GoesOnward result (computation (hart_of (spot_address spot) regs.now mem.now) 0 i) spot regs.now mem.now }
    ensures on { result ≡ Continuation.On }
{
    Continuation::On
}

/// A jump; `Stop` if it traps.
#[inline(always)]
#[tactic(auto, unfolding(crate::specs::Step::retire, crate::specs::Step::compute, crate::specs::Quick::LeadsOnTo))]
fn jumped(i: Instr, spot: Spot, regs: &mut [u32; 32], mem: &Regions) -> Continuation
    requires base { spot.base % 4 ≡ 0 }
    requires fits { Fits i }
    requires computing { IsTrue (computes (class_of i)) }
    requires zero { slice_index regs.old 0 ≡ 0 }
    ensures goes { GoesOnward result (computation (hart_of (spot_address spot) regs.old mem.now) 0 i) spot regs.new mem.now }
    ensures stop { result ≡ Continuation.Stop → regs.new ≡ regs.old }
    ensures zero { slice_index regs.new 0 ≡ 0 }
{
    let (a, b) = source_values(regs, i);
    let next = next_of(i, spot.pc(), a, b);
    if next % 4 != 0 {
        return Continuation::Stop;
    }
    write_register(regs, dest(i), value(i, spot.pc(), a, b));
    Continuation::To(spot.index(next))
}

/// A branch; `Stop` if it traps.
// The target is computed only if the branch is taken.
#[inline(always)]
#[tactic(auto, using(crate::proofs::Quick::branching))]
fn branched(f: &Flat, cond: Cond, spot: Spot, regs: &[u32; 32], mem: &Regions) -> Continuation
    requires base { spot.base % 4 ≡ 0 }
    requires fits { Fits (Instr.Branch cond f.now.rs1 f.now.rs2 f.now.imm) }
    requires aligned { spot_address spot % 4 ≡ 0 }
    requires zero { slice_index regs.now 0 ≡ 0 }
    ensures goes { GoesOnward result
        (computation (hart_of (spot_address spot) regs.now mem.now) 0 (Instr.Branch cond f.now.rs1 f.now.rs2 f.now.imm)) spot regs.now mem.now }
{
    let a = regs[f.rs1 as usize];
    let b = regs[f.rs2 as usize];
    if !is_taken(cond, a, b) {
        return Continuation::On;
    }
    let distance = f.imm.cast_unsigned();
    if distance % 4 != 0 {
        return Continuation::Stop;
    }
    Continuation::To(spot.index(spot.pc().wrapping_add(distance)))
}

/// A load; `Stop` if it traps.
#[inline(always)]
#[tactic(auto, using(crate::proofs::Quick::loading))]
fn loaded(i: Instr, spot: Spot, regs: &mut [u32; 32], mem: &Regions, window: Window) -> Continuation
    requires window { IsWindowOf (bounds_of mem.now) window }
    requires fits { Fits i }
    requires load { IsTrue (is_load i) }
    requires written { 0 < dest_of i }
    requires aligned { spot_address spot % 4 ≡ 0 }
    requires memory { class_of i ≡ Class.Memory }
    requires zero { slice_index regs.old 0 ≡ 0 }
    ensures goes { GoesOnward result (memory_access (hart_of (spot_address spot) regs.old mem.now) 0 i) spot regs.new mem.now }
    ensures stop { result ≡ Continuation.Stop → regs.new ≡ regs.old }
    ensures zero { slice_index regs.new 0 ≡ 0 }
{
    let (a, b) = source_values(regs, i);
    let access = access_of(i, a, b);
    match mem.load_number_by(window, access.addr, access.width) {
        Ok(raw) => {
            set_register(regs, dest(i), extend(i, raw));
            Continuation::On
        }
        Err(_) => Continuation::Stop,
    }
}

/// A store; `Stop` if it traps.
#[inline(always)]
#[tactic(auto, using(crate::proofs::Quick::storing), unfolding(crate::specs::Step::retire, crate::specs::Step::access_memory, crate::specs::Quick::LeadsOnTo))]
fn stored(i: Instr, spot: Spot, regs: &[u32; 32], mem: &mut Regions, window: Window) -> Continuation
    requires window { IsWindowOf (bounds_of mem.old) window }
    requires fits { Fits i }
    requires store { IsTrue (is_store i) }
    requires aligned { spot_address spot % 4 ≡ 0 }
    requires memory { class_of i ≡ Class.Memory }
    requires zero { slice_index regs.now 0 ≡ 0 }
    ensures goes { GoesOnward result (memory_access (hart_of (spot_address spot) regs.now mem.old) 0 i) spot regs.now mem.new }
    ensures stop { result ≡ Continuation.Stop → mem.new ≡ mem.old }
    ensures code { HasSameCode mem.old mem.new }
    ensures window { IsWindowOf (bounds_of mem.new) window }
{
    let (a, b) = source_values(regs, i);
    let access = access_of(i, a, b);
    match mem.store_by(window, access.addr, access.width, access.value) {
        Ok(()) => Continuation::On,
        Err(_) => Continuation::Stop,
    }
}

impl Flat {
    #[inline(always)]
    fn load(&self, kind: LoadKind) -> Instr
        ensures { result ≡ Instr.Load kind self.now.rd self.now.rs1 self.now.imm }
    {
        Instr::Load {
            kind,
            rd: self.rd,
            rs1: self.rs1,
            imm: self.imm,
        }
    }

    #[inline(always)]
    fn store(&self, kind: StoreKind) -> Instr
        ensures { result ≡ Instr.Store kind self.now.rs1 self.now.rs2 self.now.imm }
    {
        Instr::Store {
            kind,
            rs1: self.rs1,
            rs2: self.rs2,
            imm: self.imm,
        }
    }

    #[inline(always)]
    fn imm_op(&self, op: ImmOp) -> Instr
        ensures { result ≡ Instr.OpImm op self.now.rd self.now.rs1 self.now.imm }
    {
        Instr::OpImm {
            op,
            rd: self.rd,
            rs1: self.rs1,
            imm: self.imm,
        }
    }

    #[inline(always)]
    fn reg_op(&self, op: RegOp) -> Instr
        ensures { result ≡ Instr.Op op self.now.rd self.now.rs1 self.now.rs2 }
    {
        Instr::Op {
            op,
            rd: self.rd,
            rs1: self.rs1,
            rs2: self.rs2,
        }
    }
}

/// Does what the operation says at this address; returns `Stop` if the operation is unknown or traps. The registers and
/// the memory are then unchanged.
#[inline(always)]
#[tactic(auto, using(crate::proofs::Classes::computing, crate::proofs::Quick::storing))]
pub(crate) fn act(
    f: &Flat,
    spot: Spot,
    regs: &mut [u32; 32],
    mem: &mut Regions,
    window: Window,
) -> Continuation
    requires base { spot.base % 4 ≡ 0 }
    requires fits { IfSome (instr_of f.now) Fits }
    requires written { IsTrue (writes_plainly f.now.op) → 0 < f.now.rd }
    requires aligned { spot_address spot % 4 ≡ 0 }
    requires zero { slice_index regs.old 0 ≡ 0 }
    requires window { IsWindowOf (bounds_of mem.old) window }
    ensures goes { IsCarriedOut result (instr_of f.now) (hart_of (spot_address spot) regs.old mem.old) spot regs.new mem.new }
    ensures slow { f.now.op ≡ FlatOp.Slow → result ≡ Continuation.Stop }
    ensures stop { result ≡ Continuation.Stop → regs.new ≡ regs.old }
    ensures unchanged { result ≡ Continuation.Stop → mem.new ≡ mem.old }
    ensures zero { slice_index regs.new 0 ≡ 0 }
    ensures code { HasSameCode mem.old mem.new }
    ensures window { IsWindowOf (bounds_of mem.new) window }
{
    match f.op {
        FlatOp::Slow => Continuation::Stop,
        FlatOp::Nop => passed(
            Instr::OpImm {
                op: ImmOp::Add,
                rd: 0,
                rs1: f.rs1,
                imm: f.imm,
            },
            spot,
            regs,
            mem,
        ),
        FlatOp::Lui => computed(
            Instr::Lui {
                rd: f.rd,
                imm: f.imm.cast_unsigned(),
            },
            spot,
            regs,
            mem,
        ),
        FlatOp::Auipc => computed(
            Instr::Auipc {
                rd: f.rd,
                imm: f.imm.cast_unsigned(),
            },
            spot,
            regs,
            mem,
        ),
        FlatOp::Jal => jumped(
            Instr::Jal {
                rd: f.rd,
                imm: f.imm,
            },
            spot,
            regs,
            mem,
        ),
        FlatOp::Jalr => jumped(
            Instr::Jalr {
                rd: f.rd,
                rs1: f.rs1,
                imm: f.imm,
            },
            spot,
            regs,
            mem,
        ),
        FlatOp::Beq => branched(f, Cond::Eq, spot, regs, mem),
        FlatOp::Bne => branched(f, Cond::Ne, spot, regs, mem),
        FlatOp::Blt => branched(f, Cond::Lt, spot, regs, mem),
        FlatOp::Bge => branched(f, Cond::Ge, spot, regs, mem),
        FlatOp::Bltu => branched(f, Cond::Ltu, spot, regs, mem),
        FlatOp::Bgeu => branched(f, Cond::Geu, spot, regs, mem),
        FlatOp::Lb => loaded(f.load(LoadKind::Byte), spot, regs, mem, window),
        FlatOp::Lh => loaded(f.load(LoadKind::Half), spot, regs, mem, window),
        FlatOp::Lw => loaded(f.load(LoadKind::Word), spot, regs, mem, window),
        FlatOp::Lbu => loaded(f.load(LoadKind::ByteU), spot, regs, mem, window),
        FlatOp::Lhu => loaded(f.load(LoadKind::HalfU), spot, regs, mem, window),
        FlatOp::Sb => stored(f.store(StoreKind::Byte), spot, regs, mem, window),
        FlatOp::Sh => stored(f.store(StoreKind::Half), spot, regs, mem, window),
        FlatOp::Sw => stored(f.store(StoreKind::Word), spot, regs, mem, window),
        FlatOp::Addi => computed(f.imm_op(ImmOp::Add), spot, regs, mem),
        FlatOp::Slti => computed(f.imm_op(ImmOp::Slt), spot, regs, mem),
        FlatOp::Sltiu => computed(f.imm_op(ImmOp::Sltu), spot, regs, mem),
        FlatOp::Xori => computed(f.imm_op(ImmOp::Xor), spot, regs, mem),
        FlatOp::Ori => computed(f.imm_op(ImmOp::Or), spot, regs, mem),
        FlatOp::Andi => computed(f.imm_op(ImmOp::And), spot, regs, mem),
        FlatOp::Slli => computed(f.imm_op(ImmOp::Sll), spot, regs, mem),
        FlatOp::Srli => computed(f.imm_op(ImmOp::Srl), spot, regs, mem),
        FlatOp::Srai => computed(f.imm_op(ImmOp::Sra), spot, regs, mem),
        FlatOp::Add => computed(f.reg_op(RegOp::Add), spot, regs, mem),
        FlatOp::Sub => computed(f.reg_op(RegOp::Sub), spot, regs, mem),
        FlatOp::Sll => computed(f.reg_op(RegOp::Sll), spot, regs, mem),
        FlatOp::Slt => computed(f.reg_op(RegOp::Slt), spot, regs, mem),
        FlatOp::Sltu => computed(f.reg_op(RegOp::Sltu), spot, regs, mem),
        FlatOp::Xor => computed(f.reg_op(RegOp::Xor), spot, regs, mem),
        FlatOp::Srl => computed(f.reg_op(RegOp::Srl), spot, regs, mem),
        FlatOp::Sra => computed(f.reg_op(RegOp::Sra), spot, regs, mem),
        FlatOp::Or => computed(f.reg_op(RegOp::Or), spot, regs, mem),
        FlatOp::And => computed(f.reg_op(RegOp::And), spot, regs, mem),
    }
}
