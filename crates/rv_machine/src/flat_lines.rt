//! Lines of flat operations: the code that was executed last, with 256 words in a line.

ghost use Rattle.std.specs.Prelude.{◌≡◌, ◌<◌, ◌/◌, ◌%◌, ◌^◌, ◌⊎◌, IsTrue, IfSome, length, slice_index_or, slice_set};
ghost use Rattle.std.specs.List.{All};
ghost use Rattle.rv_machine.specs.Flat.{StandsFor};
ghost use Rattle.rv_machine.specs.Lines.{IsLineOf, AreLinesOf, IsBlank, covers, cover, flat_at, index_in, line_at, no_line};

use crate::decode_cache::{Found, look_up};
use crate::flat::{Flat, FlatOp, SLOW, flatten};
use crate::flat_acting::Spot;
use mem_regions::Regions;

/// The number of lines: enough for 32 KiB of code.
const LINES: usize = 32;

/// The number of operations of a line: the words of 1 KiB.
const OPS: usize = 256;

/// The operations of the 256 words from an address on, which is a multiple of 1024.
#[derive(Clone, Copy)]
pub(crate) struct FlatLine {
    pub(crate) base: u32,
    // One more, which is never known, so that none is looked for after the last.
    pub(crate) ops: [Flat; 257],
}

/// A line about which nothing is known.
const BLANK: FlatLine = FlatLine {
    base: 0,
    ops: [SLOW; OPS + 1],
};

/// The lines of a machine, each at the index of its block.
#[derive(Drop)]
pub(crate) struct FlatLines {
    pub(crate) lines: [FlatLine; 32],
}

/// The operation of the instruction at the address, or `SLOW`.
fn operation(mem: &Regions, pc: u32) -> Flat
    ensures { StandsFor mem.now pc result }
{
    match look_up(mem, pc) {
        Found::Instruction { instr, .. } => flatten(instr),
        _ => SLOW,
    }
}

impl FlatLine {
    /// Whether the line has the word at the address.
    #[inline(always)]
    #[tactic(auto, unfolding(crate::specs::Lines::covers))]
    pub(crate) fn covers(&self, pc: u32) -> bool
        ensures covers { result ≡ covers self.now pc }
        ensures below { pc < 2 ^ 32 }
    {
        pc.wrapping_sub(self.base) < 1024
    }

    /// The spot of the word at an address that the line has.
    #[inline(always)]
    #[tactic(auto, using(crate::proofs::Lines::spotting))]
    pub(crate) fn spot(&self, pc: u32) -> Spot
        requires { IsTrue (covers self.now pc) }
        ensures base { result.base ≡ self.now.base }
        ensures at { result.at ≡ index_in self.now pc }
        ensures within { result.at < 256 }
    {
        Spot {
            base: self.base,
            at: (pc.wrapping_sub(self.base) / 4) as usize,
        }
    }

    /// The operation at an index.
    #[inline(always)]
    pub(crate) fn op(&self, at: usize) -> &Flat
        requires { at < 257 }
        ensures { result.now ≡ flat_at self.now at }
    {
        &self.ops[at]
    }
}

impl FlatLine {
    /// Whether the operation at the address is known.
    #[inline(always)]
    fn knows(&self, pc: u32) -> bool
        ensures { IsTrue result → IsTrue (covers self.now pc) }
    {
        self.covers(pc) && self.op(self.spot(pc).at).op != FlatOp::Slow
    }
}

/// A line that has the word at the address, and about which nothing is known.
#[tactic(auto, using(crate::proofs::Lines::beginning))]
fn blank(pc: u32) -> FlatLine
    ensures covers { IsTrue (covers result pc) }
    ensures blank { IsBlank result }
{
    FlatLine {
        base: pc - pc % 1024,
        ops: [SLOW; OPS + 1],
    }
}

/// The line, or a blank one if it is of another block.
fn begun(line: &FlatLine, pc: u32) -> FlatLine
    ensures covers { IsTrue (covers result pc) }
    ensures kept { (IsBlank result) ⊎ (result ≡ line.now) }
{
    if line.covers(pc) { *line } else { blank(pc) }
}

/// Puts an operation at an index.
fn set_op(ops: &mut [Flat; 257], place: usize, op: Flat)
    requires { place < 256 }
    ensures set { ops.new ≡ slice_set ops.old place op }
    ensures length { length ops.old ≡ 257 }
{
    ops[place] = op;
}

/// The line with the operation at the address.
#[tactic(auto, using(crate::proofs::Lines::learning))]
fn learned(line: FlatLine, mem: &Regions, pc: u32) -> FlatLine
    requires line { IsLineOf mem.now line }
    requires covers { IsTrue (covers line pc) }
    requires aligned { pc % 4 ≡ 0 }
    ensures line { IsLineOf mem.now result }
    ensures covers { IsTrue (covers result pc) }
{
    let mut line = line;
    let place = (pc.wrapping_sub(line.base) / 4) as usize;
    set_op(&mut line.ops, place, operation(mem, pc));
    line
}

/// The index of the line of an address.
#[inline(always)]
fn place_of(pc: u32) -> usize
    ensures place { result ≡ line_at pc }
    ensures below { result < 32 }
{
    (pc / 1024) as usize % LINES
}

impl FlatLines {
    /// Lines about which nothing is known.
    pub(crate) fn new() -> FlatLines
        ensures { All IsBlank result.lines }
    {
        FlatLines {
            lines: [BLANK; LINES],
        }
    }

    /// Forgets all operations.
    pub(crate) fn clear(&mut self)
        ensures { All IsBlank self.new.lines }
    {
        self.lines = [BLANK; LINES];
    }

    /// The line at the index of the address.
    #[inline(always)]
    pub(crate) fn line(&self, pc: u32) -> &FlatLine
        ensures line { result.now ≡ slice_index_or self.now.lines (line_at pc) no_line }
        ensures below { line_at pc < length self.now.lines }
    {
        &self.lines[place_of(pc)]
    }

    /// Determines the operation at the address.
    #[inline(never)]
    #[tactic(auto, using(crate::proofs::Lines::preparing, crate::proofs::Lines::covering))]
    fn learn(&mut self, mem: &Regions, pc: u32)
        requires lines { AreLinesOf mem.now self.old.lines }
        requires aligned { pc % 4 ≡ 0 }
        ensures lines { AreLinesOf mem.now self.new.lines }
        ensures covers { IsTrue (cover self.new.lines pc) }
    {
        let line = begun(self.line(pc), pc);
        self.lines[place_of(pc)] = learned(line, mem, pc);
    }

    /// Determines the operation at the address, if it is unknown.
    #[inline(always)]
    #[tactic(auto, unfolding(crate::specs::Lines::cover))]
    pub(crate) fn prepare(&mut self, mem: &Regions, pc: u32)
        requires lines { AreLinesOf mem.now self.old.lines }
        requires aligned { pc % 4 ≡ 0 }
        ensures lines { AreLinesOf mem.now self.new.lines }
        ensures covers { IsTrue (cover self.new.lines pc) }
    {
        if !self.line(pc).knows(pc) {
            self.learn(mem, pc);
        }
    }
}
