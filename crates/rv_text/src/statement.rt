//! The meaning of a text before its target is read.
#![tactic(auto, unfolding(crate::specs::Reading::distance_of, crate::specs::Reading::is_distance, crate::specs::Reading::aimed))]

ghost use Rattle.std.specs.Prelude.{◌≡◌, pos, ◌<ℤ◌};
ghost use Rattle.std.specs.Int.RustNames.{unsigned_abs};
ghost use Rattle.rv_text.specs.Reading.{aimed, is_distance, distance_of};

use crate::text_err::TextErr;
use rv_inst::{Cond, Instr};

/// A jump or a branch without its distance.
#[derive(Clone, Copy)]
pub enum Jump {
    /// JAL, which writes the register `rd`.
    Link(u8),
    /// A conditional branch on two registers.
    Branch(Cond, u8, u8),
}

/// A line's instruction. A jump or a branch keeps the text of its target, which denotes an address.
#[derive(Clone, Copy)]
pub enum Statement<'a> {
    /// The whole instruction.
    Whole(Instr),
    /// A jump or a branch, and its target's text.
    Aimed(Jump, &'a [u8]),
}

/// The distance from the instruction at `pc` to a target, modulo 2^32 and read as signed.
pub fn distance(target: i64, pc: u32) -> i32
    ensures { result ≡ distance_of target pc }
{
    (target.rem_euclid(0x1_0000_0000) as u32)
        .wrapping_sub(pc)
        .cast_signed()
}

fn is_distance(distance: i32, half: i32) -> bool
    requires { pos 0 <ℤ half }
    ensures { result ≡ is_distance (unsigned_abs half) distance }
{
    -half <= distance && distance < half && distance.unsigned_abs() % 2 == 0
}

impl Jump {
    /// The jump or the branch over this distance. An odd distance, or one that does not fit its field, is `OutOfRange`
    /// with the distance.
    pub fn to(self, distance: i32) -> Result<Instr, TextErr>
        ensures { result ≡ aimed self distance }
    {
        let (instr, fits) = match self {
            Jump::Link(rd) => (
                Instr::Jal { rd, imm: distance },
                is_distance(distance, 0x10_0000),
            ),
            Jump::Branch(cond, rs1, rs2) => (
                Instr::Branch {
                    cond,
                    rs1,
                    rs2,
                    imm: distance,
                },
                is_distance(distance, 0x1000),
            ),
        };
        if fits {
            Ok(instr)
        } else {
            Err(TextErr::OutOfRange(i64::from(distance)))
        }
    }
}
