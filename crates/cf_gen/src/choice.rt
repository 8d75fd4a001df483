//! The random choices for a statement.
#![tactic(auto, unfolding(crate::specs::Statements::choice_of))]

ghost use Rattle.std.specs.Prelude.{◌≡◌};
ghost use Rattle.cf_gen.specs.Draws.{state_after_draws};
ghost use Rattle.cf_gen.specs.Statements.{operation_of, choice_of};

use crate::draws::Draws;

/// The operations of the statements.
#[derive(Clone, Copy)]
pub enum Operation {
    Add,
    Sub,
    Xor,
    Or,
    Sltu,
    Sll,
    Addi,
    Sw,
    Lw,
    Blt,
}

/// A statement's operation, its three registers (8 to 15) and an offset (0 to 63). Not every operation uses them all.
#[derive(Clone, Copy)]
pub struct Choice {
    pub operation: Operation,
    pub first: u32,
    pub second: u32,
    pub third: u32,
    pub offset: u32,
}

fn operation_for(number: u32) -> Operation
    ensures { result ≡ operation_of number }
{
    match number {
        0 => Operation::Add,
        1 => Operation::Sub,
        2 => Operation::Xor,
        3 => Operation::Or,
        4 => Operation::Sltu,
        5 => Operation::Sll,
        6 => Operation::Addi,
        7 => Operation::Sw,
        8 => Operation::Lw,
        _ => Operation::Blt,
    }
}

/// The choice of the next statement, which always takes five draws.
pub fn choose(draws: &mut Draws) -> Choice
    ensures choice { result ≡ choice_of draws.old }
    ensures state { draws.new ≡ state_after_draws 5 draws.old }
{
    Choice {
        operation: operation_for(draws.below(10)),
        first: 8 + draws.below(8),
        second: 8 + draws.below(8),
        third: 8 + draws.below(8),
        offset: draws.below(64),
    }
}
