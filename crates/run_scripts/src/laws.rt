//! The law of the lines of moves, as the contract of a function that does nothing.
ghost use Rattle.std.specs.Prelude.{◌≡◌, ◌^◌, Ok};
ghost use Rattle.cf_bind.specs.declared.moves.Move.{Move as AnyMove};
ghost use Rattle.cf_bind.specs.MoveTexts.{move_line};
ghost use Rattle.run_scripts.specs.MoveLines.{NumbersBelow, move_in};

/// The line of a move, read back, gives that move, if each number of a stage, a siding or a cell has at most nine
/// digits.
#[tactic(auto, using(crate::proofs::ReadBack::reading_back))]
pub fn read_back()
    ensures { (mv : AnyMove) → NumbersBelow (10 ^ 9) mv → move_in (move_line mv) ≡ Ok mv }
{}
