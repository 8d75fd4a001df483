//! The script of a list of moves.
#![tactic(auto, unfolding(crate::specs::OrderTexts::script_text))]

ghost use Rattle.std.specs.Prelude.{◌≡◌, ◌++◌, IfOk, OnOk};
ghost use Rattle.texts.specs.Lines.{line as line_of};
ghost use Rattle.cf_bind.specs.MoveTexts.{move_line};
ghost use Rattle.cli_orders.specs.OrderTexts.{script_text};

use cf_bind::{Move, MoveLine, move_text};
use std::alloc::{AllocError, Global};

/// Appends the line of a move.
pub(crate) fn push_move(text: &mut Vec<u8>, m: Move) -> Result<(), AllocError>
    ensures { OnOk result (text.new.items ≡ text.old.items ++ line_of (move_line m)) }
{
    let mut line = MoveLine::new();
    move_text(m, &mut line);
    text.extend_from_slice(line.bytes())?;
    text.push(b'\n')?;
    Ok(())
}

/// The moves, a line each.
pub(crate) fn script_of(alloc: Global, moves: &[Move]) -> Result<Vec<u8>, AllocError>
    ensures { IfOk result (λ text. text.items ≡ script_text moves.now) }
{
    let mut text = Vec::new(alloc);
    for m in moves {
        push_move(&mut text, *m)?;
    }
    Ok(text)
}
