//! The first line of a group, which names a move.

ghost use Rattle.std.specs.Prelude.{◌≡◌, ◌++◌, ◌↔◌, IsTrue, MatchOption, List, ℕ};
ghost use Rattle.cf_bind.specs.declared.moves.Move.{Move as AnyMove};
ghost use Rattle.cf_bind.specs.MoveTexts.{move_line};
ghost use Rattle.cf_audit.specs.Lines.{move_front, IsFirstLine, IsMoveLine};
ghost use Rattle.cf_audit.specs.Traces.{BeginsWithMove};

use cf_bind::{Move, MoveLine, move_text};
use cf_report::move_number;
use run_scripts::read_move;
use rv_text::find_byte;

/// What comes after a prefix, if the text begins with that prefix.
fn after<'a>(text: &'a [u8], front: &[u8]) -> Option<&'a [u8]>
    ensures { MatchOption result ((rest : List ℕ) → text.now ≡ front.now ++ rest → ⊥)
        (λ rest. text.now ≡ front.now ++ rest.now) }
{
    text.strip_prefix(front)
}

/// What comes after `move ` and the number, if the text begins with them.
fn after_number(text: &[u8], n: u64) -> Option<&[u8]>
    ensures { MatchOption result ((rest : List ℕ) → text.now ≡ move_front n ++ rest → ⊥)
        (λ rest. text.now ≡ move_front n ++ rest.now) }
{
    let front = move_number(n);
    after(text, front.bytes())
}

/// The text before the first line feed.
fn first_line(text: &[u8]) -> Option<&[u8]>
    ensures { MatchOption result ((line : List ℕ) → IsFirstLine text.now line → ⊥) (λ line. IsFirstLine text.now line.now) }
{
    let end = find_byte(text, b'\n');
    if end < text.len() {
        Some(&text[..end])
    } else {
        None
    }
}

/// Whether this is the line that is written for a move.
fn is_line_of(line: &[u8], mv: Move) -> bool
    ensures { IsTrue result ↔ (line.now ≡ move_line mv) }
{
    let mut written = MoveLine::new();
    move_text(mv, &mut written);
    written.bytes() == line
}

/// The move that is read in a line, if the line is the one that is written for it.
fn move_of(line: &[u8]) -> Option<Move>
    ensures { MatchOption result ((mv : AnyMove) → IsMoveLine line.now mv → ⊥) (λ mv. IsMoveLine line.now mv) }
{
    let mv = read_move(line).ok()?;
    if is_line_of(line, mv) { Some(mv) } else { None }
}

/// The move with which the text begins: its first line is that of the `n`th move.
pub(crate) fn recorded_move(text: &[u8], n: u64) -> Option<Move>
    ensures { MatchOption result ((mv : AnyMove) → BeginsWithMove text.now n mv → ⊥) (λ mv. BeginsWithMove text.now n mv) }
{
    move_of(first_line(after_number(text, n)?)?)
}
