//! Reading a script, line by line.

ghost use Rattle.std.specs.Prelude.{◌≡◌, ◌+◌, ◌<◌, ◌≤◌, ◌^◌, ℕ, IfSome, Ok, length};
ghost use Rattle.rv_text.specs.Lines.{text_lines};
ghost use Rattle.run_scripts.specs.Limits.{most_script};
ghost use Rattle.run_scripts.specs.Scripts.{is_skipped, script_of, next_of, after_next, told_by, told_from};

use crate::reading::read_move;
use crate::refusal::ScriptErr;
use crate::usual::cut_move;
use crate::words::Words;
use cf_bind::Move;
use rv_text::cut_line;
use std::marker::Model;

/// The maximum length of a script's text, in bytes.
pub const MOST_SCRIPT: usize = 16_777_216;

/// A script over a borrowed text. Contracts see it as the rest of it: the moves, and the refusal or the end after them.
#[derive(Drop)]
pub struct Script<'a> {
    /// The number of lines that have been read.
    above: u32,

    /// The text after them.
    rest: &'a [u8],
}

impl<'a> Model for Script<'a> {
    ghost use Rattle.std.specs.Prelude.{◌+◌, ◌≤◌, length};
    ghost use Rattle.rv_text.specs.Lines.{text_lines};
    ghost use Rattle.run_scripts.specs.Limits.{most_script};
    ghost use Rattle.run_scripts.specs.Scripts.{ScriptLines, told_from};

    ghost Value = { ScriptLines };

    ghost view = { λ script. told_from script.above (text_lines script.rest.now) };

    ghost invariant = { λ script. script.above + length script.rest.now ≤ most_script };
}

/// Whether a line is a comment or has no words.
#[tactic(auto, unfolding(crate::specs::Scripts::is_skipped))]
pub fn is_skipped(line: &[u8]) -> bool
    ensures { result ≡ is_skipped line.now }
{
    line.starts_with(b"#") || Words::of(line).is_empty()
}

/// The move of the first line of a text, as `write_move` writes it, and the text after the line.
#[inline(always)]
fn cut_written(text: &[u8]) -> Option<(Move, &[u8])>
    ensures says { IfSome result (λ cut. (above : ℕ) → told_from above (text_lines text.now)
        ≡ told_by (above + 1) (Ok cut.0) (told_from (above + 1) (text_lines cut.1.now))) }
    ensures shorter { IfSome result (λ cut. length cut.1.now < length text.now) }
{
    let (mv, rest) = cut_move(text)?;
    match rest {
        [b'\n', after @ ..] => Some((mv, after)),
        _ => None,
    }
}

impl<'a> Script<'a> {
    /// The script of a text.
    #[tactic(auto, unfolding(crate::specs::Scripts::script_of))]
    pub fn view(text: &'a [u8]) -> Script<'a>
        requires { length text.now ≤ most_script }
        ensures { result ≡ script_of text.now }
    {
        Script {
            above: 0,
            rest: text,
        }
    }

    /// The same as `next`, whatever the lines are.
    #[inline(never)]
    #[tactic(auto, using(crate::proofs::Counted::counting))]
    fn next_line(&mut self) -> Result<Option<(u32, Move)>, ScriptErr>
        ensures next { result ≡ next_of self.old }
        ensures left { self.new ≡ after_next self.old }
        ensures few { length self.old.moves < 2 ^ 25 }
    {
        while !self.rest.is_empty() {
            let (line, after) = cut_line(self.rest);
            let number = self.above + 1;
            if !is_skipped(line) {
                let mv = read_move(line).map_err(|kind| ScriptErr { line: number, kind })?;
                self.above = number;
                self.rest = after;
                return Ok(Some((number, mv)));
            }
            self.above = number;
            self.rest = after;
        }
        Ok(None)
    }

    /// The next move with its line, counted from 1; `None` if and only if the script is at its end. After a refusal
    /// each later call returns the same.
    #[inline(always)]
    #[tactic(auto, using(crate::proofs::Counted::counting))]
    pub fn next(&mut self) -> Result<Option<(u32, Move)>, ScriptErr>
        ensures next { result ≡ next_of self.old }
        ensures left { self.new ≡ after_next self.old }
        ensures few { length self.old.moves < 2 ^ 25 }
    {
        match cut_written(self.rest) {
            Some((mv, after)) => {
                self.above += 1;
                self.rest = after;
                Ok(Some((self.above, mv)))
            }
            None => self.next_line(),
        }
    }
}
