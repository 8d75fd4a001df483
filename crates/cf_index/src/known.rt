//! Moves that are known to be allowed from the words and flags from which the candidates are made.

ghost use Rattle.std.specs.Prelude.{◌≡◌, ◌-◌, ◌<◌, true, None};
ghost use Rattle.cf_layout.specs.Words.{has_bit as is_bit_set};
ghost use Rattle.cf_semantics.specs.moves.Bars.{bar};

use crate::stages::{climbs, executes, falls, goes_on, launches, meets, sends};
use cf_bind::Move;
use cf_core::Core;
use cf_stages::has_bit;

/// Whether the word has the bit of this stage; it has none of a stage that no layout has.
#[inline(always)]
fn has_stage(word: u32, i: u32) -> bool
    ensures above { result ≡ true → 0 < i }
    ensures set { result ≡ true → is_bit_set word (i - 1) ≡ true }
{
    i != 0 && i <= 32 && has_bit(word, i)
}

/// Whether a move is known to be allowed, without the tests of its row in the table of moves. A move over the stages is
/// known from the word of its kind, and a move by which something enters or leaves from its flag; nothing is known of
/// an Issue, a Slide or a Serve.
#[inline(always)]
#[tactic(auto, using(crate::proofs::KnownMoves::knowing))]
pub fn is_known_allowed(core: &Core, mv: Move) -> bool
    ensures { result ≡ true → bar core.now.plan core.now.state mv ≡ None }
{
    let masks = core.masks();
    match mv {
        Move::Climb(i) => has_stage(climbs(core, &masks, goes_on(core)), i),
        Move::Fall(i) => has_stage(falls(core, &masks, goes_on(core)), i),
        Move::Meet(i) => has_stage(meets(core, &masks, goes_on(core)), i),
        Move::Execute(i) => has_stage(executes(core, &masks), i),
        Move::Send(i) => has_stage(sends(core, &masks, goes_on(core)), i),
        Move::Launch(i) => has_stage(launches(core, &masks), i),
        Move::Recover(i) => has_stage(masks.recover, i),
        Move::Emit => core.may_emit(),
        Move::Access => core.may_access(),
        Move::Leave => core.may_leave(),
        Move::Exit => core.may_exit(),
        Move::Issue(_) | Move::Slide(_, _) | Move::Serve => false,
    }
}
