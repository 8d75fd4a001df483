//! Lines as `write_move` writes them, read byte by byte without looking for words.

ghost use Rattle.std.specs.Prelude.{◌≡◌, [], ◌∷◌, ◌++◌, ◌<◌, ◌^◌, IfSome, codes, decimal};
ghost use Rattle.cf_bind.specs.MoveTexts.{guess_text, move_line};
ghost use Rattle.run_scripts.specs.Kinds.{name_of};
ghost use Rattle.run_scripts.specs.MoveLines.{NumbersBelow};

use crate::kind::Kind;
use cf_bind::{Guess, Move};

/// The kind whose name a text begins with, and the text after the name.
// The names of the most frequent moves are compared first.
#[inline(always)]
fn cut_name(text: &[u8]) -> Option<(Kind, &[u8])>
    ensures { IfSome result (λ cut. text.now ≡ name_of cut.0 ++ cut.1.now) }
{
    match text {
        [b'c', b'l', b'i', b'm', b'b', rest @ ..] => Some((Kind::Climb, rest)),
        [b'f', b'a', b'l', b'l', rest @ ..] => Some((Kind::Fall, rest)),
        [b'm', b'e', b'e', b't', rest @ ..] => Some((Kind::Meet, rest)),
        [b'e', b'x', b'i', b't', rest @ ..] => Some((Kind::Exit, rest)),
        [b'i', b's', b's', b'u', b'e', rest @ ..] => Some((Kind::Issue, rest)),
        [b'l', b'e', b'a', b'v', b'e', rest @ ..] => Some((Kind::Leave, rest)),
        [b'e', b'm', b'i', b't', rest @ ..] => Some((Kind::Emit, rest)),
        [b'e', b'x', b'e', b'c', b'u', b't', b'e', rest @ ..] => Some((Kind::Execute, rest)),
        [b's', b'e', b'n', b'd', rest @ ..] => Some((Kind::Send, rest)),
        [b'l', b'a', b'u', b'n', b'c', b'h', rest @ ..] => Some((Kind::Launch, rest)),
        [b'r', b'e', b'c', b'o', b'v', b'e', b'r', rest @ ..] => Some((Kind::Recover, rest)),
        [b's', b'l', b'i', b'd', b'e', rest @ ..] => Some((Kind::Slide, rest)),
        [b'a', b'c', b'c', b'e', b's', b's', rest @ ..] => Some((Kind::Access, rest)),
        [b's', b'e', b'r', b'v', b'e', rest @ ..] => Some((Kind::Serve, rest)),
        _ => None,
    }
}

/// The number of one digit.
#[inline(always)]
#[tactic(auto, using(crate::proofs::Digits::decimals))]
fn one_digit(ones: u8) -> Option<u32>
    ensures digits { IfSome result (λ n. decimal n ≡ ones ∷ []) }
    ensures below { IfSome result (λ n. n < 10 ^ 9) }
{
    match ones {
        b'0'..=b'9' => Some((ones - b'0') as u32),
        _ => None,
    }
}

/// The number of two digits, the first of which is not zero.
#[inline(always)]
#[tactic(auto, using(crate::proofs::Digits::decimals))]
fn two_digits(tens: u8, ones: u8) -> Option<u32>
    ensures digits { IfSome result (λ n. decimal n ≡ tens ∷ ones ∷ []) }
    ensures below { IfSome result (λ n. n < 10 ^ 9) }
{
    match (tens, ones) {
        (b'1'..=b'9', b'0'..=b'9') => Some((tens - b'0') as u32 * 10 + (ones - b'0') as u32),
        _ => None,
    }
}

/// The number below 100 that a text begins with, without a leading zero, and the text after it.
#[inline(always)]
fn cut_digits(text: &[u8]) -> Option<(u32, &[u8])>
    ensures text { IfSome result (λ cut. text.now ≡ decimal cut.0 ++ cut.1.now) }
    ensures below { IfSome result (λ cut. cut.0 < 10 ^ 9) }
{
    let [first, after @ ..] = text else {
        return None;
    };
    if let [second, rest @ ..] = after {
        if let Some(number) = two_digits(*first, *second) {
            return Some((number, rest));
        }
    }
    Some((one_digit(*first)?, after))
}

/// The number below 100 that a text begins with after a space, and the text after it.
#[inline(always)]
fn cut_number(text: &[u8]) -> Option<(u32, &[u8])>
    ensures text { IfSome result (λ cut. text.now ≡ codes " " ++ decimal cut.0 ++ cut.1.now) }
    ensures below { IfSome result (λ cut. cut.0 < 10 ^ 9) }
{
    match text {
        [b' ', rest @ ..] => cut_digits(rest),
        _ => None,
    }
}

/// The guess that a text begins with after a space, and the text after it; `None` for an address.
#[inline(always)]
fn cut_guess(text: &[u8]) -> Option<(Guess, &[u8])>
    ensures text { IfSome result (λ cut. text.now ≡ codes " " ++ guess_text cut.0 ++ cut.1.now) }
    ensures below { IfSome result (λ cut. NumbersBelow (10 ^ 9) (Move.Issue cut.0)) }
{
    match text {
        [b' ', b'n', b'e', b'x', b't', rest @ ..] => Some((Guess::Next, rest)),
        [b' ', b't', b'a', b'k', b'e', b'n', rest @ ..] => Some((Guess::Taken, rest)),
        [b' ', b'w', b'a', b'i', b't', rest @ ..] => Some((Guess::Wait, rest)),
        _ => None,
    }
}

/// The move of a kind that has only a stage, at this stage.
#[inline(always)]
#[tactic(auto, unfolding(cf_bind::specs::MoveTexts::move_line))]
fn at_stage(kind: Kind, stage: u32) -> Option<Move>
    requires { stage < 10 ^ 9 }
    ensures line { IfSome result (λ mv. move_line mv ≡ name_of kind ++ codes " " ++ decimal stage) }
    ensures below { IfSome result (NumbersBelow (10 ^ 9)) }
{
    match kind {
        Kind::Climb => Some(Move::Climb(stage)),
        Kind::Fall => Some(Move::Fall(stage)),
        Kind::Meet => Some(Move::Meet(stage)),
        Kind::Execute => Some(Move::Execute(stage)),
        Kind::Send => Some(Move::Send(stage)),
        Kind::Launch => Some(Move::Launch(stage)),
        Kind::Recover => Some(Move::Recover(stage)),
        _ => None,
    }
}

/// The move whose line a text begins with, and the text after it; `None` also for some moves, with an address or a
/// larger number.
#[inline(always)]
#[tactic(auto, unfolding(cf_bind::specs::MoveTexts::move_line))]
pub(crate) fn cut_move(text: &[u8]) -> Option<(Move, &[u8])>
    ensures text { IfSome result (λ cut. text.now ≡ move_line cut.0 ++ cut.1.now) }
    ensures below { IfSome result (λ cut. NumbersBelow (10 ^ 9) cut.0) }
{
    let (kind, rest) = cut_name(text)?;
    match kind {
        Kind::Emit => Some((Move::Emit, rest)),
        Kind::Access => Some((Move::Access, rest)),
        Kind::Leave => Some((Move::Leave, rest)),
        Kind::Exit => Some((Move::Exit, rest)),
        Kind::Serve => Some((Move::Serve, rest)),
        Kind::Issue => {
            let (guess, rest) = cut_guess(rest)?;
            Some((Move::Issue(guess), rest))
        }
        Kind::Slide => {
            let (siding, rest) = cut_number(rest)?;
            let (cell, rest) = cut_number(rest)?;
            Some((Move::Slide(siding, cell), rest))
        }
        _ => {
            let (stage, rest) = cut_number(rest)?;
            Some((at_stage(kind, stage)?, rest))
        }
    }
}
