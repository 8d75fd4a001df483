//! The guesses that a guess rule keeps.

ghost use Rattle.std.specs.Prelude.{◌≡◌, ◌&&◌, false, not, true};
ghost use Rattle.cf_bind.specs.declared.moves.Move.TheVariants as mv;
ghost use Rattle.cf_bind.specs.declared.passenger.Guess.TheVariants as guess;
ghost use Rattle.cf_layout.specs.Accepted.{is_control};
ghost use Rattle.cf_semantics.specs.moves.Instructions.{is_indirect, kind_of};
ghost use Rattle.cf_index.specs.Allowed.{is_allowed, may_issue};
ghost use Rattle.cf_index.specs.Words.{goes_on as is_going};
ghost use Rattle.cf_index.specs.GuessRules.{guess_at, guess_back, guess_of, is_guess};
ghost use Rattle.run_options.specs.declared.guess_rule.GuessRule.TheVariants as rules;

use crate::plainly::issues_any;
use cf_bind::{Fetch, Guess};
use cf_core::{Core, Issuable};
use run_options::GuessRule;
use rv_inst::Instr;

/// The guess of a branch with this offset: taken if it goes back.
#[inline(always)]
fn guess_back(offset: i32) -> Guess
    ensures { result ≡ guess_back offset }
{
    if offset < 0 {
        Guess::Taken
    } else {
        Guess::Next
    }
}

/// The guess for an instruction if every branch is guessed taken.
#[inline(always)]
#[tactic(auto, unfolding(crate::specs::GuessRules::guess_of))]
fn guess_taken(i: Instr) -> Guess
    ensures { result ≡ guess_of rules.Taken i }
{
    match i {
        Instr::Branch { .. } | Instr::Jal { .. } => Guess::Taken,
        Instr::Jalr { .. } => Guess::Wait,
        _ => Guess::Next,
    }
}

/// The guess for an instruction if the branches that go back are guessed taken.
#[inline(always)]
#[tactic(auto, unfolding(crate::specs::GuessRules::guess_of))]
fn guess_backward(i: Instr) -> Guess
    ensures { result ≡ guess_of rules.Backward i }
{
    match i {
        Instr::Branch { imm, .. } => guess_back(imm),
        _ => guess_taken(i),
    }
}

/// The guess for an instruction if fetch waits after each branch and jump.
#[inline(always)]
#[tactic(auto, unfolding(crate::specs::GuessRules::guess_of))]
fn guess_waiting(i: Instr) -> Guess
    ensures { result ≡ guess_of rules.Wait i }
{
    match i {
        Instr::Branch { .. } | Instr::Jal { .. } | Instr::Jalr { .. } => Guess::Wait,
        _ => Guess::Next,
    }
}

/// The guess of a rule for an instruction.
#[inline(always)]
#[tactic(auto, unfolding(crate::specs::GuessRules::guess_of))]
fn guess_of(rule: GuessRule, i: Instr) -> Guess
    ensures { result ≡ guess_of rule i }
{
    match rule {
        GuessRule::Any | GuessRule::Next => Guess::Next,
        GuessRule::Taken => guess_taken(i),
        GuessRule::Backward => guess_backward(i),
        GuessRule::Wait => guess_waiting(i),
    }
}

/// The guess of a rule for what is at the address of fetch.
#[inline(never)]
#[tactic(auto, unfolding(crate::specs::GuessRules::guess_at))]
fn guess_at(core: &Core, rule: GuessRule) -> Guess
    ensures { result ≡ guess_at rule core.now.plan core.now.state }
{
    match core.fetch() {
        Fetch::Running(pc) => match core.fetched_at(pc) {
            Ok(i) => guess_of(rule, i),
            Err(_) => Guess::Next,
        },
        Fetch::Waiting => Guess::Next,
    }
}

/// Whether the two are the same guess, and not an address.
#[inline(always)]
fn is_guess(a: Guess, b: Guess) -> bool
    ensures { result ≡ is_guess a b }
{
    match a {
        Guess::Next => matches!(b, Guess::Next),
        Guess::Taken => matches!(b, Guess::Taken),
        Guess::Wait => matches!(b, Guess::Wait),
        Guess::To(_) => false,
    }
}

/// Whether the rule keeps every guess.
#[inline(always)]
pub(crate) fn is_any(rule: GuessRule) -> bool
    ensures any { result ≡ true → rule ≡ rules.Any }
    ensures other { result ≡ false → rule ≡ rules.Any → ⊥ }
{
    matches!(rule, GuessRule::Any)
}

/// The same; nothing is decoded for the rule that keeps every guess.
#[inline(always)]
#[tactic(auto, using(crate::proofs::Guided::any_at))]
pub(crate) fn own_guess(core: &Core, rule: GuessRule) -> Guess
    ensures { result ≡ guess_at rule core.now.plan core.now.state }
{
    if is_any(rule) {
        Guess::Next
    } else {
        guess_at(core, rule)
    }
}

/// Of the guesses that an instruction can be issued with, the one of a rule other than `Any`.
#[inline(always)]
#[tactic(auto, using(crate::proofs::Guided::own_kept))]
fn only(core: &Core, rule: GuessRule, issuable: Issuable) -> Issuable
    requires rule { rule ≡ rules.Any → ⊥ }
    requires next { issuable.next ≡ is_allowed core.now.plan core.now.state (mv.Issue guess.Next) }
    requires taken { issuable.taken ≡ is_allowed core.now.plan core.now.state (mv.Issue guess.Taken) }
    requires wait { issuable.wait ≡ is_allowed core.now.plan core.now.state (mv.Issue guess.Wait) }
    ensures next { result.next ≡ may_issue rule core.now.plan core.now.state guess.Next }
    ensures taken { result.taken ≡ may_issue rule core.now.plan core.now.state guess.Taken }
    ensures wait { result.wait ≡ may_issue rule core.now.plan core.now.state guess.Wait }
{
    let guess = guess_at(core, rule);
    Issuable {
        next: issuable.next && is_guess(guess, Guess::Next),
        taken: issuable.taken && is_guess(guess, Guess::Taken),
        wait: issuable.wait && is_guess(guess, Guess::Wait),
    }
}

/// Whether the instruction is a branch or a jump, which can be issued to wait for its outcome.
#[inline(always)]
#[tactic(auto, unfolding(cf_semantics::specs::moves::Instructions::kind_of))]
fn is_turn(i: Instr) -> bool
    ensures { result ≡ is_control (kind_of i) }
{
    matches!(
        i,
        Instr::Branch { .. } | Instr::Jal { .. } | Instr::Jalr { .. }
    )
}

/// Whether it is one that says where it turns to, which can be issued as taken.
#[inline(always)]
#[tactic(auto, unfolding(cf_semantics::specs::moves::Instructions::kind_of, cf_semantics::specs::moves::Instructions::is_indirect))]
fn is_direct_turn(i: Instr) -> bool
    ensures { result ≡ (is_control (kind_of i) && not (is_indirect i)) }
{
    matches!(i, Instr::Branch { .. } | Instr::Jal { .. })
}

/// The guesses, other than an address, that an instruction can be issued with now, where the next word is one of them:
/// the others by what kind of instruction it is.
#[inline(always)]
fn issuable_by_kind(core: &Core) -> Issuable
    requires { is_allowed core.now.plan core.now.state (mv.Issue guess.Next) ≡ true }
    ensures next { result.next ≡ is_allowed core.now.plan core.now.state (mv.Issue guess.Next) }
    ensures taken { result.taken ≡ is_allowed core.now.plan core.now.state (mv.Issue guess.Taken) }
    ensures wait { result.wait ≡ is_allowed core.now.plan core.now.state (mv.Issue guess.Wait) }
{
    match core.fetch() {
        Fetch::Running(pc) => match core.fetched_at(pc) {
            Ok(i) => Issuable {
                next: true,
                taken: is_direct_turn(i),
                wait: is_turn(i),
            },
            Err(_) => Issuable {
                next: true,
                taken: false,
                wait: false,
            },
        },
        Fetch::Waiting => Issuable {
            next: true,
            taken: true,
            wait: true,
        },
    }
}

/// The guesses, other than an address, that an instruction can be issued with now and that the rule keeps, as `guided`
/// has them, given whether the processor goes on. Where the lane has room for whatever an instruction requests, and the rule
/// keeps every guess, the instruction is not put together.
#[inline(always)]
#[tactic(auto, using(crate::proofs::Guided::any_kept))]
pub(crate) fn guided_by_kind(core: &Core, rule: GuessRule, on: bool) -> Issuable
    requires { on ≡ is_going core.now.state }
    ensures next { result.next ≡ may_issue rule core.now.plan core.now.state guess.Next }
    ensures taken { result.taken ≡ may_issue rule core.now.plan core.now.state guess.Taken }
    ensures wait { result.wait ≡ may_issue rule core.now.plan core.now.state guess.Wait }
{
    if is_any(rule) && issues_any(core, on) {
        issuable_by_kind(core)
    } else {
        guided(core, rule)
    }
}

/// The guesses, other than an address, that an instruction can be issued with now and that the rule keeps. Only a branch
/// or a jump, which may be issued to wait, is decoded again for its guess.
#[inline(always)]
#[tactic(auto, using(crate::proofs::Guided::kept))]
pub(crate) fn guided(core: &Core, rule: GuessRule) -> Issuable
    ensures next { result.next ≡ may_issue rule core.now.plan core.now.state guess.Next }
    ensures taken { result.taken ≡ may_issue rule core.now.plan core.now.state guess.Taken }
    ensures wait { result.wait ≡ may_issue rule core.now.plan core.now.state guess.Wait }
{
    let issuable = core.issuable();
    if is_any(rule) {
        issuable
    } else if issuable.wait {
        only(core, rule, issuable)
    } else {
        issuable
    }
}
