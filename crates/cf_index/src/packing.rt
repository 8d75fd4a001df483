//! The words of the candidates of a small processor are computed from the processor.

ghost use Rattle.std.specs.List.{list_any};
ghost use Rattle.std.specs.Prelude.{◌≡◌, ℕ, ◌+◌, ◌*◌, ◌/◌, ◌%◌, ◌^◌, ◌<◌, ◌≤◌, ◌∷◌, ◌++◌, ◌&&◌, ◌||◌, [], IfSome, None, false, filter, nat_lt, true, if◌then◌else◌};
ghost use Rattle.cf_bind.specs.declared.moves.Move.TheVariants as mv;
ghost use Rattle.cf_semantics.specs.moves.Candidates.{slides_from};
ghost use Rattle.cf_semantics.specs.state.Options.{is_some};
ghost use Rattle.cf_semantics.specs.state.State.{siding_at};
ghost use Rattle.cf_core.specs.Masks.{masks_of};
ghost use Rattle.cf_index.specs.Allowed.{all_leaving, all_passing, is_allowed, kept_issues, withheld};
ghost use Rattle.cf_index.specs.Words.{goes_on as is_going};
ghost use Rattle.cf_index.specs.GuessRules.{guided as guided_moves};
ghost use Rattle.cf_index.specs.Listed.{passing_moves, slides_of};
ghost use Rattle.cf_index.specs.Packed.{FitsEight, packed_from, packed_with};
ghost use mir.Val.{bool_byte};

use crate::fill::{passing_words, slides};
use crate::guiding::guided_by_kind;
use crate::idle::are_empty;
use crate::packed::PackedCandidates;
use crate::passing::Passing;
use crate::pipe_ends::{emits_among, end_bits, serves_among};
use crate::plainly::is_lowest_free;
use crate::stages::{goes_on, stages};
use cf_core::{Core, Masks};
use run_options::GuessRule;

/// A flag, followed by the bits of a word.
#[inline(always)]
pub(crate) fn flag_then(flag: bool, rest: u64) -> u64
    requires { rest < 2 ^ 63 }
    ensures { result ≡ bool_byte flag + 2 * rest }
{
    flag as u64 + 2 * rest
}

/// The bits of eight stages, followed by the bits of a word.
#[inline(always)]
fn eight_then(stages: u32, rest: u64) -> u64
    requires stages { stages < 256 }
    requires rest { rest < 2 ^ 56 }
    ensures { result ≡ stages + 256 * rest }
{
    stages as u64 + 256 * rest
}

/// The bits of the moves within the stages, followed by the bits of a word.
#[inline(always)]
#[tactic(auto, using(crate::proofs::PackedWords::passing_parts))]
fn passing_then(passing: &Passing, rest: u64) -> u64
    requires passing { FitsEight passing.now }
    requires rest { rest < 2 ^ 12 }
    ensures moves { packed_from 4 48 (result % 2 ^ 48) ≡ passing_moves passing.now }
    ensures rest { result / 2 ^ 48 ≡ rest }
    ensures bits { result < 2 ^ 60 }
{
    let sends = eight_then(passing.send, eight_then(passing.launch, rest));
    let meets = eight_then(passing.meet, eight_then(passing.execute, sends));
    eight_then(passing.climb, eight_then(passing.fall, meets))
}

/// The bits of the moves by which something leaves, given the number of stages, whether Serve is allowed, and whether it is known
/// that the sidings are empty.
// Where they are, neither Access nor a Recover is allowed.
#[inline(always)]
fn leaving_bits(core: &Core, stages: u32, serve: bool, idle: bool) -> u64
    requires stages { stages ≡ core.now.plan.stages }
    requires serve { serve ≡ is_allowed core.now.plan core.now.state mv.Serve }
    requires few { core.now.plan.stages ≤ 8 }
    requires on { is_going core.now.state ≡ true }
    requires idle { idle ≡ true → (k : ℕ) → list_any is_some (siding_at core.now.state k) ≡ false }
    ensures moves { packed_from 52 12 result ≡ filter (is_allowed core.now.plan core.now.state) (all_leaving core.now.plan) }
    ensures bits { result < 2 ^ 12 }
{
    let masks = core.open_masks();
    let ends = end_bits(core, &masks, stages, serve);
    if idle {
        512 * ends
    } else {
        let access = core.may_access();
        flag_then(access, eight_then(masks.recover, ends))
    }
}

/// The bits of all candidates but Issue and Slide, given the number of stages and the bits of those by which something leaves.
// The masks are read here again, since those that only these moves need would otherwise be kept until now.
#[inline(always)]
fn others(core: &Core, stages: u32, leaves: u64) -> u64
    requires stages { stages ≡ core.now.plan.stages }
    requires few { core.now.plan.stages ≤ 8 }
    requires on { is_going core.now.state ≡ true }
    requires leaves { packed_from 52 12 leaves ≡ filter (is_allowed core.now.plan core.now.state) (all_leaving core.now.plan) }
    requires bits { leaves < 2 ^ 12 }
    ensures stages { packed_from 3 49 (result % 2 ^ 49) ≡ filter (is_allowed core.now.plan core.now.state) (mv.Emit ∷ []) ++ filter (is_allowed core.now.plan core.now.state) (all_passing core.now.plan) }
    ensures leaving { packed_from 52 12 (result / 2 ^ 49) ≡ filter (is_allowed core.now.plan core.now.state) (all_leaving core.now.plan) }
    ensures bits { result < 2 ^ 61 }
{
    let masks = core.open_masks();
    let passes = passing_then(&passing_words(core, &masks, stages, true), leaves);
    flag_then(emits_among(core, &masks, stages), passes)
}

/// The bits of each Issue that the guess rule keeps.
// A call: it is asked for rarely, and what asks for it would be too large to be inlined.
#[inline(never)]
fn issues(core: &Core, rule: GuessRule) -> u64
    requires { is_going core.now.state ≡ true }
    ensures moves { packed_from 0 3 result ≡ kept_issues rule core.now.plan core.now.state }
    ensures bits { result < 8 }
{
    let issuable = guided_by_kind(core, rule, true);
    let wait = flag_then(issuable.taken, issuable.wait as u64);
    flag_then(issuable.next, wait)
}

/// The same; none where Issue is held back and there are other candidates, whose words are given.
// Mostly the lowest stage has an instruction, and nothing else is asked then.
#[inline(always)]
fn unheld_issues(core: &Core, rule: GuessRule, held: bool, others: u64, slides: u64) -> u64
    requires { is_going core.now.state ≡ true }
    ensures moves { packed_from 0 3 result ≡ (if held && (nat_lt 0 others || nat_lt 0 slides) then [] else kept_issues rule core.now.plan core.now.state) }
    ensures bits { result < 8 }
{
    if !is_lowest_free(core) {
        return 0;
    }
    if held && is_any(others, slides) {
        0
    } else {
        issues(core, rule)
    }
}

/// The cells from which Slide is allowed, given whether it is known that the sidings are empty.
#[inline(always)]
fn slides_unless(core: &Core, idle: bool) -> u64
    requires { idle ≡ true → (k : ℕ) → list_any is_some (siding_at core.now.state k) ≡ false }
    ensures { slides_of result ≡ filter (is_allowed core.now.plan core.now.state) (slides_from 0 core.now.plan.sidings) }
{
    if idle { 0 } else { slides(core) }
}

/// Whether either of two words has a bit.
#[inline(always)]
fn is_any(word: u64, other: u64) -> bool
    ensures { result ≡ (nat_lt 0 word || nat_lt 0 other) }
{
    word > 0 || other > 0
}

impl PackedCandidates {
    /// Whether Serve is allowed in a processor that is known to go on, given its number of stages.
    #[inline(always)]
    pub fn may_serve(core: &Core, stages: u32) -> bool
        requires stages { stages ≡ core.now.plan.stages }
        requires on { is_going core.now.state ≡ true }
        ensures { result ≡ is_allowed core.now.plan core.now.state mv.Serve }
    {
        serves_among(core, stages)
    }

    /// The moves that are allowed now, of a processor that is known to go on, and that the guess rule keeps, with Issue held back
    /// or not. The number of stages is given, and whether Serve is allowed.
    #[inline(always)]
    pub fn open(
        core: &Core,
        stages: u32,
        serve: bool,
        rule: GuessRule,
        held: bool,
    ) -> PackedCandidates
        requires stages { stages ≡ core.now.plan.stages }
        requires few { stages ≤ 8 }
        requires on { is_going core.now.state ≡ true }
        requires serve { serve ≡ is_allowed core.now.plan core.now.state mv.Serve }
        ensures { result ≡ withheld held (guided_moves rule core.now.plan core.now.state) }
    {
        let idle = are_empty(core);
        let leaves = leaving_bits(core, stages, serve, idle);
        let slides = slides_unless(core, idle);
        let others = others(core, stages, leaves);
        let issues = unheld_issues(core, rule, held, others, slides);
        PackedCandidates {
            word: issues + 8 * others,
            slides,
        }
    }

    /// The moves that are allowed now and that the guess rule keeps, with Issue held back or not. There is no answer
    /// where the processor does not go on, or its layout has more than eight stages.
    #[inline(always)]
    pub fn of(core: &Core, rule: GuessRule, held: bool) -> Option<PackedCandidates>
        ensures offered { IfSome result (λ packed. packed ≡ withheld held (guided_moves rule core.now.plan core.now.state)) }
        ensures fits { result ≡ None → is_going core.now.state ≡ true → core.now.plan.stages ≤ 8 → ⊥ }
    {
        let stages = stages(core);
        if !goes_on(core) || 8 < stages {
            return None;
        }
        let serve = serves_among(core, stages);
        Some(PackedCandidates::open(core, stages, serve, rule, held))
    }
}
