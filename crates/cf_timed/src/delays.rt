//! How many ticks each kind of move takes.

ghost use Rattle.std.specs.Prelude.{◌≡◌, ◌<◌, ◌≤◌, All, IfSome, None};
ghost use Rattle.cf_index.specs.Order.{kind_place};
ghost use Rattle.cf_timed.specs.Delays.{AreDelays, IsSpan, class_slot, middles_of, slot_of, span_count, span_of};
ghost use Rattle.cf_timed.specs.Drawing.{ticks_in};
ghost use Rattle.cf_timed.specs.DelayLines.{filled, kind_of_slot, span_told};

use crate::span::Span;
use cf_bind::Move;
use rv_inst::Class;
use std::marker::Model;

/// The delays of a timed run: for each kind of move, and for each class of what is executed, launched or recovered, a
/// range of ticks. Contracts see them as a function from a move and a class to its range, `span_of`.
#[derive(Clone, Copy)]
pub struct Delays {
    spans: [Span; 41],
    /// The middle of each range.
    middles: [u64; 41],
}

impl Model for Delays {
    ghost use Rattle.std.specs.Prelude.{◌≡◌, List};
    ghost use Rattle.std.proofs.Common.{ap, sym};
    ghost use Rattle.cf_timed.specs.Delays.{AreDelays, middles_of};
    ghost use Rattle.cf_timed.specs.declared.span.Span.{Span};

    ghost Value = { List Span };

    ghost view = { λ d. d.spans };

    ghost invariant = { λ d. AreDelays d.spans × (d.middles ≡ middles_of d.spans) };

    ghost inverse = { λ spans. record { spans = spans; middles = middles_of spans } };

    ghost inverse_ok = { λ d h. ap (λ middles. record { spans = d.spans; middles = middles }) (sym h.1) };
}

/// The index of the move's kind among the kinds.
#[inline(always)]
pub fn kind_place(mv: Move) -> usize
    ensures place { result ≡ kind_place mv }
    ensures within { result < 14 }
{
    match mv {
        Move::Issue(_) => 0,
        Move::Emit => 1,
        Move::Climb(_) => 2,
        Move::Fall(_) => 3,
        Move::Meet(_) => 4,
        Move::Execute(_) => 5,
        Move::Send(_) => 6,
        Move::Launch(_) => 7,
        Move::Slide(_, _) => 8,
        Move::Access => 9,
        Move::Recover(_) => 10,
        Move::Leave => 11,
        Move::Exit => 12,
        Move::Serve => 13,
    }
}

/// The index of the range for a class: `first` is that of the first class of its kind; a class that is not computed has
/// that of the kind.
#[inline(always)]
pub(crate) fn class_slot(kind: usize, first: usize, class: Class) -> usize
    requires { first ≤ 32 }
    ensures slot { result ≡ class_slot kind first class }
    ensures within { kind < 14 → result < span_count }
{
    match class {
        Class::Add => first,
        Class::Logic => first + 1,
        Class::Shift => first + 2,
        Class::Compare => first + 3,
        Class::Branch => first + 4,
        Class::Jump => first + 5,
        Class::Memory => first + 6,
        Class::Mul => first + 7,
        Class::Div => first + 8,
        Class::Serial | Class::Free => kind,
    }
}

/// The index of the range of the move.
#[inline(always)]
fn slot_of(mv: Move, class: Class) -> usize
    ensures slot { result ≡ slot_of mv class }
    ensures within { result < span_count }
{
    match mv {
        Move::Execute(_) => class_slot(5, 14, class),
        Move::Launch(_) => class_slot(7, 23, class),
        Move::Recover(_) => class_slot(10, 32, class),
        Move::Issue(_)
        | Move::Emit
        | Move::Climb(_)
        | Move::Fall(_)
        | Move::Meet(_)
        | Move::Send(_)
        | Move::Slide(_, _)
        | Move::Access
        | Move::Leave
        | Move::Exit
        | Move::Serve => kind_place(mv),
    }
}

/// The kind to which the range at an index belongs.
fn kind_of_slot(slot: usize) -> usize
    requires { slot < span_count }
    ensures kind { result ≡ kind_of_slot slot }
    ensures within { result < 14 }
{
    if slot < 14 {
        slot
    } else if slot < 23 {
        5
    } else if slot < 32 {
        7
    } else {
        10
    }
}

/// The range at an index: the one given for it, otherwise the one given for its kind, otherwise one tick.
#[tactic(auto, unfolding(crate::specs::DelayLines::span_told))]
fn span_told(told: &[Option<Span>; 41], slot: usize) -> Span
    requires within { slot < span_count }
    requires spans { All (λ span. IfSome span IsSpan) told.now }
    ensures span { result ≡ span_told told.now slot }
    ensures is_span { IsSpan result }
{
    match told[slot] {
        Some(span) => span,
        None => told[kind_of_slot(slot)].unwrap_or(Span::one_tick()),
    }
}

/// The middle of each range.
#[tactic(auto, unfolding(crate::specs::Delays::middles_of))]
fn middles_of(spans: &[Span; 41]) -> [u64; 41]
    requires { All IsSpan spans.now }
    ensures { result ≡ middles_of spans.now }
{
    let mut middles = [0; 41];
    for slot in 0..41 {
        middles[slot] = u64::from(spans[slot].ticks(None));
    }
    middles
}

impl Delays {
    /// The delays that were given. A class for which none was given has that of its kind, and a kind for which none was
    /// given takes one tick.
    #[tactic(auto, unfolding(crate::specs::DelayLines::filled))]
    pub(crate) fn filled(told: &[Option<Span>; 41]) -> Delays
        requires { All (λ span. IfSome span IsSpan) told.now }
        ensures { result ≡ filled told.now }
    {
        let mut spans = [Span::one_tick(); 41];
        for slot in 0..41 {
            spans[slot] = span_told(told, slot);
        }
        let middles = middles_of(&spans);
        Delays { spans, middles }
    }

    /// Invariant: each range is within 1 to 1,000 ticks. The function does nothing.
    pub fn known(&self)
        ensures { AreDelays self.now }
    {
        let _ = &self.spans;
    }

    /// How many ticks the move takes, if the instruction that it executes, launches or recovers has this class.
    #[inline(always)]
    #[tactic(auto, unfolding(crate::specs::Delays::span_of))]
    pub fn of(&self, mv: Move, class: Class) -> Span
        ensures span { result ≡ span_of self.now mv class }
        ensures is_span { IsSpan result }
    {
        self.spans[slot_of(mv, class)]
    }

    /// The middle of that range.
    #[inline(always)]
    #[tactic(auto, unfolding(crate::specs::Delays::span_of))]
    pub(crate) fn middle(&self, mv: Move, class: Class) -> u64
        ensures middle { result ≡ ticks_in (span_of self.now mv class) None }
        ensures few { result ≤ 1000 }
    {
        self.middles[slot_of(mv, class)]
    }
}
