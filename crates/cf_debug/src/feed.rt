//! The bytes of the commands, one after another.

ghost use Rattle.std.specs.Prelude.{◌≡◌, ◌==◌, ◌<◌, ◌≤◌, ◌+◌, [], ◌∷◌, length, min, false, true, IfOk, OnErr, OnOk};
ghost use Rattle.cf_io.specs.Causes.{HasCause};
ghost use Rattle.cf_io.specs.Takes.{IsAtEnd};
ghost use Rattle.rv_machine.specs.Streams.{GivesInput};
ghost use Rattle.cf_debug.specs.Cutting.{Feeds, commands_fed, feeding};
ghost use Rattle.cf_debug.specs.Limits.{most_taken, room_for};

use crate::command_source::CommandSource;
use cf_io::{Failed, Source};
use std::marker::Model;

/// The next of the commands' bytes, or why there is none.
#[derive(Clone, Copy)]
pub(crate) enum Next {
    /// A byte.
    Byte(u8),

    /// Nothing: the commands are at their end.
    AtEnd,

    /// As many bytes were taken as the limit allows, and there are more.
    TooMany,

    /// A take failed.
    Fault,
}

/// The bytes of the commands that were taken and not used yet.
#[derive(Drop)]
pub(crate) struct Feed {
    piece: [u8; 4096],
    at: usize,
    end: usize,
}

impl Model for Feed {
    ghost use Rattle.std.specs.Prelude.{ℕ, List, ◌≤◌, drop, take};

    ghost Value = { List ℕ };

    ghost view = { λ feed. drop feed.at (take feed.end feed.piece) };

    ghost invariant = { λ feed. (feed.at ≤ feed.end) × (feed.end ≤ 4096) };
}

/// How many bytes a take asks for if this many may still be taken.
fn room(left: usize) -> usize
    requires { 0 < left }
    ensures asks { result ≡ room_for left }
    ensures within { result ≤ left }
    ensures few { result ≤ most_taken }
{
    left.min(4096)
}

impl Feed {
    /// A feed that has taken nothing.
    pub(crate) fn new() -> Feed
        ensures { result ≡ [] }
    {
        Feed {
            piece: [0; 4096],
            at: 0,
            end: 0,
        }
    }

    /// Takes some bytes, if none is left in the buffer, and returns how many.
    fn fill<S: Source>(&mut self, commands: &mut CommandSource<'_, S>) -> Result<usize, Failed>
        requires none { self.old ≡ [] }
        requires some { 0 < commands.old.left }
        requires going { commands.old.ended ≡ false }
        ensures same { commands.new.inner.ghost_name ≡ commands.old.inner.ghost_name }
        ensures taken { OnOk result (GivesInput (S.left commands.old.inner.now) (S.left commands.new.inner.now) self.new) }
        ensures count { IfOk result (λ count. count ≡ length self.new) }
        ensures left { OnOk result (commands.new.left + length self.new ≡ commands.old.left) }
        ensures few { OnOk result (length self.new ≤ most_taken) }
        ensures end { IfOk result (λ count. count ≡ 0 → IsAtEnd (S.left commands.old.inner.now)) }
        ensures ended { IfOk result (λ count. commands.new.ended ≡ (count == 0)) }
        ensures failed { OnErr result ((feeding self.new commands.new ≡ feeding self.old commands.old)
            × GivesInput (S.left commands.old.inner.now) (S.left commands.new.inner.now) []) }
        ensures cause { HasCause (S.faults commands.old.inner.now) (S.faults commands.new.inner.now) result }
    {
        let room = room(commands.left());
        match commands.take(&mut self.piece[..room]) {
            Ok(count) => {
                self.at = 0;
                self.end = count;
                Ok(count)
            }
            Err(failed) => Err(failed),
        }
    }

    /// Takes one byte beyond the limit, to see whether there is one.
    #[tactic(auto, unfolding(crate::specs::Cutting::Feeds))]
    fn one_more<S: Source>(&self, commands: &mut CommandSource<'_, S>) -> Next
        requires none { self.now ≡ [] }
        requires spent { commands.old.left ≡ 0 }
        requires going { commands.old.ended ≡ false }
        ensures same { commands.new.inner.ghost_name ≡ commands.old.inner.ghost_name }
        ensures feeds { Feeds (S.left commands.old.inner.now) (S.left commands.new.inner.now)
            (feeding self.now commands.old) (feeding self.now commands.new) result }
        ensures cause { HasCause (S.faults commands.old.inner.now) (S.faults commands.new.inner.now) (commands_fed result) }
    {
        let mut byte = [0];
        match commands.take(&mut byte) {
            Ok(0) => Next::AtEnd,
            Ok(_) => Next::TooMany,
            Err(_) => Next::Fault,
        }
    }

    /// The next byte that was taken.
    #[tactic(auto, using(crate::proofs::Cutting::few_after))]
    fn use_byte(&mut self) -> u8
        requires { 0 < length self.old }
        ensures byte { self.old ≡ result ∷ self.new }
        ensures few { length self.new < most_taken }
    {
        let byte = self.piece[self.at];
        self.at += 1;
        byte
    }

    /// Whether no byte that was taken is left.
    #[tactic(auto, using(crate::proofs::Cutting::nothing_after, crate::proofs::Cutting::something_after))]
    fn is_used(&self) -> bool
        ensures yes { result ≡ true → self.now ≡ [] }
        ensures no { result ≡ false → 0 < length self.now }
    {
        self.at == self.end
    }

    /// The next byte of the commands, or why there is none. Bytes are taken only if none is left in the buffer: a take
    /// asks for 4,096 of them, or for as many as may still be taken. It asks for the end once.
    pub(crate) fn next<S: Source>(&mut self, commands: &mut CommandSource<'_, S>) -> Next
        requires going { commands.old.ended ≡ false }
        ensures same { commands.new.inner.ghost_name ≡ commands.old.inner.ghost_name }
        ensures feeds { Feeds (S.left commands.old.inner.now) (S.left commands.new.inner.now)
            (feeding self.old commands.old) (feeding self.new commands.new) result }
        ensures cause { HasCause (S.faults commands.old.inner.now) (S.faults commands.new.inner.now) (commands_fed result) }
    {
        if !self.is_used() {
            return Next::Byte(self.use_byte());
        }
        if commands.left() == 0 {
            return self.one_more(commands);
        }
        match self.fill(commands) {
            Ok(0) => Next::AtEnd,
            Ok(_) => Next::Byte(self.use_byte()),
            Err(_) => Next::Fault,
        }
    }
}
