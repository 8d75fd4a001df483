//! The source of the commands, and what may still be taken from it.

ghost use Rattle.std.specs.Prelude.{◌≡◌, ◌==◌, ◌-◌, false, length, IfOk, OnErr};
ghost use Rattle.cf_io.specs.Causes.{HasCause};
ghost use Rattle.cf_io.specs.Takes.{Takes};
ghost use Rattle.cf_debug.specs.Limits.{most_bytes, room_for};

use cf_io::{Failed, Source};

/// How many bytes of commands may be taken.
const MOST_BYTES: usize = 16_777_216;

/// The source of the commands, how many of its bytes may still be taken, and whether its end was seen: a take that gave
/// none. Only `take` reaches the source, so that no bytes are taken otherwise.
#[derive(Drop)]
pub(crate) struct CommandSource<'a, S: Source> {
    inner: &'a mut S,
    left: usize,
    ended: bool,
}

impl<'a, S: Source> CommandSource<'a, S> {
    /// A source of which nothing was taken.
    pub(crate) fn new(inner: &'a mut S) -> CommandSource<'a, S>
        ensures same { result.inner.ghost_name ≡ inner.entry.ghost_name }
        ensures now { result.inner.now ≡ inner.old }
        ensures left { result.left ≡ most_bytes }
        ensures ended { result.ended ≡ false }
    {
        CommandSource {
            inner,
            left: MOST_BYTES,
            ended: false,
        }
    }

    /// How many bytes may still be taken.
    pub(crate) fn left(&self) -> usize
        ensures { result ≡ self.now.left }
    {
        self.left
    }

    /// Takes bytes of the commands, and returns how many. It asks for 4,096, or for as many as may still be taken; if
    /// none may, for one, to see whether there are more. After the end was seen it asks for none: at a terminal, the
    /// user would have to give the end of the input a second time.
    pub(crate) fn take(&mut self, into: &mut [u8]) -> Result<usize, Failed>
        requires going { self.old.ended ≡ false }
        requires asks { length into.old ≡ room_for self.old.left }
        ensures same { self.new.inner.ghost_name ≡ self.old.inner.ghost_name }
        ensures bytes { Takes (S.left self.old.inner.now) (S.left self.new.inner.now) into.old into.new result }
        ensures left { IfOk result (λ count. self.new.left ≡ self.old.left - count) }
        ensures ended { IfOk result (λ count. self.new.ended ≡ (count == 0)) }
        ensures failed_left { OnErr result (self.new.left ≡ self.old.left) }
        ensures failed_ended { OnErr result (self.new.ended ≡ self.old.ended) }
        ensures cause { HasCause (S.faults self.old.inner.now) (S.faults self.new.inner.now) result }
    {
        let count = self.inner.take(into)?;
        self.left = self.left.saturating_sub(count);
        self.ended = count == 0;
        Ok(count)
    }
}
