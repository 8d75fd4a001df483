//! A sink that compares what is written to it with a text.

ghost use Rattle.std.specs.Prelude.{◌≡◌, ◌≤◌, ◌↔◌, IsTrue, None, Some, drop, false, true, length};
ghost use Rattle.cf_io.specs.Causes.{HasCause};
ghost use Rattle.cf_io.specs.Puts.{Puts};
ghost use Rattle.cf_audit.specs.Compared.{fresh_comparison, exposed_by_sink, HasOther, AllAgrees};

use crate::common::{byte_at, common};
use cf_io::{Failed, Sink};
use std::marker::Model;

/// A sink that accepts bytes while they agree with a text, and then the first byte that differs or comes after the
/// text's end. From then on it fails.
#[derive(Drop)]
pub(crate) struct Compared<'a> {
    text: &'a [u8],
    agreed: usize,
    other: Option<u8>,
    faults: u64,
}

impl<'a> Model for Compared<'a> {
    ghost use Rattle.cf_audit.specs.Compared.{Comparison, IsComparison};

    ghost Value = { Comparison };

    ghost view = { λ c. record { text = c.text.now; agreed = c.agreed; other = c.other; faults = c.faults } };

    ghost invariant = { λ c. IsComparison (record { text = c.text.now; agreed = c.agreed; other = c.other; faults = c.faults }) };
}

impl<'a> Compared<'a> {
    /// A comparison with a text, before the first byte.
    pub(crate) fn with(text: &'a [u8]) -> Compared<'a>
        ensures { result ≡ fresh_comparison text.now }
    {
        Compared {
            text,
            agreed: 0,
            other: None,
            faults: 0,
        }
    }

    /// How many bytes agree.
    pub(crate) fn agreed(&self) -> usize
        ensures count { result ≡ self.now.agreed }
        ensures within { result ≤ length self.now.text }
    {
        self.agreed
    }

    /// The text after the bytes that agree.
    pub(crate) fn rest(&self) -> &'a [u8]
        ensures { result.now ≡ drop self.now.agreed self.now.text }
    {
        &self.text[self.agreed..]
    }

    /// Whether the whole text has been matched.
    pub(crate) fn is_whole(&self) -> bool
        ensures { IsTrue result ↔ (self.now.agreed ≡ length self.now.text) }
    {
        self.agreed == self.text.len()
    }

    /// Whether a byte was written that does not agree.
    pub(crate) fn differs(&self) -> bool
        ensures yes { result ≡ true → HasOther self.now }
        ensures no { result ≡ false → AllAgrees self.now }
    {
        self.other.is_some()
    }
}

impl<'a> Sink for Compared<'a> {
    ghost use Rattle.std.specs.Prelude.{Some};
    ghost use Rattle.cf_audit.specs.Compared.{exposed_by_sink};

    ghost written = { λ c. Some (exposed_by_sink c) };

    ghost faults = { λ c. c.faults };

    fn put(&mut self, bytes: &[u8]) -> Result<usize, Failed>
        ensures bytes { Puts (Some (exposed_by_sink self.old)) (Some (exposed_by_sink self.new)) bytes.now result }
        ensures cause { HasCause self.old.faults self.new.faults result }
    {
        if bytes.is_empty() {
            return Ok(0);
        }
        if self.other.is_some() {
            self.faults = self.faults.saturating_add(1);
            return Err(Failed);
        }
        let same = common(self.rest(), bytes);
        self.agreed += same;
        self.other = byte_at(bytes, same);
        Ok(bytes.len().min(same + 1))
    }
}
