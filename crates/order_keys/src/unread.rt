//! The unread part of a key, which is read from its beginning.

ghost use Rattle.std.specs.Prelude.{◌≡◌, length};
ghost use Rattle.order_keys.specs.Numbers.{leading_byte, behind};

use std::marker::Model;

/// The bytes of a key that have not been read yet.
#[derive(Drop)]
pub(crate) struct Unread<'a> {
    left: &'a [u8],
}

impl<'a> Model for Unread<'a> {
    ghost use Rattle.std.specs.Prelude.{ℕ, List};

    ghost Value = { List ℕ };

    ghost view = { λ unread. unread.left.now };
}

impl<'a> Unread<'a> {
    /// A key of which nothing has been read yet.
    pub(crate) fn new(key: &'a [u8]) -> Unread<'a>
        ensures { result ≡ key.now }
    {
        Unread { left: key }
    }

    /// How many bytes have not been read yet.
    #[inline(always)]
    pub(crate) fn count(&self) -> usize
        ensures { result ≡ length self.now }
    {
        self.left.len()
    }

    /// The next byte, or 0 if none is left; it stays unread.
    #[inline(always)]
    #[tactic(auto, using(crate::proofs::Fronts::fronts))]
    pub(crate) fn next(&self) -> u8
        ensures { result ≡ leading_byte self.now }
    {
        match self.left {
            [first, ..] => *first,
            [] => 0,
        }
    }

    /// Reads the next byte, or 0 if none is left.
    #[inline(always)]
    #[tactic(auto, using(crate::proofs::Fronts::fronts))]
    pub(crate) fn byte(&mut self) -> u8
        ensures value { result ≡ leading_byte self.old }
        ensures left { self.new ≡ behind self.old }
    {
        match self.left {
            [first, left @ ..] => {
                let byte = *first;
                self.left = left;
                byte
            }
            [] => 0,
        }
    }
}
