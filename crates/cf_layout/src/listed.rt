//! A list, made from a `Vec`.

ghost use Rattle.std.specs.Prelude.{◌≡◌};

use std::marker::Model;

/// A list in the parts of a layout: made from a `Vec`, which callers can borrow.
#[derive(Drop)]
pub struct Listed<T: Drop> {
    items: Vec<T>,
}

impl<T: Drop> Model for Listed<T> {
    ghost use Rattle.std.specs.Prelude.{List};

    ghost Value = { List T };

    ghost view = { λ l. l.items.items };
}

impl<T: Drop> Listed<T> {
    /// The list of these items.
    pub fn new(items: Vec<T>) -> Self
        ensures { result ≡ items.items }
    {
        Listed { items }
    }

    /// The items.
    pub fn as_slice(&self) -> &[T]
        ensures { result.now ≡ self.now }
    {
        self.items.as_slice()
    }
}
