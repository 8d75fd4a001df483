//! The entries of a table in a file, one after another.

ghost use Rattle.std.specs.Prelude.{◌≡◌, ℕ, ◌+◌, ◌*◌, ◌<◌, ◌≤◌, List, length};
ghost use Rattle.elf_view.specs.Fields.{FitsIn};

use std::marker::PhantomData;

/// An entry of a table: a few fields in a fixed number of bytes.
pub trait Entry: Copy {
    ghost SIZE: { ℕ };

    ghost entry_at: { List ℕ → ℕ → Self };

    /// How many bytes an entry takes.
    const SIZE: usize;

    /// The entry that begins at the offset.
    fn read(file: &[u8], at: usize) -> Self
        requires { at + SIZE ≤ length file.now }
        ensures { result ≡ entry_at file.now at };
}

/// The remaining entries of a table in the file.
#[derive(Drop)]
pub struct Entries<'a, E: Entry> {
    file: &'a [u8],
    at: usize,
    left: usize,
    entry: PhantomData<E>,
    pub ghost fits: { FitsIn file.now at E.SIZE left },
}

impl<'a, E: Entry> Entries<'a, E> {
    /// The table of `count` entries that begins at the offset.
    pub(crate) fn new(file: &'a [u8], at: usize, count: usize) -> Entries<'a, E>
        requires { FitsIn file.now at E.SIZE count }
        ensures { (result.file.now ≡ file.now) × (result.at ≡ at) × (result.left ≡ count) }
    {
        Entries {
            file,
            at,
            left: count,
            entry: PhantomData,
        }
    }
}

impl<'a, E: Entry> Iterator for Entries<'a, E> {
    ghost use Rattle.std.specs.Iterator.{YieldsFirst, item_count};
    ghost use Rattle.elf_view.specs.Fields.{entries};

    type Item = E;

    ghost next_gives = { YieldsFirst (λ s. entries E.entry_at E.SIZE s.file.now s.at s.left) };

    ghost remaining = { item_count (λ s. entries E.entry_at E.SIZE s.file.now s.at s.left) };

    fn next(&mut self) -> Option<E> {
        if self.left == 0 {
            return None;
        }
        let entry = E::read(self.file, self.at);
        self.at += E::SIZE;
        self.left -= 1;
        Some(entry)
    }
}
