//! What a store overwrote.

ghost use Rattle.std.specs.Prelude.{◌==◌, ◌||◌, IsTrue};

/// The number of 1, 2 or 4 bytes that a store overwrote.
#[derive(Clone, Copy)]
pub(crate) struct OldNumber {
    pub(crate) addr: u32,
    pub(crate) width: u32,
    pub(crate) number: u32,
    ghost wide: { IsTrue (width == 1 || width == 2 || width == 4) },
}
