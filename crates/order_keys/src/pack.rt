//! The parts that keys consist of.

ghost use Rattle.std.specs.Prelude.{◌≡◌, ℕ, List, ◌++◌, IfOk};
ghost use Rattle.order_keys.specs.Unpacked.{Unpacked};

use crate::unread::Unread;
use std::alloc::AllocError;

/// A value that keys hold as bytes, after which other bytes may follow.
pub(crate) trait Pack: Copy {
    /// The bytes of a value.
    ghost packed: { Self → List ℕ };

    /// The value at the beginning of bytes, and the bytes after it.
    ghost unpacked: { List ℕ → Unpacked Self };

    /// Appends the value to a key.
    fn pack(&self, key: &mut Vec<u8>) -> Result<(), AllocError>
        ensures { IfOk result (λ _. key.new.items ≡ key.old.items ++ packed self.now) };

    /// Reads the value from the unread bytes of a key.
    fn unpack(key: &mut Unread<'_>) -> Self
        ensures value { result ≡ (unpacked key.old).value }
        ensures left { key.new ≡ (unpacked key.old).left };
}
