//! The changes of a memory in keys.

ghost use Rattle.std.specs.Prelude.{◌≡◌, ◌++◌, IfOk};
ghost use Rattle.order_keys.specs.Memories.{packed_changes, unpacked_changes};

use crate::lists::{pack_list, unpack_list};
use crate::pack::Pack;
use crate::unread::Unread;
use mem_changes::{Change, Changes};
use std::alloc::AllocError;

impl Pack for Change {
    ghost use Rattle.order_keys.specs.Memories.{packed_change, unpacked_change};

    ghost packed = { packed_change };

    ghost unpacked = { unpacked_change };

    #[tactic(auto, unfolding(crate::specs::Memories::packed_change))]
    fn pack(&self, key: &mut Vec<u8>) -> Result<(), AllocError> {
        (self.addr, self.byte).pack(key)
    }

    #[tactic(auto, unfolding(crate::specs::Memories::unpacked_change))]
    fn unpack(key: &mut Unread<'_>) -> Change {
        let (addr, byte) = <(u32, u8)>::unpack(key);
        Change { addr, byte }
    }
}

/// Appends the changes to a key.
#[tactic(auto, unfolding(crate::specs::Memories::packed_changes, crate::specs::Compounds::packed_triple))]
pub(crate) fn pack_changes(changes: &Changes, key: &mut Vec<u8>) -> Result<(), AllocError>
    ensures { IfOk result (λ _. key.new.items ≡ key.old.items ++ packed_changes changes.now) }
{
    pack_list(&changes.bytes, key)?;
    pack_list(&changes.code, key)?;
    changes.program_break.pack(key)
}

/// Reads changes from the unread bytes of a key into these.
#[tactic(auto, unfolding(crate::specs::Memories::unpacked_changes, crate::specs::Compounds::unpacked_triple))]
pub(crate) fn unpack_changes(changes: &mut Changes, key: &mut Unread<'_>) -> Result<(), AllocError>
    ensures { IfOk result (λ _. record { value = changes.new; left = key.new } ≡ unpacked_changes key.old) }
{
    unpack_list(&mut changes.bytes, key)?;
    unpack_list(&mut changes.code, key)?;
    changes.program_break = u32::unpack(key);
    Ok(())
}
