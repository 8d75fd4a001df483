//! Lists in keys: how many items there are, and the items.

ghost use Rattle.std.specs.Prelude.{◌≡◌, ◌++◌, IfOk};
ghost use Rattle.order_keys.specs.Lists.{packed_items, packed_list, unpacked_list};

use crate::pack::Pack;
use crate::unread::Unread;
use std::alloc::AllocError;

/// Appends items to a key.
#[tactic(auto, unfolding(crate::specs::Lists::packed_items))]
pub(crate) fn pack_items<T: Pack>(items: &[T], key: &mut Vec<u8>) -> Result<(), AllocError>
    ensures { IfOk result (λ _. key.new.items ≡ key.old.items ++ packed_items T.packed items.now) }
{
    for item in items {
        item.pack(key)?;
    }
    Ok(())
}

/// Appends the list to a key.
#[tactic(auto, unfolding(crate::specs::Lists::packed_list))]
pub(crate) fn pack_list<T: Pack>(items: &[T], key: &mut Vec<u8>) -> Result<(), AllocError>
    ensures { IfOk result (λ _. key.new.items ≡ key.old.items ++ packed_list T.packed items.now) }
{
    (items.len() as u64).pack(key)?;
    pack_items(items, key)
}

/// Reads a list from the unread bytes of a key into this one.
#[tactic(auto, unfolding(crate::specs::Lists::unpacked_list))]
pub(crate) fn unpack_list<T: Pack + Drop>(
    list: &mut Vec<T>,
    key: &mut Unread<'_>,
) -> Result<(), AllocError>
    ensures { IfOk result (λ _. record { value = list.new.items; left = key.new } ≡ unpacked_list T.unpacked key.old) }
{
    let count = u64::unpack(key);
    list.clear();
    for _ in 0..count {
        list.push(T::unpack(key))?;
    }
    Ok(())
}
