//! Bindings in keys.

ghost use Rattle.std.specs.Prelude.{◌≡◌, ◌++◌, IfOk};
ghost use Rattle.order_keys.specs.Bindings.{has_value as has_value_in, packed_binding, unpacked_binding};
ghost use Rattle.order_keys.specs.Compounds.{packed_some, unpacked_some};

use crate::compound::{pack_some, unpack_some};
use crate::pack::Pack;
use crate::unread::Unread;
use cf_bind::Binding;
use std::alloc::AllocError;

/// Whether there is a binding, and its value is known.
#[inline(always)]
pub(crate) fn has_value(bound: &Option<Binding>) -> bool
    ensures { result ≡ has_value_in bound.now }
{
    match bound {
        None => false,
        Some(binding) => binding.value.is_some(),
    }
}

/// Appends the binding, if there is one, to a key of which other bytes say whether there is, and whether its value is
/// known.
#[inline(always)]
#[tactic(auto, unfolding(crate::specs::Compounds::packed_some, crate::specs::Bindings::packed_binding))]
pub(crate) fn pack_bound(bound: &Option<Binding>, key: &mut Vec<u8>) -> Result<(), AllocError>
    ensures { IfOk result (λ _. key.new.items ≡ key.old.items ++ packed_some packed_binding bound.now) }
{
    match bound {
        None => Ok(()),
        Some(binding) => {
            binding.reg.pack(key)?;
            pack_some(&binding.value, key)
        }
    }
}

/// Reads a binding from the unread bytes of a key, if there is said to be one, with its value if this is said to
/// be known.
#[inline(always)]
#[tactic(auto, unfolding(crate::specs::Compounds::unpacked_some, crate::specs::Bindings::unpacked_binding))]
pub(crate) fn unpack_bound(there: bool, known: bool, key: &mut Unread<'_>) -> Option<Binding>
    ensures value { result ≡ (unpacked_some (unpacked_binding known) there key.old).value }
    ensures left { key.new ≡ (unpacked_some (unpacked_binding known) there key.old).left }
{
    if !there {
        return None;
    }
    let reg = u8::unpack(key);
    let value = unpack_some(known, key);
    Some(Binding { reg, value })
}
