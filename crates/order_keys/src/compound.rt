//! Pairs, optional values and lists in keys.

ghost use Rattle.std.specs.Prelude.{◌≡◌, ◌++◌, IfOk};
ghost use Rattle.order_keys.specs.Compounds.{packed_some, unpacked_some};

use crate::pack::Pack;
use crate::unread::Unread;
use std::alloc::{AllocError, Global};

impl<A: Pack, B: Pack> Pack for (A, B) {
    ghost use Rattle.order_keys.specs.Compounds.{packed_pair, unpacked_pair};

    ghost packed = { packed_pair A.packed B.packed };

    ghost unpacked = { unpacked_pair A.unpacked B.unpacked };

    #[inline(always)]
    #[tactic(auto, unfolding(crate::specs::Compounds::packed_pair))]
    fn pack(&self, key: &mut Vec<u8>) -> Result<(), AllocError> {
        self.0.pack(key)?;
        self.1.pack(key)
    }

    #[inline(always)]
    #[tactic(auto, unfolding(crate::specs::Compounds::unpacked_pair))]
    fn unpack(key: &mut Unread<'_>) -> (A, B) {
        let first = A::unpack(key);
        let second = B::unpack(key);
        (first, second)
    }
}

impl<A: Pack, B: Pack, C: Pack> Pack for (A, B, C) {
    ghost use Rattle.order_keys.specs.Compounds.{packed_triple, unpacked_triple};

    ghost packed = { packed_triple A.packed B.packed C.packed };

    ghost unpacked = { unpacked_triple A.unpacked B.unpacked C.unpacked };

    #[inline(always)]
    #[tactic(auto, unfolding(crate::specs::Compounds::packed_triple))]
    fn pack(&self, key: &mut Vec<u8>) -> Result<(), AllocError> {
        self.0.pack(key)?;
        self.1.pack(key)?;
        self.2.pack(key)
    }

    #[inline(always)]
    #[tactic(auto, unfolding(crate::specs::Compounds::unpacked_triple))]
    fn unpack(key: &mut Unread<'_>) -> (A, B, C) {
        let first = A::unpack(key);
        let second = B::unpack(key);
        let third = C::unpack(key);
        (first, second, third)
    }
}

impl<T: Pack> Pack for Option<T> {
    ghost use Rattle.order_keys.specs.Compounds.{packed_option, unpacked_option};

    ghost packed = { packed_option T.packed };

    ghost unpacked = { unpacked_option T.unpacked };

    #[inline(always)]
    #[tactic(auto, unfolding(crate::specs::Compounds::packed_option))]
    fn pack(&self, key: &mut Vec<u8>) -> Result<(), AllocError> {
        match self {
            None => {
                key.push(0)?;
                Ok(())
            }
            Some(value) => {
                key.push(1)?;
                value.pack(key)
            }
        }
    }

    #[inline(always)]
    #[tactic(auto, unfolding(crate::specs::Compounds::unpacked_option))]
    fn unpack(key: &mut Unread<'_>) -> Option<T> {
        if key.byte() == 0 {
            None
        } else {
            Some(T::unpack(key))
        }
    }
}

/// Appends the value, if there is one, to a key of which another byte says whether there is.
#[inline(always)]
#[tactic(auto, unfolding(crate::specs::Compounds::packed_some))]
pub(crate) fn pack_some<T: Pack>(value: &Option<T>, key: &mut Vec<u8>) -> Result<(), AllocError>
    ensures { IfOk result (λ _. key.new.items ≡ key.old.items ++ packed_some T.packed value.now) }
{
    match value {
        None => Ok(()),
        Some(value) => value.pack(key),
    }
}

/// Reads a value from the unread bytes of a key, if there is said to be one.
#[inline(always)]
#[tactic(auto, unfolding(crate::specs::Compounds::unpacked_some))]
pub(crate) fn unpack_some<T: Pack>(there: bool, key: &mut Unread<'_>) -> Option<T>
    ensures value { result ≡ (unpacked_some T.unpacked there key.old).value }
    ensures left { key.new ≡ (unpacked_some T.unpacked there key.old).left }
{
    if there { Some(T::unpack(key)) } else { None }
}
