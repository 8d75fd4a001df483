//! The flags of an instruction on its way up, in keys.

use crate::bits::{half, is_set};
use crate::pack::Pack;
use crate::unread::Unread;
use std::alloc::AllocError;

/// How far an instruction has come, and which of the parts that it gets on its way it has; named as in `Passenger`.
#[derive(Clone, Copy)]
pub(crate) struct PassengerFlags {
    pub(crate) done: bool,
    pub(crate) launched: bool,
    pub(crate) recovered: bool,
    pub(crate) dead: bool,
    pub(crate) next: bool,

    /// The program goes on with the next instruction in memory.
    pub(crate) follows: bool,
    pub(crate) ending: bool,
    pub(crate) owes: bool,
}

/// Which of the parts that an instruction may have from the start it has; named as in `Passenger`.
#[derive(Clone, Copy)]
pub(crate) struct OriginFlags {
    pub(crate) what: bool,

    /// Fetch did not go on with the next instruction in memory.
    pub(crate) guess: bool,
    pub(crate) src1: bool,
    pub(crate) src1_value: bool,
    pub(crate) src2: bool,
    pub(crate) src2_value: bool,
    pub(crate) dst: bool,
    pub(crate) dst_value: bool,
}

impl Pack for PassengerFlags {
    ghost use Rattle.order_keys.specs.PassengerFlags.{packed_flags, unpacked_flags};

    ghost packed = { packed_flags };

    ghost unpacked = { unpacked_flags };

    #[inline(always)]
    #[tactic(auto, unfolding(crate::specs::PassengerFlags::packed_flags))]
    fn pack(&self, key: &mut Vec<u8>) -> Result<(), AllocError> {
        let low = half(self.done, self.launched, self.recovered, self.dead);
        let high = half(self.next, self.follows, self.ending, self.owes);
        key.push(low + 16 * high)?;
        Ok(())
    }

    #[inline(always)]
    #[tactic(auto, unfolding(crate::specs::PassengerFlags::unpacked_flags))]
    fn unpack(key: &mut Unread<'_>) -> PassengerFlags {
        let bits = key.byte();
        PassengerFlags {
            done: is_set(1, bits),
            launched: is_set(2, bits),
            recovered: is_set(4, bits),
            dead: is_set(8, bits),
            next: is_set(16, bits),
            follows: is_set(32, bits),
            ending: is_set(64, bits),
            owes: is_set(128, bits),
        }
    }
}

impl Pack for OriginFlags {
    ghost use Rattle.order_keys.specs.PassengerFlags.{packed_origin_flags, unpacked_origin_flags};

    ghost packed = { packed_origin_flags };

    ghost unpacked = { unpacked_origin_flags };

    #[inline(always)]
    #[tactic(auto, unfolding(crate::specs::PassengerFlags::packed_origin_flags))]
    fn pack(&self, key: &mut Vec<u8>) -> Result<(), AllocError> {
        let low = half(self.what, self.guess, self.src1, self.src1_value);
        let high = half(self.src2, self.src2_value, self.dst, self.dst_value);
        key.push(low + 16 * high)?;
        Ok(())
    }

    #[inline(always)]
    #[tactic(auto, unfolding(crate::specs::PassengerFlags::unpacked_origin_flags))]
    fn unpack(key: &mut Unread<'_>) -> OriginFlags {
        let bits = key.byte();
        OriginFlags {
            what: is_set(1, bits),
            guess: is_set(2, bits),
            src1: is_set(4, bits),
            src1_value: is_set(8, bits),
            src2: is_set(16, bits),
            src2_value: is_set(32, bits),
            dst: is_set(64, bits),
            dst_value: is_set(128, bits),
        }
    }
}
