//! What is in a stage, in keys.

ghost use Rattle.std.specs.Prelude.{◌≡◌};
ghost use Rattle.order_keys.specs.StageFlags.{stage_flags_in};

use crate::bits::{bit, is_set};
use crate::pack::Pack;
use crate::unread::Unread;
use std::alloc::AllocError;

/// Whether an instruction and whether a result is in a stage, and whether the two have met.
#[derive(Clone, Copy)]
pub(crate) struct StageFlags {
    pub(crate) instruction: bool,
    pub(crate) result: bool,
    pub(crate) met: bool,
}

impl StageFlags {
    /// What the bits of a byte say of a stage.
    #[inline(always)]
    pub(crate) fn of(bits: u8) -> StageFlags
        ensures { result ≡ stage_flags_in bits }
    {
        StageFlags {
            instruction: is_set(1, bits),
            result: is_set(2, bits),
            met: is_set(4, bits),
        }
    }
}

impl Pack for StageFlags {
    ghost use Rattle.order_keys.specs.StageFlags.{packed_stage_flags, unpacked_stage_flags};

    ghost packed = { packed_stage_flags };

    ghost unpacked = { unpacked_stage_flags };

    #[inline(always)]
    #[tactic(auto, unfolding(crate::specs::StageFlags::packed_stage_flags))]
    fn pack(&self, key: &mut Vec<u8>) -> Result<(), AllocError> {
        key.push(bit(1, self.instruction) + bit(2, self.result) + bit(4, self.met))?;
        Ok(())
    }

    #[inline(always)]
    #[tactic(auto, unfolding(crate::specs::StageFlags::unpacked_stage_flags))]
    fn unpack(key: &mut Unread<'_>) -> StageFlags {
        StageFlags::of(key.byte())
    }
}
