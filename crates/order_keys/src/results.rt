//! Results and fetch in keys.

use crate::pack::Pack;
use crate::unread::Unread;
use cf_bind::{Fetch, Packet};
use std::alloc::AllocError;

impl Pack for Packet {
    ghost use Rattle.order_keys.specs.Results.{packed_packet, unpacked_packet};

    ghost packed = { packed_packet };

    ghost unpacked = { unpacked_packet };

    #[inline(always)]
    #[tactic(auto, unfolding(crate::specs::Results::packed_packet))]
    fn pack(&self, key: &mut Vec<u8>) -> Result<(), AllocError> {
        match *self {
            Packet::Value { reg, value } => {
                key.push(0)?;
                (reg, value).pack(key)
            }
            Packet::Turn(target) => {
                key.push(1)?;
                target.pack(key)
            }
            Packet::Halt => {
                key.push(2)?;
                Ok(())
            }
        }
    }

    #[inline(always)]
    #[tactic(auto, unfolding(crate::specs::Results::unpacked_packet))]
    fn unpack(key: &mut Unread<'_>) -> Packet {
        match key.byte() {
            0 => {
                let (reg, value) = <(u8, u32)>::unpack(key);
                Packet::Value { reg, value }
            }
            1 => Packet::Turn(u32::unpack(key)),
            _ => Packet::Halt,
        }
    }
}

impl Pack for Fetch {
    ghost use Rattle.order_keys.specs.Results.{packed_fetch, unpacked_fetch};

    ghost packed = { packed_fetch };

    ghost unpacked = { unpacked_fetch };

    #[inline(always)]
    #[tactic(auto, unfolding(crate::specs::Results::packed_fetch))]
    fn pack(&self, key: &mut Vec<u8>) -> Result<(), AllocError> {
        match *self {
            Fetch::Running(pc) => {
                key.push(0)?;
                pc.pack(key)
            }
            Fetch::Waiting => {
                key.push(1)?;
                Ok(())
            }
        }
    }

    #[inline(always)]
    #[tactic(auto, unfolding(crate::specs::Results::unpacked_fetch))]
    fn unpack(key: &mut Unread<'_>) -> Fetch {
        match key.byte() {
            0 => Fetch::Running(u32::unpack(key)),
            _ => Fetch::Waiting,
        }
    }
}
