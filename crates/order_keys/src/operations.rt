//! The operations of instructions in keys: each as its number in its group.

use crate::pack::Pack;
use crate::unread::Unread;
use rv_inst::{Cond, ImmOp, LoadKind, MulOp, RegOp, StoreKind};
use std::alloc::AllocError;

impl Pack for Cond {
    ghost use Rattle.order_keys.specs.Operations.{packed_cond, unpacked_cond};

    ghost packed = { packed_cond };

    ghost unpacked = { unpacked_cond };

    #[tactic(auto, unfolding(crate::specs::Operations::packed_cond))]
    fn pack(&self, key: &mut Vec<u8>) -> Result<(), AllocError> {
        key.push(match self {
            Cond::Eq => 0,
            Cond::Ne => 1,
            Cond::Lt => 2,
            Cond::Ge => 3,
            Cond::Ltu => 4,
            Cond::Geu => 5,
        })?;
        Ok(())
    }

    #[tactic(auto, unfolding(crate::specs::Operations::unpacked_cond))]
    fn unpack(key: &mut Unread<'_>) -> Cond {
        match key.byte() {
            0 => Cond::Eq,
            1 => Cond::Ne,
            2 => Cond::Lt,
            3 => Cond::Ge,
            4 => Cond::Ltu,
            _ => Cond::Geu,
        }
    }
}

impl Pack for LoadKind {
    ghost use Rattle.order_keys.specs.Operations.{packed_load, unpacked_load};

    ghost packed = { packed_load };

    ghost unpacked = { unpacked_load };

    #[tactic(auto, unfolding(crate::specs::Operations::packed_load))]
    fn pack(&self, key: &mut Vec<u8>) -> Result<(), AllocError> {
        key.push(match self {
            LoadKind::Byte => 0,
            LoadKind::Half => 1,
            LoadKind::Word => 2,
            LoadKind::ByteU => 3,
            LoadKind::HalfU => 4,
        })?;
        Ok(())
    }

    #[tactic(auto, unfolding(crate::specs::Operations::unpacked_load))]
    fn unpack(key: &mut Unread<'_>) -> LoadKind {
        match key.byte() {
            0 => LoadKind::Byte,
            1 => LoadKind::Half,
            2 => LoadKind::Word,
            3 => LoadKind::ByteU,
            _ => LoadKind::HalfU,
        }
    }
}

impl Pack for StoreKind {
    ghost use Rattle.order_keys.specs.Operations.{packed_store, unpacked_store};

    ghost packed = { packed_store };

    ghost unpacked = { unpacked_store };

    #[tactic(auto, unfolding(crate::specs::Operations::packed_store))]
    fn pack(&self, key: &mut Vec<u8>) -> Result<(), AllocError> {
        key.push(match self {
            StoreKind::Byte => 0,
            StoreKind::Half => 1,
            StoreKind::Word => 2,
        })?;
        Ok(())
    }

    #[tactic(auto, unfolding(crate::specs::Operations::unpacked_store))]
    fn unpack(key: &mut Unread<'_>) -> StoreKind {
        match key.byte() {
            0 => StoreKind::Byte,
            1 => StoreKind::Half,
            _ => StoreKind::Word,
        }
    }
}

impl Pack for ImmOp {
    ghost use Rattle.order_keys.specs.Operations.{packed_imm_op, unpacked_imm_op};

    ghost packed = { packed_imm_op };

    ghost unpacked = { unpacked_imm_op };

    #[tactic(auto, unfolding(crate::specs::Operations::packed_imm_op))]
    fn pack(&self, key: &mut Vec<u8>) -> Result<(), AllocError> {
        key.push(match self {
            ImmOp::Add => 0,
            ImmOp::Slt => 1,
            ImmOp::Sltu => 2,
            ImmOp::Xor => 3,
            ImmOp::Or => 4,
            ImmOp::And => 5,
            ImmOp::Sll => 6,
            ImmOp::Srl => 7,
            ImmOp::Sra => 8,
        })?;
        Ok(())
    }

    #[tactic(auto, unfolding(crate::specs::Operations::unpacked_imm_op))]
    fn unpack(key: &mut Unread<'_>) -> ImmOp {
        match key.byte() {
            0 => ImmOp::Add,
            1 => ImmOp::Slt,
            2 => ImmOp::Sltu,
            3 => ImmOp::Xor,
            4 => ImmOp::Or,
            5 => ImmOp::And,
            6 => ImmOp::Sll,
            7 => ImmOp::Srl,
            _ => ImmOp::Sra,
        }
    }
}

impl Pack for RegOp {
    ghost use Rattle.order_keys.specs.Operations.{packed_reg_op, unpacked_reg_op};

    ghost packed = { packed_reg_op };

    ghost unpacked = { unpacked_reg_op };

    #[tactic(auto, unfolding(crate::specs::Operations::packed_reg_op))]
    fn pack(&self, key: &mut Vec<u8>) -> Result<(), AllocError> {
        key.push(match self {
            RegOp::Add => 0,
            RegOp::Sub => 1,
            RegOp::Sll => 2,
            RegOp::Slt => 3,
            RegOp::Sltu => 4,
            RegOp::Xor => 5,
            RegOp::Srl => 6,
            RegOp::Sra => 7,
            RegOp::Or => 8,
            RegOp::And => 9,
        })?;
        Ok(())
    }

    #[tactic(auto, unfolding(crate::specs::Operations::unpacked_reg_op))]
    fn unpack(key: &mut Unread<'_>) -> RegOp {
        match key.byte() {
            0 => RegOp::Add,
            1 => RegOp::Sub,
            2 => RegOp::Sll,
            3 => RegOp::Slt,
            4 => RegOp::Sltu,
            5 => RegOp::Xor,
            6 => RegOp::Srl,
            7 => RegOp::Sra,
            8 => RegOp::Or,
            _ => RegOp::And,
        }
    }
}

impl Pack for MulOp {
    ghost use Rattle.order_keys.specs.Operations.{packed_mul_op, unpacked_mul_op};

    ghost packed = { packed_mul_op };

    ghost unpacked = { unpacked_mul_op };

    #[tactic(auto, unfolding(crate::specs::Operations::packed_mul_op))]
    fn pack(&self, key: &mut Vec<u8>) -> Result<(), AllocError> {
        key.push(match self {
            MulOp::Mul => 0,
            MulOp::Mulh => 1,
            MulOp::Mulhsu => 2,
            MulOp::Mulhu => 3,
            MulOp::Div => 4,
            MulOp::Divu => 5,
            MulOp::Rem => 6,
            MulOp::Remu => 7,
        })?;
        Ok(())
    }

    #[tactic(auto, unfolding(crate::specs::Operations::unpacked_mul_op))]
    fn unpack(key: &mut Unread<'_>) -> MulOp {
        match key.byte() {
            0 => MulOp::Mul,
            1 => MulOp::Mulh,
            2 => MulOp::Mulhsu,
            3 => MulOp::Mulhu,
            4 => MulOp::Div,
            5 => MulOp::Divu,
            6 => MulOp::Rem,
            _ => MulOp::Remu,
        }
    }
}
