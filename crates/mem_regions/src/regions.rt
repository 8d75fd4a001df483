//! The memory of a program.

use crate::region::Region;
use std::marker::Model;

/// The memory of a program: regions of bytes, with the code that is fetched from them, and the program break.
#[derive(Drop)]
pub struct Regions {
    pub(crate) list: Vec<Region>,
    pub(crate) program_break: u32,
}

impl Model for Regions {
    ghost use Rattle.std.specs.Prelude.{◌≤◌};
    ghost use Rattle.mem_regions.specs.Memory.{Memory};

    ghost Value = { Memory };

    ghost view = { λ m. record { areas = m.list.items; program_break = m.program_break } };

    ghost invariant = { λ m. (0x7f000000 ≤ m.program_break) × (m.program_break ≤ 0x7f080000) };
}
