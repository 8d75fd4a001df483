//! How a store, FENCE.I and a moved break affect the changes.

ghost use Rattle.std.specs.Prelude.{◌≡◌, ◌+◌, ◌≤◌, ◌^◌, ◌++◌, IfOk, filter};
ghost use Rattle.mem_regions.specs.Access.{IsWidth, bounds_of};
ghost use Rattle.mem_regions.specs.Bytes.{le_bytes};
ghost use Rattle.mem_regions.specs.Fetching.{synced};
ghost use Rattle.mem_regions.specs.Writing.{stored};
ghost use Rattle.mem_changes.specs.Applied.{memory_after};
ghost use Rattle.mem_changes.specs.Differing.{AreChanges, runs_at};
ghost use Rattle.mem_changes.specs.Steps.{below, difference, differences, from as from_address, rewritten};

use crate::changes::{Change, Changes};
use crate::image::Image;
use std::alloc::{AllocError, Global};

/// Adds those of the changes that are below the address.
fn push_below(list: &mut Vec<Change>, changes: &[Change], addr: u32) -> Result<(), AllocError>
    ensures { IfOk result (λ done. list.new.items ≡ list.old.items ++ below addr changes.now) }
{
    for change in changes {
        if change.addr < addr {
            list.push(*change)?;
        }
    }
    Ok(())
}

/// Adds those of the changes that are at the address or above it.
fn push_from(list: &mut Vec<Change>, changes: &[Change], addr: u64) -> Result<(), AllocError>
    ensures { IfOk result (λ done. list.new.items ≡ list.old.items ++ from_address addr changes.now) }
{
    for change in changes {
        if addr <= u64::from(change.addr) {
            list.push(*change)?;
        }
    }
    Ok(())
}

/// Adds the byte as a change, if it is not the one that was loaded.
fn push_difference(
    list: &mut Vec<Change>,
    addr: u32,
    byte: u8,
    loaded: u8,
) -> Result<(), AllocError>
    ensures { IfOk result (λ done. list.new.items ≡ list.old.items ++ difference addr byte loaded) }
{
    if byte != loaded {
        list.push(Change { addr, byte })?;
    }
    Ok(())
}

/// Adds the low bytes of the number as changes, where they differ from those of the number that was loaded.
#[tactic(auto, using(crate::proofs::Steps::difference_steps))]
fn push_differences(
    list: &mut Vec<Change>,
    addr: u32,
    width: u32,
    number: u32,
    loaded: u32,
) -> Result<(), AllocError>
    requires { addr + width ≤ 2 ^ 32 }
    ensures { IfOk result (λ done. list.new.items ≡ list.old.items ++ differences addr (le_bytes width number) (le_bytes width loaded)) }
{
    let mut bytes = number;
    let mut olds = loaded;
    for i in 0..width {
        push_difference(list, addr + i, (bytes % 256) as u8, (olds % 256) as u8)?;
        bytes /= 256;
        olds /= 256;
    }
    Ok(())
}

/// The changes after the low bytes of the number are written from the address on, where another number was loaded.
fn rewrite(
    alloc: Global,
    changes: &[Change],
    addr: u32,
    width: u32,
    number: u32,
    loaded: u32,
) -> Result<Vec<Change>, AllocError>
    requires { addr + width ≤ 2 ^ 32 }
    ensures { IfOk result (λ list. list.items ≡ rewritten changes.now addr width (le_bytes width number) (le_bytes width loaded)) }
{
    let mut list = Vec::new(alloc);
    push_below(&mut list, changes, addr)?;
    push_differences(&mut list, addr, width, number, loaded)?;
    push_from(&mut list, changes, u64::from(addr) + u64::from(width))?;
    Ok(list)
}

/// Those of the changes that are in regions from which instructions are fetched.
fn running(alloc: Global, image: &Image, changes: &[Change]) -> Result<Vec<Change>, AllocError>
    ensures { IfOk result (λ list. list.items ≡ filter (λ c. runs_at (bounds_of image.now) c.addr) changes.now) }
{
    let mut list = Vec::new(alloc);
    for change in changes {
        if image.runs(change.addr) {
            list.push(*change)?;
        }
    }
    Ok(list)
}

impl Changes {
    /// Records a store of 1, 2 or 4 bytes; one that the memory does not permit changes nothing.
    #[tactic(auto, using(crate::proofs::Updated::storing))]
    pub fn store(
        &mut self,
        alloc: Global,
        image: &Image,
        addr: u32,
        width: u32,
        number: u32,
    ) -> Result<(), AllocError>
        requires width { IsWidth width }
        requires lists { AreChanges image.now self.old }
        ensures lists { IfOk result (λ done. AreChanges image.now self.new) }
        ensures memory { IfOk result (λ done. memory_after self.new image.now ≡ stored (memory_after self.old image.now) addr width number) }
    {
        let _ = image.memory();
        if addr % width != 0 {
            return Ok(());
        }
        let Some(loaded) = image.number(addr, width) else {
            return Ok(());
        };
        self.bytes = rewrite(alloc, &self.bytes, addr, width, number, loaded)?;
        Ok(())
    }

    /// Records FENCE.I: the code is again that of the bytes.
    #[tactic(auto, using(crate::proofs::Updated::syncing))]
    pub fn sync(&mut self, alloc: Global, image: &Image) -> Result<(), AllocError>
        requires lists { AreChanges image.now self.old }
        ensures lists { IfOk result (λ done. AreChanges image.now self.new) }
        ensures memory { IfOk result (λ done. memory_after self.new image.now ≡ synced (memory_after self.old image.now)) }
    {
        let _ = image.memory();
        self.code = running(alloc, image, &self.bytes)?;
        Ok(())
    }

    /// Records a moved break.
    #[tactic(auto, using(crate::proofs::Updated::breaking))]
    pub fn set_brk(&mut self, image: &Image, addr: u32)
        requires lists { AreChanges image.now self.old }
        requires from { 0x7f000000 ≤ addr }
        requires to { addr ≤ 0x7f080000 }
        ensures lists { AreChanges image.now self.new }
        ensures memory { memory_after self.new image.now ≡ record (memory_after self.old image.now) { program_break = addr } }
    {
        self.program_break = addr;
    }
}
