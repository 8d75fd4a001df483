//! Loading the parts of a program.

ghost use Rattle.std.specs.Prelude.{◌≡◌, ◌≤◌, ◌+◌, ◌^◌, IfOk, IfErr, None, All, length};
ghost use Rattle.mem_regions.specs.Loading.{LiesIn, image_of, area_of, areas_of, loaded};
ghost use Rattle.mem_regions.specs.Refusal.{refusal, refusal_told};
ghost use Rattle.mem_regions.specs.Causes.{AreAccepted, IsLoadCause};

use crate::program_break::HEAP_START;
use crate::refusal::check;
use crate::region::Region;
use crate::{LoadErr, Part, Regions};
use std::alloc::{AllocError, Global};

/// The part's bytes, then zeros.
fn image(alloc: Global, file: &[u8], part: Part) -> Result<Vec<u8>, AllocError>
    requires { LiesIn file.now part }
    ensures { IfOk result (λ bytes. bytes.items ≡ image_of file.now part) }
{
    let start = part.start as usize;
    let mut bytes = Vec::with_capacity(alloc, part.size as usize)?;
    bytes.extend_from_slice(&file[start..start + part.len as usize])?;
    bytes.resize(part.size as usize, 0)?;
    Ok(bytes)
}

fn make_region(alloc: Global, file: &[u8], part: Part) -> Result<Region, AllocError>
    requires lies { LiesIn file.now part }
    requires ends { part.base + part.size ≤ 2 ^ 32 }
    ensures { IfOk result (λ region. region ≡ area_of file.now part) }
{
    let bytes = image(alloc, file, part)?;
    let code = if part.exec {
        image(alloc, file, part)?
    } else {
        Vec::new(alloc)
    };
    Ok(Region {
        base: part.base,
        size: part.size,
        write: part.write,
        exec: part.exec,
        bytes,
        code,
    })
}

#[tactic(auto, unfolding(crate::specs::Loading::areas_of, crate::specs::Refusal::first_wrapping))]
fn make_regions(alloc: Global, file: &[u8], parts: &[Part]) -> Result<Vec<Region>, AllocError>
    requires lie { All (LiesIn file.now) parts.now }
    requires end { All (λ p. p.base + p.size ≤ 2 ^ 32) parts.now }
    ensures { IfOk result (λ list. list.items ≡ areas_of file.now parts.now) }
{
    let mut list = Vec::new(alloc);
    for part in parts {
        if part.size > 0 {
            list.push(make_region(alloc, file, *part)?)?;
        }
    }
    Ok(list)
}

impl Regions {
    /// The memory of a program with these parts of the file. Each part of a size above 0 makes a region: the part's
    /// bytes, then zeros, and, if it is executable, a copy of these as its code. The break is at the start of the heap.
    ///
    /// `TooMany`, `WrapsAround`, `TooLarge` and `Overlap` are tested in this order; then `NoMemory` is returned if
    /// there is not enough memory for a region. A part of size 0 makes no region and overlaps none.
    #[tactic(auto, using(crate::proofs::Parts::ends, crate::proofs::Causes::causes), unfolding(crate::specs::Loading::loaded))]
    pub fn load(alloc: Global, file: &[u8], parts: &[Part]) -> Result<Regions, LoadErr>
        requires { All (LiesIn file.now) parts.now }
        ensures accepted { IfOk result (λ memory. AreAccepted parts.now) }
        ensures not_refused { IfOk result (λ memory. refusal parts.now ≡ None) }
        ensures memory { IfOk result (λ memory. memory ≡ loaded file.now parts.now) }
        ensures refused { IfErr result (λ error. refusal parts.now ≡ refusal_told error) }
        ensures cause { IfErr result (λ error. IsLoadCause parts.now error) }
    {
        check(parts)?;
        match make_regions(alloc, file, parts) {
            Ok(list) => Ok(Regions {
                list,
                program_break: HEAP_START,
            }),
            Err(AllocError) => Err(LoadErr::NoMemory),
        }
    }
}
