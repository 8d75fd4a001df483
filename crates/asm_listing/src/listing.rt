//! The listing of a program.
#![tactic(auto, using(cf_io::proofs::Owing::owing), unfolding(crate::specs::Listing::segment_lines, crate::specs::Listing::elf_listing, crate::specs::Listing::flat_listing))]

ghost use Rattle.std.specs.Prelude.{◌≡◌, IfErr, OnOk, OnErr, map};
ghost use Rattle.std.specs.List.{flat_map};
ghost use Rattle.cf_io.specs.Causes.{HasCause};
ghost use Rattle.cf_io.specs.Puts.{Writes, WritesFront};
ghost use Rattle.elf_view.specs.Segments.{segments_of, shown_segment};
ghost use Rattle.elf_view.specs.Symbols.{shown_lazy};
ghost use Rattle.asm_listing.specs.Ending.{ListingStops, output_put};
ghost use Rattle.asm_listing.specs.Labels.{Ascend};
ghost use Rattle.asm_listing.specs.Listing.{segment_lines, elf_listing, flat_listing};

use crate::order::ordered_symbols;
use crate::words::put_words;
use cf_io::{Failed, Sink};
use elf_view::{Elf, LazySymbol, Segment};
use std::alloc::{AllocError, Global};

/// The address of a flat image.
const FLAT_BASE: u32 = 0x1_0000;

/// Why a listing was not written completely.
pub enum ListingErr {
    /// There was not enough memory to sort the symbols. Nothing was written.
    NoMemory,

    /// The output failed. A prefix of the listing was written.
    Failed,
}

/// Writes the lines of a segment, if it is executable.
fn put_segment<K: Sink>(
    symbols: &[LazySymbol],
    segment: &Segment,
    out: &mut K,
) -> Result<(), Failed>
    requires { Ascend symbols.now }
    ensures ok { OnOk result (Writes (K.written out.old) (K.written out.new)
        (segment_lines (map shown_lazy symbols.now) (shown_segment segment.now))) }
    ensures err { OnErr result (WritesFront (K.written out.old) (K.written out.new)
        (segment_lines (map shown_lazy symbols.now) (shown_segment segment.now))) }
    ensures cause { HasCause (K.faults out.old) (K.faults out.new) result }
{
    if !segment.exec {
        return Ok(());
    }
    put_words(symbols, segment.vaddr, segment.bytes, out)
}

/// Writes the lines of the segments of an ELF file.
#[tactic(auto, using(cf_io::proofs::Owing::owes))]
fn put_segments<K: Sink>(symbols: &[LazySymbol], elf: &Elf, out: &mut K) -> Result<(), Failed>
    requires { Ascend symbols.now }
    ensures ok { OnOk result (Writes (K.written out.old) (K.written out.new)
        (flat_map (segment_lines (map shown_lazy symbols.now)) (segments_of elf.now))) }
    ensures err { OnErr result (WritesFront (K.written out.old) (K.written out.new)
        (flat_map (segment_lines (map shown_lazy symbols.now)) (segments_of elf.now))) }
    ensures cause { HasCause (K.faults out.old) (K.faults out.new) result }
{
    for segment in elf.segments() {
        put_segment(symbols, &segment, out)?;
    }
    Ok(())
}

/// Writes the listing of an ELF file: for each executable segment the words at addresses that are multiples of 4, each
/// on a line after those of the labels there. First the symbols are sorted, which may run out of memory before anything
/// is written.
#[tactic(auto, using(crate::proofs::Walked::listings), unfolding(crate::specs::Listing::elf_listing))]
pub fn put_elf_listing<K: Sink>(alloc: Global, elf: &Elf, out: &mut K) -> Result<(), ListingErr>
    ensures ok { OnOk result (Writes (K.written out.old) (K.written out.new) (elf_listing elf.now)) }
    ensures err { IfErr result (λ e. ListingStops (elf_listing elf.now) (K.written out.old) (K.written out.new) e) }
    ensures cause { HasCause (K.faults out.old) (K.faults out.new) (output_put result) }
{
    let symbols = match ordered_symbols(alloc, elf) {
        Ok(symbols) => symbols,
        Err(AllocError) => return Err(ListingErr::NoMemory),
    };
    match put_segments(symbols.as_slice(), elf, out) {
        Ok(()) => Ok(()),
        Err(Failed) => Err(ListingErr::Failed),
    }
}

/// Writes the listing of a flat image, which is at 0x00010000. After `Failed` a prefix of it was written.
#[tactic(auto, using(crate::proofs::Values::none), unfolding(crate::specs::Listing::flat_listing))]
pub fn put_flat_listing<K: Sink>(image: &[u8], out: &mut K) -> Result<(), Failed>
    ensures ok { OnOk result (Writes (K.written out.old) (K.written out.new) (flat_listing image.now)) }
    ensures err { OnErr result (WritesFront (K.written out.old) (K.written out.new) (flat_listing image.now)) }
    ensures cause { HasCause (K.faults out.old) (K.faults out.new) result }
{
    put_words(&[], FLAT_BASE, image, out)
}
