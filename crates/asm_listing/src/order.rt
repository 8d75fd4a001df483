//! The order of the symbols of a file.

ghost use Rattle.std.specs.Prelude.{◌≡◌, OnOk, IfOk, filter, map};
ghost use Rattle.elf_view.specs.Symbols.{has_name, shown_lazy, symbols_of};
ghost use Rattle.asm_listing.specs.Labels.{Ascend, HaveLines};

use elf_view::{Elf, LazySymbol};
use std::alloc::{AllocError, Global};

/// The symbols of a file that have a name, in their order in the file.
fn named_symbols<'a>(alloc: Global, elf: &Elf<'a>) -> Result<Vec<LazySymbol<'a>>, AllocError>
    ensures { IfOk result (λ symbols. map shown_lazy symbols.items ≡ filter has_name (symbols_of elf.now)) }
{
    let mut symbols = Vec::new(alloc);
    for symbol in elf.lazy_symbols() {
        if symbol.is_named() {
            symbols.push(symbol)?;
        }
    }
    Ok(symbols)
}

/// Sorts symbols by their values, stably.
fn sort_by_value(symbols: &mut Vec<LazySymbol>) -> Result<(), AllocError>
    ensures ascend { OnOk result (Ascend symbols.new.items) }
    ensures lines { OnOk result (HaveLines (map shown_lazy symbols.old.items) (map shown_lazy symbols.new.items)) }
{
    symbols.sort_by_key(|symbol| symbol.value)?;
    Ok(())
}

/// The symbols of a file that may be labels, in the order of their values. Those with the same value are in their order
/// in the file. A program may have a million symbols and a million words, so a search of all symbols for every word
/// would take too long.
#[tactic(auto, using(crate::proofs::Values::ordered))]
pub fn ordered_symbols<'a>(alloc: Global, elf: &Elf<'a>) -> Result<Vec<LazySymbol<'a>>, AllocError>
    ensures ascend { IfOk result (λ symbols. Ascend symbols.items) }
    ensures lines { IfOk result (λ symbols. HaveLines (symbols_of elf.now) (map shown_lazy symbols.items)) }
{
    let mut symbols = named_symbols(alloc, elf)?;
    sort_by_value(&mut symbols)?;
    Ok(symbols)
}
