//! The lines of labels.
#![tactic(auto, unfolding(crate::specs::Lines::symbol_line), using(cf_io::proofs::Owing::owing))]

ghost use Rattle.std.specs.Prelude.{◌≡◌, ◌≤◌, All, OnOk, OnErr, filter, map};
ghost use Rattle.cf_io.specs.Causes.{HasCause};
ghost use Rattle.cf_io.specs.Puts.{Writes, WritesFront};
ghost use Rattle.elf_view.specs.Symbols.{shown_lazy};
ghost use Rattle.asm_listing.specs.Labels.{AreOfValue, Ascend, has_value};
ghost use Rattle.asm_listing.specs.Lines.{is_label_at, symbol_line, label_lines};

use crate::putting::put_two;
use cf_io::{Failed, Sink};
use elf_view::LazySymbol;

fn is_label_at(symbol: &LazySymbol, pc: u32) -> bool
    ensures { result ≡ is_label_at pc (shown_lazy symbol.now) }
{
    symbol.value == pc && symbol.is_named()
}

/// Writes the line of a symbol, if the symbol is a label at the address.
fn put_label<K: Sink>(symbol: &LazySymbol, pc: u32, out: &mut K) -> Result<(), Failed>
    ensures ok { OnOk result (Writes (K.written out.old) (K.written out.new) (symbol_line pc (shown_lazy symbol.now))) }
    ensures err { OnErr result (WritesFront (K.written out.old) (K.written out.new) (symbol_line pc (shown_lazy symbol.now))) }
    ensures cause { HasCause (K.faults out.old) (K.faults out.new) result }
{
    if !is_label_at(symbol, pc) {
        return Ok(());
    }
    put_two(out, symbol.symbol().name, b":\n")
}

/// The symbols from a value on.
fn symbols_from<'a, 'b>(symbols: &'a [LazySymbol<'b>], value: u32) -> &'a [LazySymbol<'b>]
    requires { Ascend symbols.now }
    ensures same { filter (has_value value) result.now ≡ filter (has_value value) symbols.now }
    ensures least { All (λ symbol. value ≤ symbol.value) result.now }
    ensures ascend { Ascend result.now }
{
    let below = symbols.partition_point(|symbol| symbol.value < value);
    let (_, rest) = symbols.split_at(below);
    rest
}

/// The symbols with a value.
fn symbols_of_value<'a, 'b>(symbols: &'a [LazySymbol<'b>], value: u32) -> &'a [LazySymbol<'b>]
    requires { Ascend symbols.now }
    ensures { result.now ≡ filter (has_value value) symbols.now }
{
    let rest = symbols_from(symbols, value);
    let count = rest.partition_point(|symbol| symbol.value <= value);
    let (same, _) = rest.split_at(count);
    same
}

/// Writes the lines of symbols that are labels at an address. They are all the symbols with that value and no others:
/// among a million symbols, a walk past all of them for each word would take too long.
#[tactic(auto, using(cf_io::proofs::Owing::owes))]
fn put_each<K: Sink>(symbols: &[LazySymbol], pc: u32, out: &mut K) -> Result<(), Failed>
    requires { AreOfValue pc symbols.now }
    ensures ok { OnOk result (Writes (K.written out.old) (K.written out.new) (label_lines (map shown_lazy symbols.now) pc)) }
    ensures err { OnErr result (WritesFront (K.written out.old) (K.written out.new) (label_lines (map shown_lazy symbols.now) pc)) }
    ensures cause { HasCause (K.faults out.old) (K.faults out.new) result }
{
    for symbol in symbols {
        put_label(symbol, pc, out)?;
    }
    Ok(())
}

/// Writes the lines of the labels at an address.
#[tactic(auto, using(crate::proofs::Values::values))]
pub fn put_labels<K: Sink>(symbols: &[LazySymbol], pc: u32, out: &mut K) -> Result<(), Failed>
    requires { Ascend symbols.now }
    ensures ok { OnOk result (Writes (K.written out.old) (K.written out.new) (label_lines (map shown_lazy symbols.now) pc)) }
    ensures err { OnErr result (WritesFront (K.written out.old) (K.written out.new) (label_lines (map shown_lazy symbols.now) pc)) }
    ensures cause { HasCause (K.faults out.old) (K.faults out.new) result }
{
    put_each(symbols_of_value(symbols, pc), pc, out)
}
