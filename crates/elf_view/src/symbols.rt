//! The symbols of a file.

ghost use Rattle.std.specs.Prelude.{◌≡◌, ◌≤◌, ◌<◌, ◌==◌, length, drop, position, IfSome, map, All};
ghost use Rattle.elf_view.specs.Fields.{entries as table_entries};
ghost use Rattle.elf_view.specs.Headers.{symbol_entry};
ghost use Rattle.elf_view.specs.Symbols.{first_text, has_name, shown_lazy, shown_symbol, symbol_of};

use crate::entries::Entries;
use crate::headers::SymbolEntry;

/// A symbol.
#[derive(Drop)]
pub struct Symbol<'a> {
    /// The bytes of its name, without the NUL after them.
    pub name: &'a [u8],
    /// Its value: for a label, its address.
    pub value: u32,
    /// How many bytes it names, or 0.
    pub size: u32,
}

/// The index of the first NUL.
fn first_nul(text: &[u8]) -> Option<usize>
    ensures index { result ≡ position (λ byte. byte == 0) text.now }
    ensures within { IfSome result (λ end. end < length text.now) }
{
    text.iter().position(|&byte| byte == 0)
}

/// The bytes up to the first NUL.
#[tactic(auto, using(crate::proofs::Names::stops_at_nul, crate::proofs::Names::goes_to_end))]
fn before_nul(text: &[u8]) -> &[u8]
    ensures { result.now ≡ first_text text.now }
{
    match first_nul(text) {
        Some(end) => &text[..end],
        None => text,
    }
}

/// The names from an index on.
#[tactic(auto, using(std::proofs::lemmas::List::take_rest))]
fn names_from(names: &[u8], at: usize) -> &[u8]
    requires { at ≤ length names.now }
    ensures { result.now ≡ drop at names.now }
{
    &names[at..]
}

/// A symbol whose name is looked up only when it is needed: a name may be long, and belong to many symbols.
#[derive(Drop)]
pub struct LazySymbol<'a> {
    /// The names of the file, from the first byte of its own name on.
    names: &'a [u8],
    /// Its value: for a label, its address.
    pub value: u32,
    /// How many bytes it names, or 0.
    pub size: u32,
}

impl<'a> LazySymbol<'a> {
    /// The symbol, with its name.
    pub fn symbol(&self) -> Symbol<'a>
        ensures { shown_symbol result ≡ shown_lazy self.now }
    {
        Symbol {
            name: before_nul(self.names),
            value: self.value,
            size: self.size,
        }
    }

    /// Whether it has a nonempty name.
    #[tactic(auto, using(crate::proofs::Names::names))]
    pub fn is_named(&self) -> bool
        ensures { result ≡ has_name (shown_lazy self.now) }
    {
        match self.names {
            [first, ..] => *first != 0,
            [] => false,
        }
    }
}

/// The symbols of a file, in the order of its symbol table, with names that are not looked up yet.
#[derive(Drop)]
pub struct LazySymbols<'a> {
    entries: Entries<'a, SymbolEntry>,
    names: &'a [u8],
    pub ghost named: { All (λ e. e.name ≤ length names.now)
        (table_entries symbol_entry 16 entries.file.now entries.at entries.left) },
}

impl<'a> LazySymbols<'a> {
    ghost use Rattle.elf_view.specs.Left.{lazy_left};

    pub(crate) fn new(entries: Entries<'a, SymbolEntry>, names: &'a [u8]) -> LazySymbols<'a>
        requires { All (λ e. e.name ≤ length names.now)
            (table_entries symbol_entry 16 entries.file.now entries.at entries.left) }
        ensures { lazy_left result ≡ map (symbol_of names.now)
            (table_entries symbol_entry 16 entries.entry.file.now entries.entry.at entries.entry.left) }
    {
        LazySymbols { entries, names }
    }
}

impl<'a> Iterator for LazySymbols<'a> {
    ghost use Rattle.std.specs.Iterator.{YieldsFirstBy, item_count};
    ghost use Rattle.elf_view.specs.Left.{lazy_left};

    type Item = LazySymbol<'a>;

    ghost next_gives = { YieldsFirstBy shown_lazy lazy_left };

    ghost remaining = { item_count lazy_left };

    fn next(&mut self) -> Option<LazySymbol<'a>> {
        let entry = self.entries.next()?;
        Some(LazySymbol {
            names: names_from(self.names, entry.name as usize),
            value: entry.value,
            size: entry.size,
        })
    }
}

/// The symbols of a file, in the order of its symbol table.
#[derive(Drop)]
pub struct Symbols<'a> {
    lazy: LazySymbols<'a>,
}

impl<'a> Symbols<'a> {
    ghost use Rattle.elf_view.specs.Left.{lazy_left, symbols_left};

    pub(crate) fn new(lazy: LazySymbols<'a>) -> Symbols<'a>
        ensures { symbols_left result ≡ lazy_left lazy.entry }
    {
        Symbols { lazy }
    }
}

impl<'a> Iterator for Symbols<'a> {
    ghost use Rattle.std.specs.Iterator.{YieldsFirstBy, item_count};
    ghost use Rattle.elf_view.specs.Left.{symbols_left};

    type Item = Symbol<'a>;

    ghost next_gives = { YieldsFirstBy shown_symbol symbols_left };

    ghost remaining = { item_count symbols_left };

    fn next(&mut self) -> Option<Symbol<'a>> {
        let lazy = self.lazy.next()?;
        Some(lazy.symbol())
    }
}
