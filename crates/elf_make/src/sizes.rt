//! The lengths and the offsets of the parts of a file.
#![tactic(auto, unfolding(crate::specs::Sizes::data_offset, crate::specs::Sizes::symbols_offset, crate::specs::Sizes::names_offset, crate::specs::Sizes::section_names_offset, crate::specs::Sizes::section_names_end, crate::specs::Sizes::sections_offset))]

ghost use Rattle.std.specs.Prelude.{◌≡◌, ◌≤◌, ◌<◌, length, map};
ghost use Rattle.rv_asm.specs.Labels.{label_view};
ghost use Rattle.rv_asm.specs.Reading.{padding};
ghost use Rattle.rv_asm.specs.Small.{IsSmallObject, joined_names};
ghost use Rattle.elf_make.specs.declared.binding.SymbolBinding.TheVariants.{Local};
ghost use Rattle.elf_make.specs.Files.{sizes_of};
ghost use Rattle.elf_make.specs.Sizes.{AreSmall, padded, data_offset, symbols_offset, symbols_len, names_offset, section_names_offset, section_names_end, sections_offset};
ghost use Rattle.elf_make.specs.Symbols.{bound, terminated_names, symbol_names};

use rv_asm::{Label, Object};

/// Where the text begins, after the headers.
pub const TEXT_OFFSET: u32 = 116;

/// The length of the names of the sections.
pub const SECTION_NAMES_LEN: u32 = 39;

/// How many bytes the text, the data and the names of the symbols have, how many labels there are, and how many of them
/// are local.
#[derive(Clone, Copy)]
pub struct Sizes {
    pub text_len: u32,
    pub data_len: u32,
    pub labels: u32,
    pub locals: u32,
    pub names_len: u32,
}

/// The padding of a length to a multiple of 4.
#[tactic(auto)]
pub fn padding(len: u32) -> u32
    ensures padding { result ≡ padding len 4 }
    ensures few { result < 4 }
{
    (4 - len % 4) % 4
}

#[tactic(auto)]
fn padded(len: u32) -> u32
    requires { len ≤ 100000000 }
    ensures { result ≡ padded len }
{
    len + padding(len)
}

/// How many labels are not exported.
#[tactic(auto, using(crate::proofs::Counts::counts))]
fn count_locals(labels: &[Label]) -> usize
    ensures count { result ≡ length (bound Local (map label_view labels.now)) }
    ensures within { result ≤ length labels.now }
{
    labels.iter().filter(|label| !label.global).count()
}

/// How many bytes the names of labels have, each with a NUL.
#[tactic(auto)]
fn terminated_names_len(labels: &[Label]) -> usize
    requires { length (terminated_names (map label_view labels.now)) ≤ 1572864 }
    ensures { result ≡ length (terminated_names (map label_view labels.now)) }
{
    let mut len = 0;
    let mut rest = labels;
    while let [label, after @ ..] = rest {
        len += label.name.as_str().len() + 1;
        rest = after;
    }
    len
}

/// How many bytes the names of the symbols have.
#[tactic(auto, using(crate::proofs::Counts::sums))]
fn names_len(labels: &[Label]) -> u32
    requires count { length (map label_view labels.now) ≤ 524288 }
    requires bytes { length (joined_names (map label_view labels.now)) ≤ 1048576 }
    ensures len { result ≡ length (symbol_names (map label_view labels.now)) }
    ensures within { result ≤ 1572865 }
{
    1 + terminated_names_len(labels) as u32
}

impl Sizes {
    /// The sizes of an object.
    #[tactic(auto, using(crate::proofs::Counts::sizes))]
    pub fn of(object: &Object) -> Sizes
        requires { IsSmallObject object.now }
        ensures sizes { result ≡ sizes_of object.now }
        ensures small { AreSmall result }
    {
        let labels = object.labels.as_slice();
        Sizes {
            text_len: object.text_bytes.as_slice().len() as u32,
            data_len: object.data_bytes.as_slice().len() as u32,
            labels: labels.len() as u32,
            locals: count_locals(labels) as u32,
            names_len: names_len(labels),
        }
    }

    /// Where the data begins.
    pub fn data_offset(self) -> u32
        requires { AreSmall self }
        ensures at { result ≡ data_offset self }
        ensures within { result ≤ 2000000 }
    {
        TEXT_OFFSET + padded(self.text_len)
    }

    /// Where the symbols begin.
    pub fn symbols_offset(self) -> u32
        requires { AreSmall self }
        ensures at { result ≡ symbols_offset self }
        ensures within { result ≤ 4000000 }
    {
        self.data_offset() + padded(self.data_len)
    }

    /// The length of the table of symbols.
    pub fn symbols_len(self) -> u32
        requires { AreSmall self }
        ensures len { result ≡ symbols_len self }
        ensures within { result ≤ 10000000 }
    {
        16 * (self.labels + 1)
    }

    /// Where the names of the symbols begin.
    pub fn names_offset(self) -> u32
        requires { AreSmall self }
        ensures at { result ≡ names_offset self }
        ensures within { result ≤ 14000000 }
    {
        self.symbols_offset() + self.symbols_len()
    }

    /// Where the names of the sections begin.
    pub fn section_names_offset(self) -> u32
        requires { AreSmall self }
        ensures at { result ≡ section_names_offset self }
        ensures within { result ≤ 16000000 }
    {
        self.names_offset() + self.names_len
    }

    /// Where the names of the sections end.
    pub fn section_names_end(self) -> u32
        requires { AreSmall self }
        ensures at { result ≡ section_names_end self }
        ensures within { result ≤ 17000000 }
    {
        self.section_names_offset() + SECTION_NAMES_LEN
    }

    /// Where the headers of the sections begin.
    pub fn sections_offset(self) -> u32
        requires { AreSmall self }
        ensures { result ≡ sections_offset self }
    {
        padded(self.section_names_end())
    }
}
