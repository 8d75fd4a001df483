//! The second pass over the lines: the bytes of the sections.

ghost use Rattle.std.specs.Prelude.{◌≡◌, ◌≤◌, ◌⊎◌, ◌++◌, length, Ok, Err, IfOk, IfErr, OnOk, if◌then◌else◌};
ghost use Rattle.rv_text.specs.Lines.{text_lines};
ghost use Rattle.rv_asm.specs.Places.{IsPlaceInLimits};
ghost use Rattle.rv_asm.specs.Assembling.{with_export, empty_sections, sections_from};
ghost use Rattle.rv_asm.specs.Spelling.{IsRefusal};
ghost use Rattle.rv_asm.specs.Filling.{line_pieces, IsFilled, Outputs};
ghost use Rattle.rv_asm.specs.Seen.{item_view};

use crate::draft::item_at;
use crate::item::SourceItem;
use crate::label_table::LabelTable;
use crate::pieces::item_bytes;
use crate::place::SectionPlace;
use crate::refusal::{AsmErr, AsmKind};
use crate::scanning::{said, statement_in};
use rv_text::cut_line;
use std::alloc::{AllocError, Global};

/// The contents of the sections before a line.
#[derive(Drop)]
pub struct Output {
    pub place: SectionPlace,
    pub text: Vec<u8>,
    pub data: Vec<u8>,
    pub labels: LabelTable,
}

/// Marks the label that an item exports.
fn mark(labels: &mut LabelTable, item: SourceItem<'_>)
    ensures { labels.new ≡ with_export labels.old (item_view item.entry) }
{
    if let SourceItem::Export(name) = item {
        labels.export(name);
    }
}

impl Output {
    fn append(&mut self, bytes: &[u8]) -> Result<(), AllocError>
        ensures place { self.new.place ≡ self.old.place }
        ensures labels { self.new.labels ≡ self.old.labels }
        ensures text { OnOk result (self.new.text.items ≡ (if self.old.place.in_text then self.old.text.items ++ bytes.now else self.old.text.items)) }
        ensures data_bytes { OnOk result (self.new.data.items ≡ (if self.old.place.in_text then self.old.data.items else self.old.data.items ++ bytes.now)) }
    {
        if self.place.in_text {
            self.text.extend_from_slice(bytes)
        } else {
            self.data.extend_from_slice(bytes)
        }
    }

    /// Reads a line with this text, and moves past it.
    #[tactic(auto, unfolding(crate::specs::Filling::line_pieces))]
    fn read(&mut self, alloc: Global, text: &[u8]) -> Result<(), AsmKind>
        requires place { IsPlaceInLimits self.old.place }
        requires text { length text.now ≤ 1048576 }
        ensures ok { OnOk result (IsFilled self.old text.now self.new) }
        ensures err { IfErr result (λ kind. IsRefusal kind (line_pieces self.old.labels self.old.place text.now)) }
        ensures place { OnOk result (IsPlaceInLimits self.new.place) }
    {
        let item = item_at(self.place, statement_in(text))?;
        let bytes = item_bytes(alloc, &self.labels, self.place.address(), item)?;
        mark(&mut self.labels, item);
        self.append(&bytes)?;
        self.place = self.place.after(item);
        Ok(())
    }
}

/// The sections of a source with these labels.
pub fn second_look(alloc: Global, source: &[u8], labels: LabelTable) -> Result<Output, AsmErr>
    requires { length source.now ≤ 1048576 }
    ensures ok { IfOk result (λ out. Outputs out (sections_from 0 (empty_sections labels) (text_lines source.now))) }
    ensures err { IfErr result (λ e. (e.kind ≡ AsmKind.NoMemory) ⊎ (sections_from 0 (empty_sections labels) (text_lines source.now) ≡ Err e)) }
{
    let mut out = Output {
        place: SectionPlace::start(),
        text: Vec::new(alloc),
        data: Vec::new(alloc),
        labels,
    };
    let mut above = 0;
    let mut rest = source;
    while !rest.is_empty() {
        let (line, later) = cut_line(rest);
        above += 1;
        match out.read(alloc, said(line)) {
            Ok(()) => {}
            Err(kind) => return Err(AsmErr { line: above, kind }),
        }
        rest = later;
    }
    Ok(out)
}
