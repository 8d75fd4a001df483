//! The first pass over the lines: the position of each, and the labels.

ghost use Rattle.std.specs.Prelude.{◌≡◌, ◌≤◌, ◌⊎◌, [], length, Ok, Err, IfOk, IfErr, OnOk};
ghost use Rattle.rv_text.specs.Lines.{text_lines};
ghost use Rattle.rv_asm.specs.Scanning.{label_in};
ghost use Rattle.rv_asm.specs.Places.{IsPlaceInLimits, start_of_text, fits_at, item_at};
ghost use Rattle.rv_asm.specs.Assembling.{with_label, drafted, draft_from};
ghost use Rattle.rv_asm.specs.Spelling.{IsRefusal};
ghost use Rattle.rv_asm.specs.Seen.{item_view, ReadsItem, IsSoundStatement};

use crate::item::SourceItem;
use crate::label_table::LabelTable;
use crate::place::SectionPlace;
use crate::reading::read_statement;
use crate::refusal::{AsmErr, AsmKind};
use crate::scanning::{label_in, said, statement_in};
use rv_text::cut_line;
use std::alloc::Global;

/// What is known before a line: its position, and the labels so far.
#[derive(Drop)]
pub struct Draft {
    pub place: SectionPlace,
    pub labels: LabelTable,
}

/// The item of a statement at a position.
#[tactic(auto, unfolding(crate::specs::Places::item_at))]
pub fn item_at(place: SectionPlace, text: &[u8]) -> Result<SourceItem<'_>, AsmKind>
    requires place { IsPlaceInLimits place }
    requires text { length text.now ≤ 1048576 }
    ensures item { ReadsItem result (item_at place text.now) }
    ensures sound { IfOk result (λ item. IsSoundStatement item) }
    ensures fits { IfOk result (λ item. fits_at place (item_view item) ≡ Ok tt) }
{
    let item = read_statement(place.address(), text)?;
    place.check(item)?;
    Ok(item)
}

/// Defines the label that a line begins with.
fn define_label(
    alloc: Global,
    labels: &mut LabelTable,
    place: SectionPlace,
    text: &[u8],
) -> Result<(), AsmKind>
    requires { IsPlaceInLimits place }
    ensures ok { OnOk result (with_label labels.old place (label_in text.now) ≡ Ok labels.new) }
    ensures err { IfErr result (λ kind. IsRefusal kind (with_label labels.old place (label_in text.now))) }
{
    if let Some(name) = label_in(text) {
        if labels.value_of(name).is_some() {
            return Err(AsmKind::LabelTwice);
        }
        labels.define(alloc, name, place.address(), place.in_text)?;
    }
    Ok(())
}

impl Draft {
    /// Reads a line with this text, and moves past it.
    #[tactic(auto, unfolding(crate::specs::Assembling::drafted))]
    fn read(&mut self, alloc: Global, text: &[u8]) -> Result<(), AsmKind>
        requires place { IsPlaceInLimits self.old.place }
        requires text { length text.now ≤ 1048576 }
        ensures ok { OnOk result (drafted self.old text.now ≡ Ok self.new) }
        ensures err { IfErr result (λ kind. IsRefusal kind (drafted self.old text.now)) }
        ensures place { OnOk result (IsPlaceInLimits self.new.place) }
    {
        define_label(alloc, &mut self.labels, self.place, text)?;
        let item = item_at(self.place, statement_in(text))?;
        self.place = self.place.after(item);
        Ok(())
    }
}

/// What is known after all lines of a source.
pub fn first_look(alloc: Global, source: &[u8]) -> Result<Draft, AsmErr>
    requires { length source.now ≤ 1048576 }
    ensures ok { IfOk result (λ draft. draft_from 0 (record { place = start_of_text; labels = [] }) (text_lines source.now) ≡ Ok draft) }
    ensures err { IfErr result (λ e. (e.kind ≡ AsmKind.NoMemory) ⊎ (draft_from 0 (record { place = start_of_text; labels = [] }) (text_lines source.now) ≡ Err e)) }
{
    let mut draft = Draft {
        place: SectionPlace::start(),
        labels: LabelTable::new(alloc),
    };
    let mut above = 0;
    let mut rest = source;
    while !rest.is_empty() {
        let (line, later) = cut_line(rest);
        above += 1;
        match draft.read(alloc, said(line)) {
            Ok(()) => {}
            Err(kind) => return Err(AsmErr { line: above, kind }),
        }
        rest = later;
    }
    Ok(draft)
}
