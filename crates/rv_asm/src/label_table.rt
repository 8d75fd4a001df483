//! The labels that are known before a line, each found by its name.
#![tactic(auto, using(crate::proofs::Found::tables))]

ghost use Rattle.std.specs.Prelude.{◌≡◌, ◌++◌, ◌∷◌, [], map, None, OnOk, false};
ghost use Rattle.std.specs.Str.{IsUtf8};
ghost use Rattle.rv_asm.specs.LabelTables.{FindsNames, names_of, index_of_name};
ghost use Rattle.rv_asm.specs.Labels.{label_view, value_of_label, exported};

use crate::label::{Label, Labels, name_of};
use std::alloc::{AllocError, Global};
use std::collections::BTreeMap;
use std::marker::Model;

/// The labels of a source, in the order of their definition, and the index of each name. A source may have hundreds of
/// thousands of labels and uses, so names are looked up in a map, not in the list.
#[derive(Drop)]
pub struct LabelTable {
    list: Vec<Label>,
    places: BTreeMap<Vec<u8>, usize>,
}

impl Model for LabelTable {
    ghost use Rattle.std.specs.Prelude.{List, map};
    ghost use Rattle.rv_asm.specs.LabelTables.{FindsNames, names_of, index_of_name};
    ghost use Rattle.rv_asm.specs.Labels.{LabelView, label_view};

    ghost Value = { List LabelView };

    ghost view = { λ table. map label_view table.list.items };

    ghost invariant = { λ table. FindsNames (names_of (map label_view table.list.items)) (index_of_name table.places) };
}

impl LabelTable {
    /// An empty table.
    pub fn new(alloc: Global) -> LabelTable
        ensures { result ≡ [] }
    {
        LabelTable {
            list: Vec::new(alloc),
            places: BTreeMap::new(alloc),
        }
    }

    /// Appends a label, which is not exported.
    pub fn define(
        &mut self,
        alloc: Global,
        name: &[u8],
        value: u32,
        in_text: bool,
    ) -> Result<(), AllocError>
        requires utf8 { IsUtf8 name.now }
        requires unknown { value_of_label self.old name.now ≡ None }
        ensures { OnOk result (self.new ≡ self.old ++ record { name = name.now; value = value; in_text = in_text; global = false } ∷ []) }
    {
        self.list.reserve(1)?;
        let label = Label {
            name: name_of(alloc, name)?,
            value,
            global: false,
            in_text,
        };
        let key = Vec::from_slice(alloc, name)?;
        self.places.insert(key, self.list.len())?;
        self.list.push_reserved(label);
        Ok(())
    }

    /// The value of the label with this name.
    pub fn value_of(&self, name: &[u8]) -> Option<u32>
        ensures { result ≡ value_of_label self.now name.now }
    {
        match self.places.get(name) {
            Some(place) => Some(self.list[*place].value),
            None => None,
        }
    }

    /// Exports the label with this name.
    pub fn export(&mut self, name: &[u8])
        ensures { self.new ≡ exported self.old name.now }
    {
        if let Some(place) = self.places.get(name) {
            let place = *place;
            self.list[place].global = true;
        }
    }

    /// The labels without the map.
    pub fn into_labels(self) -> Labels
        ensures { result ≡ self }
    {
        let LabelTable { list, places: _ } = self;
        Labels::new(list)
    }
}
