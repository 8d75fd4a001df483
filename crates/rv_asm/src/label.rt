//! The labels of a source.
#![tactic(auto)]

ghost use Rattle.std.specs.Prelude.{◌≡◌, map, IfOk};
ghost use Rattle.std.specs.Str.{IsUtf8};
ghost use Rattle.rv_asm.specs.Labels.{label_view};

use std::alloc::{AllocError, Global};
use std::marker::Model;
use std::str;
use texts::Name;

/// The name with these bytes.
pub(crate) fn name_of(alloc: Global, bytes: &[u8]) -> Result<Name, AllocError>
    requires { IsUtf8 bytes.now }
    ensures { IfOk result (λ name. name ≡ bytes.now) }
{
    match str::from_utf8(bytes) {
        Ok(text) => Ok(Name::new(String::from_str(alloc, text)?)),
        Err(_) => unreachable!(),
    }
}

/// A label: its name, its value, whether it is exported, and whether it is in the text.
#[derive(Drop)]
pub struct Label {
    pub name: Name,
    pub value: u32,
    pub global: bool,
    pub in_text: bool,
}

/// The labels of a source, in the order of their definition.
#[derive(Drop)]
pub struct Labels {
    list: Vec<Label>,
}

impl Model for Labels {
    ghost use Rattle.std.specs.Prelude.{List, map};
    ghost use Rattle.std.specs.Str.{IsUtf8};
    ghost use Rattle.rv_asm.specs.Labels.{LabelView, label_view};

    ghost Value = { List LabelView };

    ghost view = { λ labels. map label_view labels.list.items };
}

impl Labels {
    /// The labels of a list.
    pub fn new(list: Vec<Label>) -> Labels
        ensures { result ≡ map label_view list.items }
    {
        Labels { list }
    }

    /// The list.
    pub fn as_slice(&self) -> &[Label]
        ensures { map label_view result.now ≡ self.now }
    {
        self.list.as_slice()
    }
}
