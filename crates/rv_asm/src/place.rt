//! The position of a line: in the text or in the data, after the earlier lines.
#![tactic(auto, unfolding(crate::specs::Places::section_address, crate::specs::Places::place_after, crate::specs::Places::fits_at))]

ghost use Rattle.std.specs.Prelude.{◌≡◌, ◌≤◌, ◌+◌, ◌<◌, ◌^◌, Ok};
ghost use Rattle.rv_asm.specs.Items.{size_of};
ghost use Rattle.rv_asm.specs.Places.{IsPlaceInLimits, start_of_text, section_address, length_at, grown, place_after, fits_at};
ghost use Rattle.rv_asm.specs.Seen.{item_view, IsSoundStatement};

use crate::item::{SourceItem, is_code, size_of};
use crate::refusal::AsmKind;

/// The maximum number of bytes of a source, of the text and of the data.
pub const MOST: usize = 0x10_0000;

/// The position of a line: its section, and the lengths of both sections before it.
#[derive(Clone, Copy)]
pub struct SectionPlace {
    pub in_text: bool,
    pub text_len: u32,
    pub data_len: u32,
}

impl SectionPlace {
    /// The beginning of an empty text.
    pub fn start() -> SectionPlace
        ensures { result ≡ start_of_text }
    {
        SectionPlace {
            in_text: true,
            text_len: 0,
            data_len: 0,
        }
    }

    /// The address: the text starts at 0x10000, and the data at 0x200000.
    pub fn address(self) -> u32
        requires { IsPlaceInLimits self }
        ensures { result ≡ section_address self }
    {
        if self.in_text {
            0x1_0000 + self.text_len
        } else {
            0x20_0000 + self.data_len
        }
    }

    fn length(self) -> u32
        ensures { result ≡ length_at self }
    {
        if self.in_text {
            self.text_len
        } else {
            self.data_len
        }
    }

    fn grown(self, size: u32) -> SectionPlace
        requires place { IsPlaceInLimits self }
        requires size { length_at self + size ≤ 1048576 }
        ensures { result ≡ grown self size }
    {
        if self.in_text {
            SectionPlace {
                text_len: self.text_len + size,
                ..self
            }
        } else {
            SectionPlace {
                data_len: self.data_len + size,
                ..self
            }
        }
    }

    /// The position after an item.
    pub fn after(self, item: SourceItem<'_>) -> SectionPlace
        requires place { IsPlaceInLimits self }
        requires sound { IsSoundStatement item }
        requires fits { fits_at self (item_view item) ≡ Ok tt }
        ensures place { result ≡ place_after self (item_view item.entry) }
        ensures within { IsPlaceInLimits result }
    {
        match item {
            SourceItem::Section(in_text) => SectionPlace { in_text, ..self },
            _ => self.grown(size_of(item) as u32),
        }
    }

    /// `Misplaced` if code is in the data or at an address that is not a multiple of 4, and `TooLarge` if the item
    /// would make its section too long.
    pub fn check(self, item: SourceItem<'_>) -> Result<(), AsmKind>
        requires place { IsPlaceInLimits self }
        requires sound { IsSoundStatement item }
        ensures { result ≡ fits_at self (item_view item.entry) }
    {
        if is_code(item) && (!self.in_text || self.address() % 4 != 0) {
            return Err(AsmKind::Misplaced);
        }
        let length = self.length() as usize + size_of(item);
        if length > MOST {
            return Err(AsmKind::TooLarge(length as u64));
        }
        Ok(())
    }
}
