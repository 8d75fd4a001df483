//! A refusal's name, and the values that it keeps.

ghost use Rattle.std.specs.Prelude.{◌≡◌, ◌+◌, ◌*◌, ◌≤◌, ◌++◌, ◌∷◌, [], map, length};
ghost use Rattle.report_refusals.specs.Variants.{cut, spaced, variant};
ghost use Rattle.report_refusals.specs.Kept.{kept_text};
ghost use Rattle.texts.specs.Room.{page_room};

use crate::cutting::cut;
use itoa::Buffer;
use layout_file::class_name;
use rv_inst::Class;
use texts::Page;

/// A value that a refusal keeps.
#[derive(Clone, Copy)]
pub(crate) enum KeptValue {
    Class(Class),
    Number(u64),
    Integer(i64),
}

/// Appends a class by its name in layout files, a number in decimal.
#[tactic(auto, using(crate::proofs::Cuts::short_name))]
fn push_kept(page: &mut Page, value: KeptValue)
    requires { length page.old + 20 ≤ page_room }
    ensures text { page.new ≡ page.old ++ kept_text value }
    ensures size { length page.new ≤ length page.old + 20 }
{
    match value {
        KeptValue::Class(class) => page.push(class_name(class).as_bytes()),
        KeptValue::Number(number) => page.push_decimal(number),
        KeptValue::Integer(integer) => page.push(Buffer::new().format(integer).as_bytes()),
    }
}

/// Appends values, each after one space.
#[tactic(auto, unfolding(crate::specs::Variants::spaced))]
fn push_spaced(page: &mut Page, kept: &[KeptValue])
    requires { length page.old + 21 * length kept.now ≤ page_room }
    ensures text { page.new ≡ page.old ++ spaced (map kept_text kept.now) }
    ensures size { length page.new ≤ length page.old + 21 * length kept.now }
{
    for value in kept {
        page.push(b" ");
        push_kept(page, *value);
    }
}

/// Appends a variant's name and the values that it keeps.
#[tactic(auto, unfolding(crate::specs::Variants::variant))]
pub(crate) fn push_variant(page: &mut Page, name: &[u8], kept: &[KeptValue])
    requires { length page.old + length name.now + 21 * length kept.now ≤ page_room }
    ensures text { page.new ≡ page.old ++ variant name.now (map kept_text kept.now) }
    ensures size { length page.new ≤ length page.old + length name.now + 21 * length kept.now }
{
    page.push(name);
    push_spaced(page, kept);
}

/// Appends a variant's name and the text that it keeps, truncated.
#[tactic(auto, unfolding(crate::specs::Variants::spaced, crate::specs::Variants::variant))]
pub(crate) fn push_text(page: &mut Page, name: &[u8], text: &str)
    requires { length page.old + length name.now + 41 ≤ page_room }
    ensures text { page.new ≡ page.old ++ variant name.now (cut text.now ∷ []) }
    ensures size { length page.new ≤ length page.old + length name.now + 41 }
{
    page.push(name);
    page.push(b" ");
    page.push(cut(text).as_bytes());
}
