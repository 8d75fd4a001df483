//! Truncated texts.

ghost use Rattle.std.specs.Prelude.{◌≡◌, ◌≤◌, length};
ghost use Rattle.report_refusals.specs.Variants.{cut};

/// The text; if it has over 40 bytes, a prefix of at most 40, with no character split.
#[tactic(auto, using(crate::proofs::Cuts::cut_here))]
pub(crate) fn cut(text: &str) -> &str
    ensures front { result.now ≡ cut text.now }
    ensures short { length result.now ≤ 40 }
{
    &text[..text.floor_char_boundary(40)]
}
