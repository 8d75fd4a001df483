//! Comparing the words of two texts.

ghost use Rattle.std.specs.Prelude.{◌≡◌, ◌↔◌, IsTrue};
ghost use Rattle.cf_log.specs.Lines.{after_time as words_after};
ghost use Rattle.run_scripts.specs.Words.{words_of};
ghost use Rattle.cf_conform.specs.Judging.{AgreesWith};
ghost use Rattle.cf_conform.specs.Wanted.{without_feed as text_before};

use cf_log::after_time;
use run_scripts::Words;
use texts::Page;

/// Whether two texts have the same words.
#[tactic(auto, using(crate::proofs::WordPairs::word_pairs))]
fn same_words(one: &[u8], other: &[u8]) -> bool
    ensures { IsTrue result ↔ (words_of one.now ≡ words_of other.now) }
{
    let mut left = Words::of(one);
    let mut right = Words::of(other);
    while !left.is_empty() && !right.is_empty() {
        if left.next() != right.next() {
            return false;
        }
    }
    left.is_empty() && right.is_empty()
}

/// A line without the line feed at its end.
#[tactic(auto, unfolding(crate::specs::Wanted::without_feed))]
fn without_feed(line: &[u8]) -> &[u8]
    ensures { result.now ≡ text_before line.now }
{
    &line[..line.len().saturating_sub(1)]
}

/// Whether the words of a line, after its time, are those of the line that it should be.
pub(crate) fn agrees(line: &[u8], wanted: Option<Page>) -> bool
    ensures { IsTrue result ↔ AgreesWith (words_after line.now) wanted }
{
    match wanted {
        Some(page) => same_words(after_time(line), without_feed(page.bytes())),
        None => false,
    }
}
