//! How a text is split into lines.

ghost use Rattle.std.specs.Prelude.{◌≡◌, ◌<◌, ◌≤◌, ◌+◌, ◌∷◌, length, take, drop};
ghost use Rattle.rv_text.specs.Lines.{without_return, text_lines};

use crate::pieces::find_byte;

#[tactic(auto, unfolding(crate::specs::Lines::without_return))]
fn without_return(line: &[u8]) -> &[u8]
    ensures line { result.now ≡ without_return line.now }
    ensures within { length result.now ≤ length line.now }
{
    match line.strip_suffix(b"\r") {
        Some(front) => front,
        None => line,
    }
}

/// The text before the byte at an index, and the text after it.
pub fn cut_at(text: &[u8], index: usize) -> (&[u8], &[u8])
    requires { index < length text.now }
    ensures before { result.0.now ≡ take index text.now }
    ensures after { result.1.now ≡ drop (index + 1) text.now }
    ensures within { length result.0.now ≤ length text.now }
    ensures shorter { length result.1.now < length text.now }
{
    (&text[..index], &text[index + 1..])
}

/// The first line of a nonempty text, and the text after it.
#[tactic(auto, unfolding(crate::specs::Lines::text_lines), using(crate::proofs::LineCuts::lines))]
pub fn cut_line(text: &[u8]) -> (&[u8], &[u8])
    requires { 0 < length text.now }
    ensures lines { text_lines text.now ≡ result.0.now ∷ text_lines result.1.now }
    ensures line { length result.0.now ≤ length text.now }
    ensures shorter { length result.1.now < length text.now }
{
    let end = find_byte(text, b'\n');
    if end < text.len() {
        let (line, after) = cut_at(text, end);
        (without_return(line), after)
    } else {
        (text, &[])
    }
}
