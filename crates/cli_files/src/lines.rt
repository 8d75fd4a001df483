//! Reports of one line.

ghost use Rattle.std.specs.Prelude.{◌≡◌, ◌≤◌, length, codes};
ghost use Rattle.texts.specs.Lines.{line as line_of, counted_line};

use texts::Page;

/// The report of unrecognised arguments: the index of the first unexpected one.
pub fn bad_words(index: u32) -> Page
    ensures { result ≡ counted_line (codes "bad words at ") index }
{
    let mut page = Page::new();
    page.push_counted(b"bad words at ", u64::from(index));
    page
}

/// A report of one line.
pub fn line(text: &[u8]) -> Page
    requires { length text.now ≤ 60 }
    ensures { result ≡ line_of text.now }
{
    let mut page = Page::new();
    page.push_line(text);
    page
}
