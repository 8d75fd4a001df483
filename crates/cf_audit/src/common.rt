//! How far two texts are the same.

ghost use Rattle.std.specs.Prelude.{◌≡◌, ◌≤◌, length, slice_get, take};
ghost use Rattle.cf_audit.specs.Compared.{DifferAt};

/// The length of the longest common prefix of the two.
pub(crate) fn common(one: &[u8], other: &[u8]) -> usize
    ensures within_one { result ≤ length one.now }
    ensures within_other { result ≤ length other.now }
    ensures same { take result one.now ≡ take result other.now }
    ensures apart { DifferAt one.now other.now result }
{
    let mut same = 0;
    while same < one.len() && same < other.len() && one[same] == other[same] {
        same += 1;
    }
    same
}

/// The byte at an index of a text, if it has one.
pub(crate) fn byte_at(text: &[u8], place: usize) -> Option<u8>
    ensures { result ≡ slice_get text.now place }
{
    text.get(place).copied()
}
