//! Whether two memories are the same.

ghost use Rattle.std.specs.Prelude.{◌≡◌, ◌↔◌, IsTrue};

use crate::Regions;
use crate::region::Region;

impl Region {
    /// Whether the two regions have the same bounds, permissions, bytes and code.
    fn same(&self, other: &Region) -> bool
        ensures { IsTrue result ↔ (self.now ≡ other.now) }
    {
        self.base == other.base
            && self.write == other.write
            && self.exec == other.exec
            && self.bytes.as_slice() == other.bytes.as_slice()
            && self.code.as_slice() == other.code.as_slice()
    }
}

/// Whether the two lists have the same regions in the same order.
fn same_regions(list: &[Region], other: &[Region]) -> bool
    ensures { IsTrue result ↔ (list.now ≡ other.now) }
{
    match (list, other) {
        ([], []) => true,
        ([first, rest @ ..], [other_first, other_rest @ ..]) => {
            first.same(other_first) && same_regions(rest, other_rest)
        }
        _ => false,
    }
}

impl Regions {
    /// Whether the two memories have the same regions, with the same bytes and code, and the same break.
    pub fn same(&self, other: &Regions) -> bool
        ensures { IsTrue result ↔ (self.now ≡ other.now) }
    {
        self.program_break == other.program_break
            && same_regions(self.list.as_slice(), other.list.as_slice())
    }
}
