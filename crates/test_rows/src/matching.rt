//! How the bytes of an outcome are compared with the expected ones.

ghost use Rattle.std.specs.Prelude.{◌↔◌, IsTrue};
ghost use Rattle.test_rows.specs.Matches.{IsAsWanted};

/// How the bytes of an outcome have to match the expected ones.
#[derive(Clone, Copy)]
pub enum Matching {
    /// They are the same.
    Whole,
    /// The actual bytes begin with the expected ones.
    Begins,
    /// The actual bytes are a proper prefix of the expected ones.
    Front,
    /// The actual bytes are this many.
    Size(usize),
}

impl Matching {
    /// Whether the actual bytes match the expected ones.
    pub fn holds(self, left: &[u8], wanted: &[u8]) -> bool
        ensures { IsTrue result ↔ IsAsWanted self left.now wanted.now }
    {
        match self {
            Matching::Whole => left == wanted,
            Matching::Begins => left.starts_with(wanted),
            Matching::Front => left.len() < wanted.len() && wanted.starts_with(left),
            Matching::Size(size) => left.len() == size,
        }
    }
}
