//! The sink that keeps nothing.

ghost use Rattle.std.specs.Prelude.{◌≡◌, None, length};
ghost use Rattle.cf_io.specs.Causes.{HasCause};
ghost use Rattle.cf_io.specs.Puts.{Puts};

use crate::failed::Failed;
use crate::sink::Sink;

/// A sink that accepts every piece as a whole, keeps nothing and never fails.
#[derive(Clone, Copy)]
pub struct Nowhere;

impl Sink for Nowhere {
    ghost written = { λ _. None };

    ghost faults = { λ _. 0 };

    fn put(&mut self, bytes: &[u8]) -> Result<usize, Failed>
        ensures bytes { Puts None None bytes.now result }
        ensures cause { HasCause 0 0 result }
        ensures whole { result ≡ Ok (length bytes.now) }
    {
        Ok(bytes.len())
    }
}
