//! The guesses that an instruction can be issued with.

ghost use Rattle.std.specs.Prelude.{◌≡◌, false};

/// The guesses, other than an address, that an instruction can be issued with now.
#[derive(Clone, Copy, PartialEq, Eq)]
pub struct Issuable {
    /// The next word.
    pub next: bool,

    /// The target of a branch or of JAL.
    pub taken: bool,

    /// To wait: fetch waits for the outcome.
    pub wait: bool,
}

impl Issuable {
    /// No guess.
    #[inline(always)]
    pub(crate) fn never() -> Issuable
        ensures { result ≡ record { next = false; taken = false; wait = false } }
    {
        Issuable {
            next: false,
            taken: false,
            wait: false,
        }
    }
}
