//! The guess with which a policy issues an instruction.

/// Where fetch goes on after an instruction that a policy issues. A branch or a jump can be issued with several
/// guesses, any other instruction only with the next word; a rule leaves one guess for each.
#[derive(Clone, Copy, PartialEq, Eq)]
pub enum GuessRule {
    /// Every guess is offered except an address.
    Any,

    /// The next word.
    Next,

    /// The target of a branch or of JAL; after JALR fetch waits.
    Taken,

    /// The target of a backward branch, and of JAL; the next word after any other branch; after JALR fetch waits.
    Backward,

    /// After a branch or a jump fetch waits.
    Wait,
}
