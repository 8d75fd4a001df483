//! In which way a list of moves is wrong.

/// In which way a list of moves is wrong at its last move, in the order of the tests.
#[derive(Clone, Copy, PartialEq, Eq)]
pub enum WrongKind {
    /// It retires an instruction that the sequential machine does not retire next.
    Retired,
    /// It ends the program in another way than the sequential machine.
    Ended,
    /// It has an instruction answered that is not the machine's next, or that gets a different answer from the
    /// machine's.
    Output,
    /// No move leads on, and the processor is not at a place where it may rest.
    Stuck,
    /// The processor rests with other registers or memory than the machine, or fetch would go on elsewhere.
    Memory,
}
