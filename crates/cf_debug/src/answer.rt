//! How a session ends.

/// How a session of the debugger ends.
#[derive(Clone, Copy, Debug, PartialEq, Eq)]
pub enum Debugged {
    /// A line said `end`, or the commands are at their end.
    Done,

    /// There are more bytes of commands than 16,777,216.
    Limit,

    /// The commands failed.
    ReadFault,

    /// The output failed in a call of the environment.
    WriteFault,

    /// The report failed.
    ReportFault,
}

/// Why a command failed.
#[derive(Clone, Copy)]
pub(crate) enum Broken {
    /// The output failed in a call of the environment.
    Output,

    /// The report failed.
    Report,
}
