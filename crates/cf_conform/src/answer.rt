//! The answer for a log.

use cf_log::{LogErr, LogKind, ObservedPart};
use cf_run::Ran;

/// How the processing of a log finishes.
#[derive(Clone, Copy)]
pub enum Conformed {
    /// As any run may finish. `Exit` and `Trap` come at the end of the log, `ReadFault` if the log failed.
    Ran(Ran),

    /// The log has ended, and the program has not.
    LogEnd,

    /// A line is refused.
    BadLog(LogErr),

    /// The observation in this line does not agree with the processor.
    Differs { line: u32, part: ObservedPart },
}

/// Why the processing of a log stops at a line.
#[derive(Clone, Copy)]
pub(crate) enum LineStop {
    /// The line is refused.
    Refused(LogKind),

    /// The observation does not agree.
    Differs(ObservedPart),

    /// The output failed in a call of the environment.
    WriteFault,
}
