//! The outcome of a command, and the answers that several commands give.

ghost use Rattle.std.specs.Prelude.{◌≡◌, [], codes};
ghost use Rattle.texts.specs.Lines.{line as line_of};
ghost use Rattle.cli_files.specs.Answers.{unread_line};
ghost use Rattle.report_refusals.specs.Programs.{bad_program as bad_program_text};
ghost use Rattle.cli_files.specs.declared.status.Status.TheVariants.{BadProgram, Done as Carried, NoMemory as Refused, ReadFault, WriteFault};

use crate::lines::line;
use crate::status::{Status, Which};
use report_refusals::{ProgramErr, bad_program};
use texts::Page;

/// The status of a command, and the closing lines of its report.
#[derive(Drop)]
pub struct Answer {
    pub status: Status,
    pub closing: Page,
}

/// The answer of a command that was carried out and has nothing more to report.
pub fn done() -> Answer
    ensures status { result.status ≡ Carried }
    ensures closing { result.closing ≡ [] }
{
    Answer {
        status: Status::Done,
        closing: Page::new(),
    }
}

/// The answer if memory was refused.
pub fn no_memory() -> Answer
    ensures status { result.status ≡ Refused }
    ensures closing { result.closing ≡ line_of (codes "no memory") }
{
    Answer {
        status: Status::NoMemory,
        closing: line(b"no memory"),
    }
}

/// The line that says what could not be read.
fn unread_page(which: Which) -> Page
    ensures { result ≡ unread_line which }
{
    match which {
        Which::Layout => line(b"read fault layout"),
        Which::Program => line(b"read fault program"),
        Which::Script => line(b"read fault script"),
        Which::Source => line(b"read fault source"),
        Which::Delays => line(b"read fault delays"),
        Which::Trace => line(b"read fault trace"),
        Which::Input => line(b"read fault input"),
    }
}

/// The answer if this could not be read.
pub fn unread(which: Which) -> Answer
    ensures status { result.status ≡ ReadFault which }
    ensures closing { result.closing ≡ unread_line which }
{
    Answer {
        status: Status::ReadFault(which),
        closing: unread_page(which),
    }
}

/// The answer if the output failed.
pub fn write_fault() -> Answer
    ensures status { result.status ≡ WriteFault }
    ensures closing { result.closing ≡ line_of (codes "write fault output") }
{
    Answer {
        status: Status::WriteFault,
        closing: line(b"write fault output"),
    }
}

/// The answer if a file is not a program.
pub fn no_program(error: ProgramErr) -> Answer
    ensures status { result.status ≡ BadProgram error }
    ensures closing { result.closing ≡ bad_program_text error }
{
    Answer {
        status: Status::BadProgram(error),
        closing: bad_program(error),
    }
}
