//! A call of the simulator, and its outcome.

use std::alloc::{AllocError, Global};

/// The capacity of the output if a row does not give it.
const ROOM: usize = 100_000;

/// A name, and the bytes stored under it.
pub type NamedBytes = (String, Vec<u8>);

/// A call of the simulator.
#[derive(Drop)]
pub struct Call {
    /// The arguments of the command line.
    pub words: Vec<String>,
    /// The files in memory.
    pub files: Vec<NamedBytes>,
    /// The bytes of the input.
    pub input: Vec<u8>,
    /// How many bytes of the input each take gets at most.
    pub piece: usize,
    /// The capacity of the output, in bytes.
    pub room: usize,
    /// The numbers of the calls that fail.
    pub fails: FailingCallNumbers,
}

/// The numbers of the calls that fail, counted from 1.
#[derive(Drop)]
pub struct FailingCallNumbers {
    /// Of the calls that read files.
    pub files: Vec<u64>,
    /// Of the calls that take from the input.
    pub input: Vec<u64>,
    /// Of the calls that write to the output.
    pub output: Vec<u64>,
    /// Of the calls that write to the report.
    pub report: Vec<u64>,
}

/// The outcome of a call.
#[derive(Drop)]
pub struct CallOutcome {
    /// The exit status of the process.
    pub status: u8,
    /// What was written to the output.
    pub output: Vec<u8>,
    /// What was written to the report.
    pub report: Vec<u8>,
}

/// The bytes stored under the name, if there are any.
pub(crate) fn find<'a>(list: &'a [NamedBytes], name: &str) -> Option<&'a [u8]> {
    for (other, bytes) in list {
        if other.as_str() == name {
            return Some(bytes.as_slice());
        }
    }
    None
}

/// A copy of the bytes, with the name.
fn copy_under(alloc: Global, name: &str, bytes: &[u8]) -> Result<NamedBytes, AllocError> {
    let name = String::from_str(alloc, name)?;
    Ok((name, bytes.to_vec(alloc)?))
}

/// Stores a copy of the bytes under the name, replacing earlier ones.
pub(crate) fn keep(
    alloc: Global,
    list: &mut Vec<NamedBytes>,
    name: &str,
    bytes: &[u8],
) -> Result<(), AllocError> {
    list.retain(|kept| kept.0.as_str() != name);
    list.push(copy_under(alloc, name, bytes)?)?;
    Ok(())
}

impl FailingCallNumbers {
    /// No call fails.
    pub(crate) fn new(alloc: Global) -> FailingCallNumbers {
        FailingCallNumbers {
            files: Vec::new(alloc),
            input: Vec::new(alloc),
            output: Vec::new(alloc),
            report: Vec::new(alloc),
        }
    }

    /// The list with this name, if a row has one.
    pub(crate) fn list_of(&mut self, word: &str) -> Option<&mut Vec<u64>> {
        match word {
            "files" => Some(&mut self.files),
            "input" => Some(&mut self.input),
            "output" => Some(&mut self.output),
            "report" => Some(&mut self.report),
            _ => None,
        }
    }
}

impl Call {
    /// A call without arguments, files and failures.
    pub(crate) fn new(alloc: Global) -> Call {
        Call {
            words: Vec::new(alloc),
            files: Vec::new(alloc),
            input: Vec::new(alloc),
            piece: 1,
            room: ROOM,
            fails: FailingCallNumbers::new(alloc),
        }
    }
}
