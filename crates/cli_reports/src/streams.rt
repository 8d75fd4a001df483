//! The streams that a run borrows, as one value.

use cf_io::{Sink, Source};

/// What a run borrows besides the files: the program's input and output, and the report.
#[derive(Drop)]
pub struct RunStreams<'a, S: Source, K: Sink, R: Sink> {
    pub input: &'a mut S,
    pub output: &'a mut K,
    pub report: &'a mut R,
}
