//! Sources and sinks in memory for several tests.
use cf_io::{MemSink, MemSource};
use std::process::Abort;

/// The numbers of the calls that fail.
pub(crate) fn failing(rt: &(impl Abort + AllocGlobal), calls: &[u64]) -> Vec<u64> {
    calls.to_vec(rt.alloc()).ok().expect(rt, "memory")
}

pub(crate) fn bytes_of(rt: &(impl Abort + AllocGlobal), bytes: &[u8]) -> Vec<u8> {
    bytes.to_vec(rt.alloc()).ok().expect(rt, "memory")
}

/// Six letters; each take gets at most three.
pub(crate) fn letters(rt: &(impl Abort + AllocGlobal), fails: &[u64]) -> MemSource {
    MemSource::new(bytes_of(rt, b"abcdef"), 3, failing(rt, fails))
}

/// A sink with room for this many bytes.
pub(crate) fn sink_of(rt: &(impl Abort + AllocGlobal), room: usize, fails: &[u64]) -> MemSink {
    MemSink::new(rt.alloc(), room, failing(rt, fails))
        .ok()
        .expect(rt, "memory")
}
