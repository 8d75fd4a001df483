//! Streams and files, in memory and real: what no clause says is that they can be read and written.
use crate::in_memory::{bytes_of, failing, letters, sink_of};
use cf_io::{
    DirFiles, Empty, Failed, Files, FilesErr, MemFiles, Nowhere, Sink, Source, StdSink, StdSource,
    put_all, take_all,
};
use std::alloc::Global;
use std::io::{self, Read};
use std::process::Abort;

/// The answer of a take into a slice of four zeros, and the slice after it.
type Taken = (Result<usize, Failed>, [u8; 4]);

/// Whether two takes through the trait, each into a fresh slice of four, are these.
fn takes(source: &mut impl Source, wanted: [Taken; 2]) -> bool {
    let mut first = [0; 4];
    let mut second = [0; 4];
    let one = source.take(&mut first);
    let two = source.take(&mut second);
    [(one, first), (two, second)] == wanted
}

/// Whether three puts of two bytes each through the trait have these answers.
fn puts(sink: &mut impl Sink, wanted: [Result<usize, Failed>; 3]) -> bool {
    [sink.put(b"ab"), sink.put(b"cd"), sink.put(b"ef")] == wanted
}

/// Whether a read through the trait has this answer.
fn reads(
    files: &mut impl Files,
    alloc: Global,
    name: &str,
    most: u64,
    wanted: Result<&[u8], FilesErr>,
) -> bool {
    match files.read(alloc, name, most) {
        Ok(bytes) => wanted == Ok(bytes.as_slice()),
        Err(e) => wanted == Err(e),
    }
}

#[test]
fn source_gives_pieces(rt: HostRuntime) {
    let mut source = letters(&rt, &[]);
    assert!(rt; takes(&mut source, [(Ok(3), *b"abc\0"), (Ok(3), *b"def\0")]));
}

#[test]
fn source_fails_in_mid_stream(rt: HostRuntime) {
    let mut source = letters(&rt, &[2]);
    let mut buffer = [0; 8];
    let first = (take_all(&mut source, &mut buffer), buffer);
    let second = (take_all(&mut source, &mut buffer), buffer);
    let wanted = [(Err(Failed), *b"abc\0\0\0\0\0"), (Ok(3), *b"def\0\0\0\0\0")];
    assert!(rt; [first, second] == wanted);
}

#[test]
fn empty_is_at_its_end(rt: HostRuntime) {
    assert!(rt; takes(&mut Empty, [(Ok(0), [0; 4]), (Ok(0), [0; 4])]));
}

#[test]
fn sink_fails_in_mid_stream(rt: HostRuntime) {
    let mut sink = sink_of(&rt, 3, &[2]);
    assert!(rt; puts(&mut sink, [Ok(2), Err(Failed), Ok(1)]));
    assert!(rt; sink.bytes() == b"abe".as_slice());
}

#[test]
fn full_sink_ends_put_all(rt: HostRuntime) {
    let mut sink = sink_of(&rt, 6, &[]);
    let answers = [put_all(&mut sink, b"abcd"), put_all(&mut sink, b"efgh")];
    assert!(rt; answers == [Ok(()), Err(Failed)]);
    assert!(rt; sink.bytes() == b"abcdef".as_slice());
}

#[test]
fn nowhere_takes_all(rt: HostRuntime) {
    assert!(rt; puts(&mut Nowhere, [Ok(2), Ok(2), Ok(2)]));
}

fn name_of(rt: &(impl Abort + AllocGlobal), name: &str) -> String {
    String::from_str(rt.alloc(), name).ok().expect(rt, "memory")
}

/// Two files in memory.
fn two_files(rt: &(impl Abort + AllocGlobal)) -> Vec<(String, Vec<u8>)> {
    let files = [
        (name_of(rt, "a"), bytes_of(rt, b"first")),
        (name_of(rt, "b"), bytes_of(rt, b"second")),
    ];
    Vec::from_array(rt.alloc(), files).ok().expect(rt, "memory")
}

/// Reads of the two files, the second of which fails: the name, the maximum number of bytes, the answer.
const READS: [(&str, u64, Result<&[u8], FilesErr>); 4] = [
    ("b", 3, Ok(b"sec")),
    ("b", 9, Err(FilesErr::Failed)),
    ("c", 9, Err(FilesErr::Failed)),
    ("a", 9, Ok(b"first")),
];

#[test]
fn files_fail_in_mid_stream(rt: HostRuntime) {
    let mut files = MemFiles::new(rt.alloc(), two_files(&rt), failing(&rt, &[2]));
    for (name, most, wanted) in &READS {
        assert!(rt; reads(&mut files, rt.alloc(), name, *most, *wanted));
    }
}

/// A reader whose every read fails.
#[derive(Clone, Copy)]
struct Broken;

impl Read for Broken {
    fn read(&mut self, _buffer: &mut [u8]) -> io::Result<usize> {
        Err(io::ErrorKind::ConnectionReset.into())
    }
}

#[test]
fn reader_is_a_source(rt: HostRuntime) {
    let mut source = StdSource::new(b"abcdef".as_slice());
    assert!(rt; takes(&mut source, [(Ok(4), *b"abcd"), (Ok(2), *b"ef\0\0")]));
    assert!(rt; takes(&mut source, [(Ok(0), [0; 4]), (Ok(0), [0; 4])]));
}

#[test]
fn broken_reader_fails(rt: HostRuntime) {
    let mut source = StdSource::new(Broken);
    assert!(rt; takes(&mut source, [(Err(Failed), [0; 4]), (Err(Failed), [0; 4])]));
}

#[test]
fn writer_is_a_sink(rt: HostRuntime) {
    let mut room = [0; 3];
    let mut sink = StdSink::new(room.as_mut_slice());
    assert!(rt; puts(&mut sink, [Ok(2), Ok(1), Err(Failed)]));
    assert!(rt; room == *b"abc");
}

/// This byte, 100,000 times.
fn many(rt: &(impl Abort + AllocGlobal), byte: u8) -> Vec<u8> {
    let mut bytes = Vec::new(rt.alloc());
    bytes.resize(100_000, byte).ok().expect(rt, "memory");
    bytes
}

#[test]
fn writer_takes_a_long_piece(rt: HostRuntime) {
    let bytes = many(&rt, b'x');
    let mut room = many(&rt, 0);
    let mut sink = StdSink::new(room.as_mut_slice());
    assert!(rt; put_all(&mut sink, bytes.as_slice()) == Ok(()));
    assert!(rt; room.as_slice() == bytes.as_slice());
}

/// Reads of real files: the name, the maximum number of bytes, the answer.
const REAL_READS: [(&str, u64, Result<&[u8], FilesErr>); 3] = [
    ("/dev/zero", 5, Ok(&[0; 5])),
    ("/dev/null", 5, Ok(&[])),
    ("no such file", 5, Err(FilesErr::Failed)),
];

#[test]
fn real_files_are_read(rt: HostRuntime) {
    let mut files = DirFiles::new(&rt);
    for (name, most, wanted) in &REAL_READS {
        assert!(rt; reads(&mut files, rt.alloc(), name, *most, *wanted));
    }
}
