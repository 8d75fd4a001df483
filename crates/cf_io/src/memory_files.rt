//! Files in memory, for tests and for callers that have the bytes.

ghost use Rattle.std.specs.Prelude.{◌≡◌, ◌<◌, ◌≤◌, [], ◌∷◌, ◌++◌, Some, None, map, take, IfSome, IfNone, IfOk, IfErr, string_bytes};
ghost use Rattle.std.specs.Prelude.{vec_len, vec_capacity};
ghost use Rattle.cf_io.specs.Causes.{raised};
ghost use Rattle.cf_io.specs.Reads.{ReadsFile, HasReadCause};
ghost use Rattle.cf_io.specs.MemoryFiles.{unread_files, known_files, ReadsCounted};
ghost use Rattle.cf_io.specs.NamedFiles.{content_of, entry_of};

use crate::failing_calls::FailingCalls;
use crate::files::{Files, FilesErr};
use std::alloc::Global;
use std::marker::Model;

/// Files in memory; of several with the same name the first counts. The reads whose numbers are listed fail, and so do
/// those of a missing name.
#[derive(Drop)]
pub struct MemFiles {
    files: Vec<(String, Vec<u8>)>,
    read: Vec<String>,
    failed: Vec<String>,
    unheld: u64,
    calls: FailingCalls,
    faults: u64,
}

impl Model for MemFiles {
    ghost use Rattle.std.specs.Prelude.{map, string_bytes};
    ghost use Rattle.cf_io.specs.NamedFiles.{entry_of};
    ghost use Rattle.cf_io.specs.MemoryFiles.{MemoryFiles};

    ghost Value = { MemoryFiles };

    ghost view = { λ f. record {
      files = map entry_of f.files.items;
      read = map string_bytes f.read.items;
      failed = map string_bytes f.failed.items;
      unheld = f.unheld;
      calls = f.calls;
      faults = f.faults;
    } };
}

impl MemFiles {
    /// Files with these names and bytes. `fails` lists the numbers of the reads that fail, counted from 1. The lists of
    /// reads are allocated from `alloc`.
    pub fn new(alloc: Global, files: Vec<(String, Vec<u8>)>, fails: Vec<u64>) -> MemFiles
        ensures { result ≡ unread_files (map entry_of files.items) fails.items }
    {
        MemFiles {
            files,
            read: Vec::new(alloc),
            failed: Vec::new(alloc),
            unheld: 0,
            calls: FailingCalls::new(fails),
            faults: 0,
        }
    }
}

/// The bytes of the first file with this name.
fn find_content<'a>(files: &'a [(String, Vec<u8>)], name: &str) -> Option<&'a [u8]>
    ensures none { IfNone result (content_of (map entry_of files.now) name.now ≡ None) }
    ensures found { IfSome result (λ bytes.
        content_of (map entry_of files.now) name.now ≡ Some bytes.now) }
{
    for file in files {
        if file.0.as_str() == name {
            return Some(file.1.as_slice());
        }
    }
    None
}

/// A copy of the first bytes, at most `most`.
fn front_of(alloc: Global, bytes: &[u8], most: u64) -> Result<Vec<u8>, FilesErr>
    ensures ok { IfOk result (λ copy. copy.items ≡ take most bytes.now) }
    ensures err { IfErr result (λ e. e ≡ FilesErr.NoMemory) }
{
    let count = bytes.len().min(most as usize);
    match bytes[..count].to_vec(alloc) {
        Ok(copy) => Ok(copy),
        Err(_) => Err(FilesErr::NoMemory),
    }
}

/// Two copies of the name, one for each list, after both lists have room for it.
fn names_for(
    alloc: Global,
    name: &str,
    read: &mut Vec<String>,
    failed: &mut Vec<String>,
) -> Option<(String, String)>
    ensures names { IfSome result (λ names. (string_bytes names.0 ≡ name.now) × (string_bytes names.1 ≡ name.now)) }
    ensures room { IfSome result (λ names. (vec_len read.new < vec_capacity read.new) × (vec_len failed.new < vec_capacity failed.new)) }
    ensures read { read.new.items ≡ read.old.items }
    ensures failed { failed.new.items ≡ failed.old.items }
{
    match (
        String::from_str(alloc, name),
        String::from_str(alloc, name),
        read.reserve(1),
        failed.reserve(1),
    ) {
        (Ok(first), Ok(second), Ok(()), Ok(())) => Some((first, second)),
        _ => None,
    }
}

/// Appends a name to a list that has room for it.
fn append(names: &mut Vec<String>, name: String)
    requires { vec_len names.old < vec_capacity names.old }
    ensures { names.new.items ≡ names.old.items ++ name ∷ [] }
{
    match names.push(name) {
        Ok(()) => (),
        Err(_) => unreachable!(),
    }
}

impl MemFiles {
    /// Counts one more read that found too little memory, and returns `NoMemory`.
    fn refuse_memory(&mut self) -> FilesErr
        ensures answer { result ≡ FilesErr.NoMemory }
        ensures state { self.new ≡ record self.old { unheld = raised self.old.unheld } }
    {
        self.unheld = self.unheld.saturating_add(1);
        FilesErr::NoMemory
    }
}

impl Files for MemFiles {
    ghost use Rattle.std.specs.Prelude.{Some};
    ghost use Rattle.cf_io.specs.MemoryFiles.{known_files};

    ghost told = { λ f. Some (known_files f) };

    ghost faults = { λ f. f.faults };

    #[tactic(auto, unfolding(crate::specs::MemoryFiles::read_fails))]
    fn read(&mut self, alloc: Global, name: &str, most: u64) -> Result<Vec<u8>, FilesErr>
        ensures bytes { ReadsFile (Some (known_files self.old)) (Some (known_files self.new))
            name.now most result }
        ensures most { IfOk result (λ bytes. vec_len bytes ≤ most) }
        ensures cause { HasReadCause self.old.faults self.new.faults result }
        ensures exact { ReadsCounted self.old self.new name.now result }
    {
        let fails = self.calls.next();
        let Some((read, failed)) = names_for(alloc, name, &mut self.read, &mut self.failed) else {
            return Err(self.refuse_memory());
        };
        match find_content(self.files.as_slice(), name) {
            Some(bytes) if !fails => match front_of(alloc, bytes, most) {
                Ok(front) => {
                    append(&mut self.read, read);
                    Ok(front)
                }
                Err(_) => Err(self.refuse_memory()),
            },
            _ => {
                self.faults = self.faults.saturating_add(1);
                append(&mut self.read, read);
                append(&mut self.failed, failed);
                Err(FilesErr::Failed)
            }
        }
    }
}
