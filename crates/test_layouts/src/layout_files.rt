//! What no clause says: that files are read, and that the definitions have the intended meaning.
use cf_layout::{Layout, LayoutErr, plain};
use layout_file::laws::read_back;
use layout_file::{FileErr, read_layout, read_layout_loosely, write_layout};
use rv_inst::Class;
use std::alloc::Global;

const PLAIN: &str =
    "format = 1\nstages = 8\nlane = 16\n\n[units]\nadd = [2, 4, 6]\nlogic = [2, 4]\nshift = [4]\ncompare = [2, 4]\nbranch = [3]\njump = [3]\n\n[[siding]]\nclasses = [\"memory\"]\nlaunch = 4\nrecover = 6\ncells = 2\n";

const TINY: &str =
    "format = 1\nstages = 2\nlane = 4\n\n[units]\nadd = [1, 2]\nlogic = [1]\nshift = [2]\ncompare = [1]\nbranch = [1]\njump = [1]\n\n[[siding]]\nclasses = [\"memory\"]\nlaunch = 1\nrecover = 2\ncells = 1\n";

/// Tiny with the cache, and with units that multiply and a siding that divides.
const SECOND: &str =
    "format = 2\nstages = 2\nlane = 4\ncache = true\n\n[units]\nadd = [1, 2]\nlogic = [1]\nshift = [2]\ncompare = [1]\nbranch = [1]\njump = [1]\nmul = [1, 2]\n\n[[siding]]\nclasses = [\"memory\"]\nlaunch = 1\nrecover = 2\ncells = 1\n\n[[siding]]\nclasses = [\"div\"]\nlaunch = 1\nrecover = 2\ncells = 8\n";

/// Tiny in another order, with stages that are listed twice.
const SHUFFLED: &str =
    "units = {jump = [1], branch = [1], compare = [1, 1], shift = [2], logic = [1], add = [2, 1, 2]}\nsiding = [{cells = 1, recover = 2, launch = 1, classes = [\"memory\"]}]\nlane = 4\nstages = 2\nformat = 1\n";

/// Tiny with its branches above the stage from which loads and stores are launched.
const LOOSE: &str =
    "format = 1\nstages = 2\nlane = 4\n\n[units]\nadd = [1, 2]\nlogic = [1]\nshift = [2]\ncompare = [1]\nbranch = [2]\njump = [1]\n\n[[siding]]\nclasses = [\"memory\"]\nlaunch = 1\nrecover = 2\ncells = 1\n";

/// The same with no unit for jumps.
const LOOSE_WITHOUT_JUMPS: &str =
    "format = 1\nstages = 2\nlane = 4\n\n[units]\nadd = [1, 2]\nlogic = [1]\nshift = [2]\ncompare = [1]\nbranch = [2]\n\n[[siding]]\nclasses = [\"memory\"]\nlaunch = 1\nrecover = 2\ncells = 1\n";

/// Whether the layout is written as this text.
fn is_written(alloc: Global, layout: &Layout, text: &str) -> bool {
    match write_layout(alloc, layout) {
        Ok(written) => written.as_slice() == text.as_bytes(),
        Err(_) => false,
    }
}

/// Whether the layout of a file is written as this text.
fn is_rewritten(alloc: Global, file: &str, text: &str) -> bool {
    match read_layout(alloc, file.as_bytes()) {
        Ok(layout) => is_written(alloc, &layout, text),
        Err(_) => false,
    }
}

#[test]
fn writes_what_it_reads(rt: HostRuntime) {
    let alloc = rt.alloc();
    assert!(rt; is_rewritten(alloc, PLAIN, PLAIN));
    assert!(rt; is_rewritten(alloc, TINY, TINY));
    assert!(rt; is_rewritten(alloc, SECOND, SECOND));
    assert!(rt; is_rewritten(alloc, SHUFFLED, TINY));
}

/// Whether the built-in layout is read back with this many stages.
fn comes_back(alloc: Global, stages: u32) -> bool {
    match read_back(alloc, &plain()) {
        Ok(layout) => layout.stages() == stages,
        Err(_) => false,
    }
}

#[test]
fn reads_back(rt: HostRuntime) {
    let alloc = rt.alloc();
    assert!(rt; is_written(alloc, &plain(), PLAIN));
    assert!(rt; comes_back(alloc, 8));
}

/// Why a file is refused, with the key or the name that is reported.
#[derive(Clone, Copy)]
enum Refusal {
    MissingKey(&'static str),
    UnknownKey(&'static str),
    UnknownClass(&'static str),
    UnknownFormat(i64),
    Refused(LayoutErr),
    NotToml,
}

/// Whether the error is this refusal.
fn tells(error: &FileErr, refusal: Refusal) -> bool {
    match refusal {
        Refusal::MissingKey(name) => {
            matches!(error, FileErr::MissingKey(key) if key.as_str() == name)
        }
        Refusal::UnknownKey(name) => {
            matches!(error, FileErr::UnknownKey(key) if key.as_str() == name)
        }
        Refusal::UnknownClass(name) => {
            matches!(error, FileErr::UnknownClass(word) if word.as_str() == name)
        }
        Refusal::UnknownFormat(format) => {
            matches!(error, FileErr::UnknownFormat(other) if *other == format)
        }
        Refusal::Refused(reason) => { matches!(error, FileErr::Refused(other) if *other == reason) }
        Refusal::NotToml => matches!(error, FileErr::NotToml),
    }
}

/// Whether the file gets this refusal.
fn is_refused(alloc: Global, file: &[u8], refusal: Refusal) -> bool {
    match read_layout(alloc, file) {
        Ok(_) => false,
        Err(error) => tells(&error, refusal),
    }
}

#[test]
fn refuses_keys_and_text_in_order(rt: HostRuntime) {
    let alloc = rt.alloc();
    assert!(rt; is_refused(alloc, b"", Refusal::MissingKey("format")));
    assert!(rt; is_refused(alloc, b"cache = true\n", Refusal::UnknownKey("cache")));
    assert!(rt; is_refused(alloc, b"format = 2\n", Refusal::MissingKey("cache")));
    assert!(rt; is_refused(alloc, b"\xFFformat = 1\n", Refusal::NotToml));
}

#[test]
fn refuses_values_in_order(rt: HostRuntime) {
    let alloc = rt.alloc();
    let file = b"format = 3\nlane = 1\nstages = 2\nunits = {}\n";
    assert!(rt; is_refused(alloc, file, Refusal::UnknownFormat(3)));
    let file = b"format = 1\nlane = 2\nstages = 33\nunits = {}\n";
    let refusal = Refusal::Refused(LayoutErr::StagesOutOfRange(33));
    assert!(rt; is_refused(alloc, file, refusal));
    let file = b"format = 1\nlane = 2\nstages = 2\nunits = {add = [1]}\n";
    let refusal = Refusal::Refused(LayoutErr::MissingUnit(Class::Logic));
    assert!(rt; is_refused(alloc, file, refusal));
    let file = b"format = 1\nlane = 2\nstages = 2\nunits = {mul = [1]}\n";
    assert!(rt; is_refused(alloc, file, Refusal::UnknownClass("mul")));
}

/// Whether the file's layout, read loosely, has two stages and turns control at the second.
fn is_read_loosely(alloc: Global, file: &str) -> bool {
    match read_layout_loosely(alloc, file.as_bytes()) {
        Ok(layout) => layout.stages() == 2 && layout.unit_at(Class::Branch, 2),
        Err(_) => false,
    }
}

/// Whether the file gets this refusal also if it is read loosely.
fn is_refused_loosely(alloc: Global, file: &str, refusal: Refusal) -> bool {
    match read_layout_loosely(alloc, file.as_bytes()) {
        Ok(_) => false,
        Err(error) => tells(&error, refusal),
    }
}

#[test]
fn reads_loosely_what_turns_control_above_memory(rt: HostRuntime) {
    let alloc = rt.alloc();
    let above = Refusal::Refused(LayoutErr::ControlAboveMemory(Class::Branch, 2, 1));
    assert!(rt; is_refused(alloc, LOOSE.as_bytes(), above));
    assert!(rt; is_read_loosely(alloc, LOOSE));
    let missing = Refusal::Refused(LayoutErr::MissingUnit(Class::Jump));
    assert!(rt; is_refused(alloc, LOOSE_WITHOUT_JUMPS.as_bytes(), missing));
    assert!(rt; is_refused_loosely(alloc, LOOSE_WITHOUT_JUMPS, missing));
}
