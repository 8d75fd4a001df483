//! Assembling a source.

ghost use Rattle.std.specs.Prelude.{◌≡◌, ◌≤◌, length, IfOk, IfErr};
ghost use Rattle.rv_text.specs.Lines.{text_lines};
ghost use Rattle.rv_asm.specs.Labels.{entry_point};
ghost use Rattle.rv_asm.specs.Assembling.{are_ascii, sections_of, assembled};
ghost use Rattle.rv_asm.specs.Objects.{Objects, RefusesSource};
ghost use Rattle.rv_asm.specs.Small.{IsSmallObject};

use crate::draft::first_look;
use crate::label_table::LabelTable;
use crate::object::{Bytes, Object};
use crate::place::MOST;
use crate::refusal::{AsmErr, AsmKind};
use crate::sections::second_look;
use rv_text::cut_line;
use std::alloc::Global;
use texts::is_ascii;

/// `NotAscii` for the first line that has a byte above 127.
fn check_ascii(source: &[u8]) -> Result<(), AsmErr>
    requires { length source.now ≤ 1048576 }
    ensures { result ≡ are_ascii 0 (text_lines source.now) }
{
    let mut above = 0;
    let mut rest = source;
    while !rest.is_empty() {
        let (line, after) = cut_line(rest);
        above += 1;
        if !is_ascii(line) {
            return Err(AsmErr {
                line: above,
                kind: AsmKind::NotAscii,
            });
        }
        rest = after;
    }
    Ok(())
}

#[tactic(auto, unfolding(crate::specs::Labels::entry_point))]
fn entry(labels: &LabelTable) -> u32
    ensures { result ≡ entry_point labels.now }
{
    labels.value_of(b"_start").unwrap_or(0x1_0000)
}

fn assemble_lines(alloc: Global, source: &[u8]) -> Result<Object, AsmErr>
    requires { length source.now ≤ 1048576 }
    ensures ok { IfOk result (λ object. Objects object (sections_of (text_lines source.now))) }
    ensures err { IfErr result (λ e. RefusesSource e (sections_of (text_lines source.now))) }
{
    check_ascii(source)?;
    let draft = first_look(alloc, source)?;
    let out = second_look(alloc, source, draft.labels)?;
    let entry = entry(&out.labels);
    Ok(Object {
        text_bytes: Bytes::new(out.text),
        data_bytes: Bytes::new(out.data),
        labels: out.labels.into_labels(),
        entry,
    })
}

/// The program that a source in the assembly language represents.
///
/// The first refusal is returned. The tests are: the source's length; the first line that is not ASCII; the first line
/// that fails by itself; the first line that fails with all labels known, because a label is never defined or is too
/// far away. Within a line, the label is tested first, then the statement is read, and then its position is tested.
/// `NoMemory` may come at any point.
#[tactic(auto, unfolding(crate::specs::Assembling::assembled))]
pub fn assemble(alloc: Global, source: &[u8]) -> Result<Object, AsmErr>
    ensures ok { IfOk result (λ object. Objects object (assembled source.now)) }
    ensures err { IfErr result (λ e. RefusesSource e (assembled source.now)) }
    ensures small { IfOk result (λ object. IsSmallObject object) }
{
    if source.len() > MOST {
        return Err(AsmErr {
            line: 0,
            kind: AsmKind::TooLarge(source.len() as u64),
        });
    }
    assemble_lines(alloc, source)
}
