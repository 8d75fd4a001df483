//! The file of an assembled source.

ghost use Rattle.std.specs.Prelude.{◌≡◌, ◌≢◌, true, false, Ok, IfOk, IfErr};
ghost use Rattle.rv_asm.specs.declared.refusal.AsmKind.{AsmKind as Kind};
ghost use Rattle.cli_asm.specs.Sources.{IsAssembly, IsUnassembled, Refused};

use cli_files::{Answer, Status, no_memory};
use elf_make::write_elf;
use report_refusals::bad_source;
use rv_asm::{AsmErr, AsmKind, assemble};
use std::alloc::Global;

fn lacks_memory(error: AsmErr) -> bool
    ensures yes { result ≡ true → error.kind ≡ Kind.NoMemory }
    ensures no { result ≡ false → error.kind ≢ Kind.NoMemory }
{
    matches!(error.kind, AsmKind::NoMemory)
}

/// The answer if a source is refused, or memory for it.
fn refusal(error: AsmErr) -> Answer
    ensures { Refused error result.status result.closing }
{
    if lacks_memory(error) {
        return no_memory();
    }
    Answer {
        status: Status::BadSource(error),
        closing: bad_source(error),
    }
}

/// The file of the program that a source describes, or the answer if it describes none.
pub fn file_of(alloc: Global, source: &[u8]) -> Result<Vec<u8>, Answer>
    ensures ok { IfOk result (λ file. IsAssembly source.now file.items) }
    ensures err { IfErr result (λ answer. IsUnassembled source.now answer.status answer.closing) }
{
    let object = match assemble(alloc, source) {
        Ok(object) => object,
        Err(error) => return Err(refusal(error)),
    };
    match write_elf(alloc, &object) {
        Ok(file) => Ok(file),
        Err(_) => Err(no_memory()),
    }
}
