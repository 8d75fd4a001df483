//! The help text of `audit`.

/// What `help audit` writes.
pub(crate) const HELP_ON_AUDIT: &[u8] = b"cfpp audit LAYOUT PROGRAM TRACE
Options: none

Checks whether a recorded trace is that of a run from the program's start: makes
its moves, and compares what they show with it. TRACE is what `cfpp run` shows
with moves, at most 16777216 bytes, without the closing report. Standard input
is the program's; what it writes is dropped.

LAYOUT is plain, the built-in layout, or the name of a TOML file of at most
65536 bytes. PROGRAM names an ELF file or a flat image of at most 33554432
bytes.

It ends with 0 if the trace is that of a run, or with 122 unrecognised
arguments, 123 the layout is refused, 124 the program is refused, 128 a file or
the input cannot be read, 129 the report cannot be written, 130 memory is
refused, 132 the trace is refused.

Example:
  cfpp audit plain examples/seven.bin trace
";
