//! The help text of `list`.

/// What `help list` writes.
pub(crate) const HELP_ON_LIST: &[u8] = b"cfpp list PROGRAM
Options: none

Writes a listing of a program's code to standard output: each word with its
address, its instruction and its labels. PROGRAM names an ELF file or a flat
image of at most 33554432 bytes.

It ends with 0, or with 122 unrecognised arguments, 124 the program is refused,
128 the file cannot be read, 129 output or report cannot be written, 130 memory
is refused.

Example:
  cfpp list examples/seven.bin
";
