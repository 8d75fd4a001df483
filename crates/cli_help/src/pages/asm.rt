//! The help text of `asm`.

/// What `help asm` writes.
pub(crate) const HELP_ON_ASM: &[u8] = b"cfpp asm SOURCE
Options: none

Assembles a source, and writes the ELF file to standard output. SOURCE names a
text of at most 1048576 bytes.

It ends with 0, or with 122 unrecognised arguments, 127 the source is refused,
128 the file cannot be read, 129 output or report cannot be written, 130 memory
is refused.

Example:
  cfpp asm examples/seven.s >seven.elf
";
