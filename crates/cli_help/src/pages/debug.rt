//! The help text of `debug`.

/// What `help debug` writes.
pub(crate) const HELP_ON_DEBUG: &[u8] = b"cfpp debug LAYOUT PROGRAM
Options: none

Makes moves by command, shows the processor, and takes moves back. The commands
come from standard input, one a line, at most 16777216 bytes; the answers are
the report. The command `help` lists them. The program's own input is empty, and
its output is standard output.

LAYOUT is plain, the built-in layout, or the name of a TOML file of at most
65536 bytes. PROGRAM names an ELF file or a flat image of at most 33554432
bytes.

It ends with 0 after `end` or the last command, 121 if there are more commands,
122 unrecognised arguments, 123 the layout is refused, 124 the program is
refused, 128 a file or the commands cannot be read, 129 output or report cannot
be written, 130 memory is refused.

Example:
  cfpp debug plain examples/seven.bin
";
