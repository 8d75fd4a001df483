//! The help text of `check`.

/// What `help check` writes.
pub(crate) const HELP_ON_CHECK: &[u8] = b"cfpp check LAYOUT
Options: none

Writes the layout's canonical form to standard output, or reports its fault.
LAYOUT is plain, the built-in layout, or the name of a TOML file of at most
65536 bytes.

It ends with 0, or with 122 unrecognised arguments, 123 the layout is refused,
128 the file cannot be read, 129 output or report cannot be written, 130 memory
is refused.

Example:
  cfpp check plain
";
