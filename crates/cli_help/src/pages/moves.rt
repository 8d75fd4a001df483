//! The help text of `moves`.

/// What `help moves` writes.
pub(crate) const HELP_ON_MOVES: &[u8] = b"cfpp moves LAYOUT PROGRAM --script FILE [OPTION ..]
Options: --limit --every --script

Runs a script, and lists each move that can follow, and of the others what bars
it. Standard input and output are the program's.

LAYOUT is plain, the built-in layout, or the name of a TOML file of at most
65536 bytes. PROGRAM names an ELF file or a flat image of at most 33554432
bytes.

  --script FILE   makes the moves of a script of at most 16777216 bytes; it must
                  be given
  --limit N       stops at N retired instructions, 0 to 1000000000, or 1 to 4
                  digits and k, M or G, to 1000G; without it at 10000000
  --every N       reports after each N of them how far it has come, N as above
                  but not 0

It ends with 0 at the end of the script, and otherwise with the program's own
status, or with 120 if the program trapped, 121 at the limit, 122 unrecognised
arguments, 123 the layout is refused, 124 the program is refused, 125 the script
is refused, 126 the move of a line is barred, 128 a file or the input cannot be
read, 129 output or report cannot be written, 130 memory is refused.

Example:
  cfpp moves plain examples/scripts/memory.bin \\
      --script examples/scripts/memory.script
";
