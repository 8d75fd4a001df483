//! The help text of `conform`.

/// What `help conform` writes.
pub(crate) const HELP_ON_CONFORM: &[u8] = b"cfpp conform LAYOUT PROGRAM [OPTION ..]
Options: --limit

Reads the log of a circuit from standard input as it comes, makes its moves, and
compares its observations: the first line that no run of the processor has ends
it. The program's input is empty; what it writes goes to standard output.

LAYOUT is plain, the built-in layout, or the name of a TOML file of at most
65536 bytes. PROGRAM names an ELF file or a flat image of at most 33554432
bytes. docs/MANUAL.md has the lines of a log.

  --limit N       stops at N retired instructions, 0 to 1000000000, or 1 to 4
                  digits and k, M or G, to 1000G; without it at 10000000

It ends with the program's own status, or with 120 if the program trapped, 121
at the limit, 122 unrecognised arguments, 123 the layout is refused, 124 the
program is refused, 128 a file or the log cannot be read, 129 output or report
cannot be written, 130 memory is refused, 134 a line of the log is refused, 135
the log ends before the program.

Example:
  cfpp conform plain examples/seven.bin <log
";
