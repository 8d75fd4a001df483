//! The help text of `gen`.

/// What `help gen` writes.
pub(crate) const HELP_ON_GEN: &[u8] = b"cfpp gen N [OPTION ..]
Options: --run

Writes an assembly program of N drawn statements, 1 to 30000, to standard
output. The program writes eight hexadecimal digits that it computes.

  --run           runs the program on the built-in layout, by moves drawn from
                  N, up to 10000000 retired instructions; without it the program
                  is written

It ends with 0, and after a run with the program's own status, or with 120 if
the program trapped, 121 at the limit; 122 unrecognised arguments, 128 the input
cannot be read, 129 output or report cannot be written, 130 memory is refused.

Example:
  cfpp gen 100 --run
";
