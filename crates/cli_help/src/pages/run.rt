//! The help text of `run`.

/// What `help run` writes.
pub(crate) const HELP_ON_RUN: &[u8] = b"cfpp run LAYOUT PROGRAM [OPTION ..]
Options: --limit --every --show --script --seed --guess

Runs a program on the processor of a layout, move by move. Standard input and
output are the program's.

LAYOUT is plain, the built-in layout, or the name of a TOML file of at most
65536 bytes. PROGRAM names an ELF file or a flat image of at most 33554432
bytes.

  --limit N       stops at N retired instructions, 0 to 1000000000, or 1 to 4
                  digits and k, M or G, to 1000G; without it at 10000000
  --every N       reports after each N of them how far it has come, N as above
                  but not 0
  --script FILE   makes the moves of a script of at most 16777216 bytes; without
                  it a fixed rule chooses them
  --seed N        draws the moves from N, 0 to 4294967295, and not by the rule;
                  not beside a script
  --guess any     offers every guess but an address, as without it
  --guess next    guesses the next word of every branch and jump
  --guess taken   guesses branches and JAL taken, waits after JALR
  --guess backward
                  the same, but branches that go forward not taken
  --guess wait    waits after each branch and jump; none beside a script
  --show report   shows the closing report alone, as without it
  --show retired  shows each instruction as it retires
  --show moves    shows each move and the picture after it

It ends with the program's own status, or with 0 at the end of a script, 120 if
the program trapped, 121 at the limit, 122 unrecognised arguments, 123 the
layout is refused, 124 the program is refused, 125 the script is refused, 126
the move of a line is barred, 128 a file or the input cannot be read, 129 output
or report cannot be written, 130 memory is refused.

Example:
  cfpp run plain examples/seven.bin --seed 7 --show moves
";
