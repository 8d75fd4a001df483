//! The help text of `rounds`.

/// What `help rounds` writes.
pub(crate) const HELP_ON_ROUNDS: &[u8] = b"cfpp rounds LAYOUT PROGRAM [OPTION ..]
Options: --limit --every --guess

Runs the processor as a clocked one would, in rounds of moves that have no place
in common. Standard input and output are the program's.

LAYOUT is plain, the built-in layout, or the name of a TOML file of at most
65536 bytes. PROGRAM names an ELF file or a flat image of at most 33554432
bytes.

  --limit N       stops at N retired instructions, 0 to 1000000000, or 1 to 4
                  digits and k, M or G, to 1000G; without it at 10000000
  --every N       reports after each N of them how far it has come, N as above
                  but not 0
  --guess any     offers every guess but an address, as without it
  --guess next    guesses the next word of every branch and jump
  --guess taken   guesses branches and JAL taken, waits after JALR
  --guess backward
                  the same, but branches that go forward not taken
  --guess wait    waits after each branch and jump

It ends with the program's own status, or with 120 if the program trapped, 121
at the limit, 122 unrecognised arguments, 123 the layout is refused, 124 the
program is refused, 128 a file or the input cannot be read, 129 output or report
cannot be written, 130 memory is refused.

Example:
  cfpp rounds plain examples/seven.bin
";
