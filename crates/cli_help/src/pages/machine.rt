//! The help text of `machine`.

/// What `help machine` writes.
pub(crate) const HELP_ON_MACHINE: &[u8] = b"cfpp machine PROGRAM [OPTION ..]
Options: --limit --every --show --mul

Runs a program on the sequential machine. PROGRAM names an ELF file or a flat
image of at most 33554432 bytes. Standard input and output are the program's.

  --limit N       stops at N retired instructions, 0 to 1000000000, or 1 to 4
                  digits and k, M or G, to 1000G; without it at 10000000
  --every N       reports after each N of them how far it has come, N as above
                  but not 0
  --show report   shows the closing report alone, as without it
  --show retired  shows each instruction as it retires
  --mul           multiplies and divides (RV32IM); without it RV32I

It ends with the program's own status, or with 120 if the program trapped, 121
at the limit, 122 unrecognised arguments, 124 the program is refused, 128 a file
or the input cannot be read, 129 output or report cannot be written, 130 memory
is refused.

Example:
  cfpp machine examples/seven.bin --show retired
";
