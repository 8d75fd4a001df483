//! The help text of `time`.

/// What `help time` writes.
pub(crate) const HELP_ON_TIME: &[u8] = b"cfpp time DELAYS PROGRAM LAYOUT .. [OPTION ..]
Options: --limit --show --seed --guess --input

Compares the times of a program on up to eight layouts, of which each is plain,
the built-in layout, or the name of a TOML file of at most 65536 bytes. DELAYS
is a text of at most 65536 bytes with the delays of moves. PROGRAM names an ELF
file or a flat image of at most 33554432 bytes, whose output is dropped.

  --limit N       stops at N retired instructions, 0 to 1000000000, or 1 to 4
                  digits and k, M or G, to 1G; without it at 10000000
  --show sites    shows what each time is made of; without it the time alone
  --show moves    shows each move with its start and its finish
  --seed N        draws the delays of ranges from N, 0 to 4294967295; without it
                  each is the middle of its range
  --guess any     offers every guess but an address, as without it
  --guess next    guesses the next word of every branch and jump
  --guess taken   guesses branches and JAL taken, waits after JALR
  --guess backward
                  the same, but branches that go forward not taken
  --guess wait    waits after each branch and jump
  --input FILE    gives each run the bytes of FILE, at most 16777216, as its
                  input; without it the input is empty

It ends with 0, or with 122 unrecognised arguments, 123 a layout is refused, 124
the program is refused, 128 a file cannot be read, 129 the report cannot be
written, 130 memory is refused, 131 the delays are refused, 137 the input is
refused.

Example:
  cfpp time examples/delays/slow_memory.delays examples/seven.bin plain
";
