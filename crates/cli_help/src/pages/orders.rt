//! The help text of `orders`.

/// What `help orders` writes.
pub(crate) const HELP_ON_ORDERS: &[u8] = b"cfpp orders LAYOUT PROGRAM [OPTION ..]
Options: --show --issues --states --without

Goes through all orders of the first moves of a program, and compares each with
the sequential machine. With a rule taken away it writes a shortest script that
goes wrong. The program's input is empty.

LAYOUT is plain, the built-in layout, or the name of a TOML file of at most
65536 bytes. PROGRAM names an ELF file or a flat image of at most 33554432
bytes.

  --issues N      issues at most N instructions, 1 to 64; without it 3
  --states S      reaches at most S states, 1 to 16777216; without it 1000000
  --without RULE  takes a rule of the processor away, as meet:kill or
                  climb:NotMet; docs/MANUAL.md has all of them
  --show edges    writes each move, with the states before and after it

It ends with 0 if no order is wrong, or with 121 if there are more states, 122
unrecognised arguments, 123 the layout is refused, 124 the program is refused,
128 a file cannot be read, 129 output or report cannot be written, 130 memory is
refused, 136 an order is wrong.

Example:
  cfpp orders plain examples/seven.bin --issues 2
";
