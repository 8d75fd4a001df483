//! The help text of `help`.

/// What `help help` writes.
pub(crate) const HELP_ON_HELP: &[u8] = b"cfpp help [COMMAND]
Options: none

Writes a summary of all commands, or the help text of one. COMMAND is one of
asm, audit, check, conform, debug, gen, help, list, machine, moves, orders,
rounds, run and time. cfpp -h writes the summary too, and cfpp -V the version,
and the logic that the proofs were made with.

It ends with 0, or with 122 unrecognised arguments, 129 the output cannot be
written.

Example:
  cfpp help run
";
