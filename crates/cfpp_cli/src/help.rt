//! What the commands `help` and `--version` write.

ghost use Rattle.std.specs.Prelude.{◌≡◌};
ghost use Rattle.cfpp_cli.specs.Overview.{IsOverview};
ghost use Rattle.cfpp_cli.specs.Version.{version_line};
ghost use Rattle.cfpp_cli.specs.declared.help.TheConstants as constants;

/// The text of `help`.
pub const HELP: &[u8] =
    b"cfpp runs RISC-V programs on a counterflow pipeline processor, move by move.

  cfpp run LAYOUT PROGRAM      runs the processor, by a fixed rule
  cfpp moves LAYOUT PROGRAM --script FILE  runs a script, lists what can follow
  cfpp debug LAYOUT PROGRAM    makes moves by command, and takes them back
  cfpp rounds LAYOUT PROGRAM   runs the processor in clocked rounds
  cfpp orders LAYOUT PROGRAM   looks for an order of its moves that is wrong
  cfpp audit LAYOUT PROGRAM TRACE  checks if a recorded trace is that of a run
  cfpp conform LAYOUT PROGRAM  checks the log of a circuit, line by line
  cfpp machine PROGRAM         runs the sequential machine
  cfpp time DELAYS PROGRAM LAYOUT ..  compares the times of up to eight layouts
  cfpp check LAYOUT            writes the layout's canonical form, or its fault
  cfpp asm SOURCE              writes the ELF file of an assembly source
  cfpp list PROGRAM            writes a listing of a program
  cfpp gen N                   writes an assembly program of N drawn statements
  cfpp help, help COMMAND, --help, -h  writes this text, or that of a command
  cfpp --version, -V           writes the version

LAYOUT is plain, the built-in layout, or the name of a TOML file. PROGRAM names
an ELF file or a flat image, DELAYS a text with the delays of moves. The report
goes to standard error, and all else that is written to standard output.

Options come after the names, in any order, each once:

  --limit N       stops at N retired instructions, at most 1000000000, or with
                  k, M or G at most 1000G, of time 1G (run, moves, rounds,
                  conform, machine, time); without it at 10000000
  --every N       reports after each N of them how far it has come, N at least 1
                  (run, moves, rounds, machine)
  --script FILE   makes the moves of a script (run, moves)
  --seed N        draws moves or delays from N, at most 4294967295 (run, time)
  --guess RULE    any, next, taken, backward or wait: which next word a branch
                  or jump is taken to have; see help run (run, rounds, time)
  --input FILE    gives each run the bytes of a file as its input (time)
  --show report   shows the closing report alone, the default (run, machine)
  --show retired  shows each instruction as it retires (run, machine)
  --show moves    shows each move, with the picture (run) or its times (time)
  --show sites    shows what each time is made of (time)
  --show edges    shows each move, with the states around it (orders)
  --issues N      at most N instructions, 1 to 64; without it 3 (orders)
  --states N      at most N states, 1 to 16777216; without it 1000000 (orders)
  --without RULE  takes a rule of the processor away; see help orders (orders)
  --mul           multiplies and divides (machine)
  --run           runs the drawn program, by moves drawn from N (gen)

The process ends with the program's own status, or with one of these:

  0    a command was carried out, or a script ended before the program did
  120  the program trapped           126  the move of a line is barred
  121  the limit was reached         127  the source is refused
  122  unrecognised arguments        128  a file or the input cannot be read
  123  the layout is refused         129  output or report cannot be written
  124  the program is refused        130  memory is refused
  125  the script is refused         131  the delays are refused
  132  the trace is refused          133  arguments cannot be read
  134  a line of the log is refused  135  the log ended before the program
  136  an order is wrong             137  the input is refused

README.md has a tour, docs/MANUAL.md all commands, docs/ERRORS.md each refusal,
docs/SEMANTICS.md the moves, docs/ASSEMBLY.md the assembler's language.
";

/// The version, and the kit with which the proofs were made.
const VERSION: &[u8] = b"cfpp 0.9.0 (rattle-kit-13f logic dac8208d650f15bf)\n";

/// What `help` and `--help` write: how each command is called, what each option does, and what each status says.
pub fn overview() -> &'static [u8]
    ensures text { result.now ≡ constants.HELP.now }
    ensures tells { IsOverview result.now }
{
    HELP
}

/// What `--version` and `-V` write.
pub fn version() -> &'static [u8]
    ensures line { result.now ≡ version_line }
{
    VERSION
}
