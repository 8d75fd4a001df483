//! What the arguments of the command line ask for.
#![tactic(auto, unfolding(crate::specs::Reading::completed))]

ghost use Rattle.std.specs.Prelude.{◌≡◌, ◌≤◌, [], ◌∷◌, IfOk, MatchResult, drop, length, map, string_bytes, option_map, take};
ghost use Rattle.cli_arguments.specs.Options.{Given};
ghost use Rattle.cli_arguments.specs.Arguments.{Asks, IsBadAt, IsBounded, asked_by, layout_in, orders_options_of, times_of};
ghost use Rattle.cli_arguments.specs.Reading.{completed};
ghost use Rattle.cli_arguments.specs.Views.{reading_state_of, given_of, asked_of, layout_of, times_view};

use crate::names::CommandName;
use crate::numbers::read_count;
use crate::options::{Options, Schedule};
use crate::reading::ArgumentReading;
use crate::shown::{lines_of, shows_edges, time_show_of};
use order_rules::Rule;
use run_options::{GuessRule, Reporting, Show, TimeShow};

/// The default limit.
pub const DEFAULT_LIMIT: u64 = 10_000_000;

/// The default of `--issues`: the maximum number of issues of a search.
pub const DEFAULT_ISSUES: u32 = 3;

/// The default of `--states`: the maximum number of states that a search reaches.
pub const DEFAULT_STATES: u32 = 1_000_000;

/// The options of `machine`.
#[derive(Clone, Copy)]
pub struct MachineOptions {
    /// The maximum number of retired instructions.
    pub limit: u64,
    /// Whether each retired instruction has a line.
    pub show_retired: bool,
    /// Whether multiplication and division are among the instructions.
    pub mul: bool,
    /// The number of retired instructions after which the report says each time how far the run has come.
    pub every: Option<u64>,
}

/// The options of `run`.
#[derive(Clone, Copy)]
pub struct RunOptions<'a> {
    /// What chooses the moves.
    pub schedule: Schedule<'a>,
    /// The maximum number of retired instructions.
    pub limit: u64,
    /// What is written before the closing report.
    pub reporting: Reporting,
}

/// The options of `time`.
#[derive(Clone, Copy)]
pub struct TimeOptions<'a> {
    /// The maximum number of instructions that each run retires.
    pub limit: u64,
    /// The guess rule of each run.
    pub rule: GuessRule,
    /// The seed from which delays are drawn.
    pub seed: Option<u32>,
    /// What is shown of each run.
    pub show: TimeShow,
    /// The name of the file with the program's input.
    pub input: Option<&'a str>,
}

/// The options of `orders`.
#[derive(Clone, Copy)]
pub struct OrdersOptions {
    /// The maximum number of issues.
    pub issues: u32,
    /// The maximum number of states that are reached.
    pub states: u32,
    /// The rule that is taken away.
    pub without: Option<Rule>,
    /// Whether each move of the search is shown, with the states before and after it.
    pub show_edges: bool,
}

/// Where a layout is.
#[derive(Clone, Copy)]
pub enum LayoutArgument<'a> {
    /// The built-in layout, which the argument `plain` names.
    Plain,
    /// The name of a file.
    File(&'a str),
}

/// A command, with the files that it names.
#[derive(Clone, Copy)]
pub enum Command<'a> {
    /// Runs the sequential machine.
    Machine {
        program: &'a str,
        options: MachineOptions,
    },
    /// Runs the processor.
    Run {
        layout: LayoutArgument<'a>,
        program: &'a str,
        options: RunOptions<'a>,
    },
    /// Runs the processor by a script, and says which moves can be made at its end.
    Moves {
        layout: LayoutArgument<'a>,
        program: &'a str,
        schedule: Schedule<'a>,
        limit: u64,
        every: Option<u64>,
    },
    /// Runs the processor in rounds of independent moves.
    Rounds {
        layout: LayoutArgument<'a>,
        program: &'a str,
        limit: u64,
        every: Option<u64>,
        rule: GuessRule,
    },
    /// Searches all orders of the first moves of a program for one that is wrong.
    Orders {
        layout: LayoutArgument<'a>,
        program: &'a str,
        options: OrdersOptions,
    },
    /// Goes through the log of a circuit.
    Conform {
        layout: LayoutArgument<'a>,
        program: &'a str,
        limit: u64,
    },
    /// Debugs a run of the processor.
    Debug {
        layout: LayoutArgument<'a>,
        program: &'a str,
    },
    /// Compares how long a program takes on one to eight layouts, each named by an argument.
    Time {
        delays: &'a str,
        program: &'a str,
        layouts: &'a [String],
        options: TimeOptions<'a>,
    },
    /// Says whether a recorded trace is that of a run.
    Audit {
        layout: LayoutArgument<'a>,
        program: &'a str,
        trace: &'a str,
    },
    /// Writes the canonical form of the layout.
    Check {
        layout: LayoutArgument<'a>,
    },
    /// Assembles.
    Asm {
        source: &'a str,
    },
    /// Writes the listing of a program.
    List {
        program: &'a str,
    },
    /// Writes the text of a drawn program, or runs it.
    Gen {
        number: u32,
        run: bool,
    },
    /// Writes the help text.
    Help,
    /// Writes the help text of a command.
    HelpOn(CommandName),
    /// Writes the version.
    Version,
}

impl<'a> LayoutArgument<'a> {
    /// The layout that an argument names.
    pub fn from_argument(argument: &'a str) -> Self
        ensures { layout_of result ≡ layout_in argument.entry.now }
    {
        match argument {
            "plain" => LayoutArgument::Plain,
            name => LayoutArgument::File(name),
        }
    }
}

/// A command without positional arguments.
fn bare<'a>(name: CommandName) -> Option<Command<'a>>
    ensures { (given : Given) → option_map asked_of result ≡ asked_by name [] given }
{
    match name {
        CommandName::Help | CommandName::HelpOption | CommandName::HelpLetter => {
            Some(Command::Help)
        }
        CommandName::Version | CommandName::VersionLetter => Some(Command::Version),
        CommandName::Machine
        | CommandName::Run
        | CommandName::Moves
        | CommandName::Rounds
        | CommandName::Orders
        | CommandName::Conform
        | CommandName::Debug => None,
        CommandName::Time
        | CommandName::Audit
        | CommandName::Check
        | CommandName::Asm
        | CommandName::List
        | CommandName::Gen => None,
    }
}

/// A command with one positional argument.
fn with_one<'a>(name: CommandName, argument: &'a str, options: Options<'a>) -> Option<Command<'a>>
    ensures { option_map asked_of result ≡ asked_by name (argument.entry.now ∷ []) (given_of options.entry) }
{
    match name {
        CommandName::Machine => Some(Command::Machine {
            program: argument,
            options: MachineOptions {
                limit: options.limit.unwrap_or(DEFAULT_LIMIT),
                show_retired: matches!(lines_of(options.show), Show::Retired),
                mul: options.mul,
                every: options.every,
            },
        }),
        CommandName::Check => Some(Command::Check {
            layout: LayoutArgument::from_argument(argument),
        }),
        CommandName::Asm => Some(Command::Asm { source: argument }),
        CommandName::List => Some(Command::List { program: argument }),
        CommandName::Gen => {
            let number = read_count(argument)?;
            Some(Command::Gen {
                number,
                run: options.run,
            })
        }
        CommandName::Help => Some(Command::HelpOn(CommandName::from_topic(argument)?)),
        CommandName::Run
        | CommandName::Moves
        | CommandName::Rounds
        | CommandName::Orders
        | CommandName::Conform
        | CommandName::Debug
        | CommandName::Time
        | CommandName::Audit => None,
        CommandName::HelpOption
        | CommandName::HelpLetter
        | CommandName::Version
        | CommandName::VersionLetter => None,
    }
}

/// The options of `orders`.
fn orders_options(options: Options<'_>) -> OrdersOptions
    ensures { result ≡ orders_options_of (given_of options.entry) }
{
    OrdersOptions {
        issues: options.issues.unwrap_or(DEFAULT_ISSUES),
        states: options.states.unwrap_or(DEFAULT_STATES),
        without: options.without,
        show_edges: shows_edges(options.show),
    }
}

/// The options of `time`.
fn time_options<'a>(options: Options<'a>) -> TimeOptions<'a>
    ensures { times_view result ≡ times_of (given_of options.entry) }
{
    TimeOptions {
        limit: options.limit.unwrap_or(DEFAULT_LIMIT),
        rule: options.guess.unwrap_or(GuessRule::Any),
        seed: options.seed,
        show: time_show_of(options.show),
        input: options.input,
    }
}

/// A command with two positional arguments: a layout and a program.
fn with_two<'a>(
    name: CommandName,
    layout: &'a str,
    program: &'a str,
    options: Options<'a>,
) -> Option<Command<'a>>
    ensures { option_map asked_of result
        ≡ asked_by name (layout.entry.now ∷ program.entry.now ∷ []) (given_of options.entry) }
{
    let layout = LayoutArgument::from_argument(layout);
    let limit = options.limit.unwrap_or(DEFAULT_LIMIT);
    let rule = options.guess.unwrap_or(GuessRule::Any);
    match name {
        CommandName::Run => Some(Command::Run {
            layout,
            program,
            options: RunOptions {
                schedule: options.schedule(),
                limit,
                reporting: Reporting {
                    show: lines_of(options.show),
                    every: options.every,
                },
            },
        }),
        CommandName::Moves => {
            let file = options.script?;
            Some(Command::Moves {
                layout,
                program,
                schedule: Schedule::Script(file),
                limit,
                every: options.every,
            })
        }
        CommandName::Rounds => Some(Command::Rounds {
            layout,
            program,
            limit,
            every: options.every,
            rule,
        }),
        CommandName::Orders => Some(Command::Orders {
            layout,
            program,
            options: orders_options(options),
        }),
        CommandName::Conform => Some(Command::Conform {
            layout,
            program,
            limit,
        }),
        CommandName::Debug => Some(Command::Debug { layout, program }),
        CommandName::Machine
        | CommandName::Time
        | CommandName::Audit
        | CommandName::Check
        | CommandName::Asm
        | CommandName::List => None,
        CommandName::Gen
        | CommandName::Help
        | CommandName::HelpOption
        | CommandName::HelpLetter
        | CommandName::Version
        | CommandName::VersionLetter => None,
    }
}

/// A command with three or more positional arguments.
fn with_more<'a>(
    name: CommandName,
    first: &'a str,
    program: &'a str,
    others: &'a [String],
    options: Options<'a>,
) -> Option<Command<'a>>
    requires { 1 ≤ length others.now }
    ensures { option_map asked_of result ≡ asked_by name
        (first.entry.now ∷ program.entry.now ∷ map string_bytes others.entry.now) (given_of options.entry) }
{
    match (name, others) {
        (CommandName::Time, layouts) => Some(Command::Time {
            delays: first,
            program,
            layouts,
            options: time_options(options),
        }),
        (CommandName::Audit, [trace]) => Some(Command::Audit {
            layout: LayoutArgument::from_argument(first),
            program,
            trace: trace.as_str(),
        }),
        _ => None,
    }
}

/// A command with these positional arguments and options, or None if an argument is missing.
fn with_arguments<'a>(
    name: CommandName,
    positional: &'a [String],
    options: Options<'a>,
) -> Option<Command<'a>>
    ensures { option_map asked_of result
        ≡ asked_by name (map string_bytes positional.entry.now) (given_of options.entry) }
{
    match positional {
        [] => bare(name),
        [argument] => with_one(name, argument.as_str(), options),
        [layout, program] => with_two(name, layout.as_str(), program.as_str(), options),
        [first, program, others @ ..] => {
            with_more(name, first.as_str(), program.as_str(), others, options)
        }
    }
}

/// The positional arguments: `count` arguments after the first.
fn positional(arguments: &[String], count: usize) -> &[String]
    ensures { result.now ≡ take count (drop 1 arguments.now) }
{
    let later = arguments.get(1..).unwrap_or(&[]);
    later.get(..count).unwrap_or(later)
}

/// What is asked for if no argument is left, or None if one is missing.
#[tactic(auto, using(crate::proofs::Completions::mapped), unfolding(crate::specs::Reading::completed))]
fn complete<'a>(arguments: &'a [String], reading: ArgumentReading<'a>) -> Option<Command<'a>>
    ensures { option_map asked_of result ≡ completed (map string_bytes arguments.entry.now) (reading_state_of reading.entry) }
{
    match reading {
        ArgumentReading::Placed(subject) => with_arguments(
            subject.name,
            positional(arguments, subject.count),
            Options::new(),
        ),
        ArgumentReading::Options(subject, options) => {
            with_arguments(subject.name, positional(arguments, subject.count), options)
        }
        ArgumentReading::Start | ArgumentReading::Value(..) => None,
    }
}

/// What the arguments ask for, or the index of the first unexpected argument; the index is their number if an argument
/// is missing.
pub fn read_arguments(arguments: &[String]) -> Result<Command<'_>, u32>
    ensures answers { MatchResult result
        (λ command. Asks (map string_bytes arguments.now) (asked_of command))
        (λ index. IsBadAt (map string_bytes arguments.now) index) }
    ensures bounded { IfOk result (λ command. IsBounded (asked_of command)) }
{
    let mut reading = ArgumentReading::Start;
    // No command has more than thirty-four arguments, so the index stays small.
    let mut index: u32 = 0;
    for argument in arguments {
        let Some(later) = reading.follow(argument.as_str()) else {
            return Err(index);
        };
        reading = later;
        index += 1;
    }
    complete(arguments, reading).ok_or(index)
}
