//! Arguments of command lines, by the grammar: what they request, and which of them is refused.
use cli_arguments::{Command, GuessRule, LayoutArgument, Rule, Schedule, TimeShow, read_arguments};
use std::alloc::{AllocError, Global};
use std::process::Abort;

/// The arguments of a line, each of which ends at a blank or at the end of the line; an empty last argument also has a
/// blank after it.
fn owned(alloc: Global, line: &str) -> Result<Vec<String>, AllocError> {
    let mut owned = Vec::new(alloc);
    for word in line.split_terminator(' ') {
        owned.push(String::from_str(alloc, word)?)?;
    }
    Ok(owned)
}

fn words_of(rt: &(impl Abort + AllocGlobal), line: &str) -> Vec<String> {
    owned(rt.alloc(), line).ok().expect(rt, "memory")
}

/// The program, the limit, whether retired instructions are shown, and whether it multiplies.
type MachineAsked<'a> = (&'a str, u64, bool, bool);

/// What the arguments request of the sequential machine.
fn machine_asked(words: &[String]) -> Option<MachineAsked<'_>> {
    match read_arguments(words) {
        Ok(Command::Machine { program, options }) => Some((
            program,
            options.limit,
            options.show_retired,
            options.mul,
        )),
        _ => None,
    }
}

const MACHINE_ROWS: [(&str, MachineAsked<'static>); 4] = [
    ("machine p", ("p", 10_000_000, false, false)),
    ("machine plain --mul", ("plain", 10_000_000, false, true)),
    (
        "machine p --show retired --limit 0000000003",
        ("p", 3, true, false),
    ),
    (
        "machine p --mul --limit 1000000000 --show report",
        ("p", 1_000_000_000, false, true),
    ),
];

fn asks_machine(rt: &(impl Abort + AllocGlobal), line: &str, wanted: MachineAsked<'_>) -> bool {
    let words = words_of(rt, line);
    machine_asked(words.as_slice()) == Some(wanted)
}

#[test]
fn machine_words(rt: HostRuntime) {
    for (line, wanted) in &MACHINE_ROWS {
        assert!(rt; asks_machine(&rt, line, *wanted), "{line}");
    }
}

/// The file of the layout, or none for the built-in one.
type Checked<'a> = Option<&'a str>;

/// What the arguments request to check.
fn checked(words: &[String]) -> Option<Checked<'_>> {
    match read_arguments(words) {
        Ok(Command::Check { layout }) => Some(match layout {
            LayoutArgument::Plain => None,
            LayoutArgument::File(name) => Some(name),
        }),
        _ => None,
    }
}

const CHECK_ROWS: [(&str, Checked<'static>); 2] = [
    ("check plain", None),
    ("check plain.toml", Some("plain.toml")),
];

fn asks_check(rt: &(impl Abort + AllocGlobal), line: &str, wanted: Checked<'_>) -> bool {
    let words = words_of(rt, line);
    checked(words.as_slice()) == Some(wanted)
}

#[test]
fn check_words(rt: HostRuntime) {
    for (line, wanted) in &CHECK_ROWS {
        assert!(rt; asks_check(&rt, line, *wanted), "{line}");
    }
}

/// The script, the seed and the limit.
type RunAsked<'a> = (Option<&'a str>, Option<u32>, u64);

/// How the arguments request to run the processor.
fn run_asked(words: &[String]) -> Option<RunAsked<'_>> {
    let Ok(Command::Run { options, .. }) = read_arguments(words) else {
        return None;
    };
    let (script, seed) = match options.schedule {
        Schedule::Script(file) => (Some(file), None),
        Schedule::Seed(seed, _) => (None, Some(seed)),
        Schedule::Rule(_) => (None, None),
    };
    Some((script, seed, options.limit))
}

const RUN_ROWS: [(&str, RunAsked<'static>); 4] = [
    ("run plain p --script s", (Some("s"), None, 10_000_000)),
    (
        "run l p --show moves --limit 0 --script s",
        (Some("s"), None, 0),
    ),
    ("run plain p", (None, None, 10_000_000)),
    (
        "run plain p --seed 4294967295",
        (None, Some(4_294_967_295), 10_000_000),
    ),
];

fn asks_run(rt: &(impl Abort + AllocGlobal), line: &str, wanted: RunAsked<'_>) -> bool {
    let words = words_of(rt, line);
    run_asked(words.as_slice()) == Some(wanted)
}

#[test]
fn run_words(rt: HostRuntime) {
    for (line, wanted) in &RUN_ROWS {
        assert!(rt; asks_run(&rt, line, *wanted), "{line}");
    }
}

/// The delays, the program, the number of layouts, the limit, and what is shown of each time.
type TimeAsked<'a> = (&'a str, &'a str, usize, u64, TimeShow);

/// What the arguments request to compare.
fn time_asked(words: &[String]) -> Option<TimeAsked<'_>> {
    match read_arguments(words) {
        Ok(
            Command::Time {
                delays,
                program,
                layouts,
                options,
            },
        ) => Some((delays, program, layouts.len(), options.limit, options.show)),
        _ => None,
    }
}

const TIME_ROWS: [(&str, TimeAsked<'static>); 5] = [
    (
        "time d p plain",
        ("d", "p", 1, 10_000_000, TimeShow::Nothing),
    ),
    (
        "time d p l plain --show sites",
        ("d", "p", 2, 10_000_000, TimeShow::Sites),
    ),
    (
        "time d p l --limit 5 --show sites",
        ("d", "p", 1, 5, TimeShow::Sites),
    ),
    (
        "time d p l --show sites --limit 5",
        ("d", "p", 1, 5, TimeShow::Sites),
    ),
    (
        "time d p l --limit 1G --show moves",
        ("d", "p", 1, 1_000_000_000, TimeShow::Moves),
    ),
];

fn asks_time(rt: &(impl Abort + AllocGlobal), line: &str, wanted: TimeAsked<'_>) -> bool {
    let words = words_of(rt, line);
    time_asked(words.as_slice()) == Some(wanted)
}

#[test]
fn time_words(rt: HostRuntime) {
    for (line, wanted) in &TIME_ROWS {
        assert!(rt; asks_time(&rt, line, *wanted), "{line}");
    }
}

/// The guess rule, the seed and the file with the input.
type TimeChoice<'a> = (GuessRule, Option<u32>, Option<&'a str>);

/// How the arguments request to make the runs that are compared.
fn time_choice(words: &[String]) -> Option<TimeChoice<'_>> {
    match read_arguments(words) {
        Ok(Command::Time { options, .. }) => Some((options.rule, options.seed, options.input)),
        _ => None,
    }
}

const TIME_CHOICES: [(&str, TimeChoice<'static>); 4] = [
    ("time d p l", (GuessRule::Any, None, None)),
    (
        "time d p l --seed 7 --guess backward",
        (GuessRule::Backward, Some(7), None),
    ),
    ("time d p l --guess wait", (GuessRule::Wait, None, None)),
    (
        "time d p l --input in --guess wait",
        (GuessRule::Wait, None, Some("in")),
    ),
];

fn chooses_time(rt: &(impl Abort + AllocGlobal), line: &str, wanted: TimeChoice<'_>) -> bool {
    let words = words_of(rt, line);
    time_choice(words.as_slice()) == Some(wanted)
}

#[test]
fn time_choices(rt: HostRuntime) {
    for (line, wanted) in &TIME_CHOICES {
        assert!(rt; chooses_time(&rt, line, *wanted), "{line}");
    }
}

/// The program, the issues, the states, the rule that is taken away, and whether the edges are shown.
type OrdersAsked<'a> = (&'a str, u32, u32, Option<Rule>, bool);

/// What the arguments request to search.
fn orders_asked(words: &[String]) -> Option<OrdersAsked<'_>> {
    match read_arguments(words) {
        Ok(
            Command::Orders {
                program,
                options,
                ..
            },
        ) => Some((
            program,
            options.issues,
            options.states,
            options.without,
            options.show_edges,
        )),
        _ => None,
    }
}

const ORDERS_ROWS: [(&str, OrdersAsked<'static>); 4] = [
    ("orders plain p", ("p", 3, 1_000_000, None, false)),
    (
        "orders l p --issues 64 --states 16777216",
        ("p", 64, 16_777_216, None, false),
    ),
    (
        "orders l p --without meet:kill --issues 0000000001",
        ("p", 1, 1_000_000, Some(Rule::MeetKill), false),
    ),
    (
        "orders l p --show edges --without layout:ControlAboveMemory --states 1",
        ("p", 3, 1, Some(Rule::ControlAboveMemory), true),
    ),
];

fn asks_orders(rt: &(impl Abort + AllocGlobal), line: &str, wanted: OrdersAsked<'_>) -> bool {
    let words = words_of(rt, line);
    orders_asked(words.as_slice()) == Some(wanted)
}

#[test]
fn orders_words(rt: HostRuntime) {
    for (line, wanted) in &ORDERS_ROWS {
        assert!(rt; asks_orders(&rt, line, *wanted), "{line}");
    }
}

/// The limit, and the number of instructions between two reports of progress.
type Amounts = (u64, Option<u64>);

/// The amounts in the arguments of a run.
fn amounts(words: &[String]) -> Option<Amounts> {
    match read_arguments(words) {
        Ok(Command::Machine { options, .. }) => Some((options.limit, options.every)),
        Ok(Command::Run { options, .. }) => Some((options.limit, options.reporting.every)),
        Ok(Command::Moves { limit, every, .. }) => Some((limit, every)),
        Ok(Command::Rounds { limit, every, .. }) => Some((limit, every)),
        _ => None,
    }
}

const AMOUNT_ROWS: [(&str, Amounts); 6] = [
    ("machine p --limit 1000G", (1_000_000_000_000, None)),
    (
        "machine p --limit 999G --every 0001M",
        (999_000_000_000, Some(1_000_000)),
    ),
    (
        "run plain p --limit 9999M --every 1",
        (9_999_000_000, Some(1)),
    ),
    (
        "moves l p --every 1000G --script s --limit 0k",
        (0, Some(1_000_000_000_000)),
    ),
    ("rounds l p --limit 9999k", (9_999_000, None)),
    (
        "rounds l p --every 1000000000 --guess next",
        (10_000_000, Some(1_000_000_000)),
    ),
];

fn has_amounts(rt: &(impl Abort + AllocGlobal), line: &str, wanted: Amounts) -> bool {
    let words = words_of(rt, line);
    amounts(words.as_slice()) == Some(wanted)
}

#[test]
fn amount_words(rt: HostRuntime) {
    for (line, wanted) in &AMOUNT_ROWS {
        assert!(rt; has_amounts(&rt, line, *wanted), "{line}");
    }
}

/// Lines, and the index of the first unrecognised argument of each.
const REFUSALS: [(&str, u32); 55] = [
    ("", 0),
    ("machines", 0),
    ("machine", 1),
    ("machine  ", 1),
    ("machine --mul p", 1),
    ("machine p q", 2),
    ("machine p --seed 1", 2),
    ("machine p --limit", 3),
    ("machine p --limit 1000000001", 3),
    ("machine p --limit 00000000003", 3),
    ("machine p --limit +3", 3),
    ("machine p --limit  ", 3),
    ("machine p --show moves", 3),
    ("machine p --limit 3 --mul --limit 3", 5),
    ("check", 1),
    ("check --mul", 1),
    ("check p q", 2),
    ("check p --limit 3", 2),
    ("run", 1),
    ("run plain", 2),
    ("run plain p --seed 4294967296", 4),
    ("run plain p --mul", 3),
    ("run plain p --script", 4),
    ("run plain p --script s --seed 1", 5),
    ("run plain p --seed 1 --script s", 5),
    ("time d p --show sites", 3),
    ("time d p l --show", 5),
    ("time d p l --show retired", 5),
    ("time d p l --show Sites", 5),
    ("time d p l --show sites --show sites", 6),
    ("time d p l --show sites m", 6),
    ("run l p --show sites", 4),
    ("machine p --show sites", 3),
    ("machine p --show edges", 3),
    ("run l p --show edges", 4),
    ("time d p l --show report", 5),
    ("time d p l --show moves --show sites", 6),
    ("time d p l --seed 4294967296", 5),
    ("time d p l --seed 1k", 5),
    ("time d p l --guess never", 5),
    ("time d p l --input --limit", 5),
    ("time d p l --input a --input b", 6),
    ("time d p l --limit 1001M", 5),
    ("time d p l --script s", 4),
    ("machine p --input a", 2),
    ("orders plain", 2),
    ("orders plain p q", 3),
    ("orders plain p --issues 0", 4),
    ("orders plain p --issues 65", 4),
    ("orders plain p --issues 1k", 4),
    ("orders plain p --states 16777217", 4),
    ("orders plain p --states 0", 4),
    ("orders plain p --without climb:notMet", 4),
    ("orders plain p --show moves", 4),
    ("orders plain p --limit 5", 3),
];

fn refusal(rt: &(impl Abort + AllocGlobal), line: &str) -> Option<u32> {
    let words = words_of(rt, line);
    match read_arguments(words.as_slice()) {
        Ok(_) => None,
        Err(index) => Some(index),
    }
}

#[test]
fn words_without_a_place_are_refused(rt: HostRuntime) {
    for (line, index) in &REFUSALS {
        assert!(rt; refusal(&rt, line) == Some(*index), "{line}");
    }
}
