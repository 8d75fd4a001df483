//! The options of the commands, and what they give.
#![tactic(auto, unfolding(crate::specs::Reading::key_in, crate::specs::Reading::rule_in, crate::specs::Reading::given_with_value))]

ghost use Rattle.std.specs.Prelude.{◌≡◌, option_map};
ghost use Rattle.cli_arguments.specs.declared.options.Key.TheVariants as keys;
ghost use Rattle.cli_arguments.specs.Options.{most_limit_of, takes_key};
ghost use Rattle.cli_arguments.specs.Reading.{key_in, rule_in, has_key, nothing_given, given_with_value};
ghost use Rattle.cli_arguments.specs.Arguments.{schedule_of};
ghost use Rattle.cli_arguments.specs.Views.{given_of, schedule_view};

use crate::amounts::read_amount;
use crate::names::{CommandName, is_file_name};
use crate::numbers::{read_number, read_positive};
use crate::shown::Shown;
use order_rules::Rule;
use run_options::GuessRule;

/// The maximum number of retired instructions after `--limit` and `--every`.
const MOST_LIMIT: u64 = 1_000_000_000_000;

/// The same after `--limit` when moves are timed.
const MOST_TIMED_LIMIT: u64 = 1_000_000_000;

/// The maximum number after `--issues`.
const MOST_ISSUES: u64 = 64;

/// The maximum number after `--states`.
const MOST_STATES: u64 = 16_777_216;

/// The largest seed after `--seed`.
const MOST_SEED: u64 = 0xFFFF_FFFF;

/// What chooses the moves of a run.
#[derive(Clone, Copy)]
pub enum Schedule<'a> {
    /// The script in a file of this name.
    Script(&'a str),
    /// They are drawn from this seed, among those that the guess rule keeps.
    Seed(u32, GuessRule),
    /// The fixed rule, among those that the guess rule keeps.
    Rule(GuessRule),
}

/// The options by their names.
#[derive(Clone, Copy)]
pub enum Key {
    Limit,
    Every,
    Show,
    Script,
    Seed,
    Guess,
    Input,
    Issues,
    States,
    Without,
    Mul,
    Run,
}

/// The values of the options that were read.
#[derive(Clone, Copy)]
pub(crate) struct Options<'a> {
    pub(crate) limit: Option<u64>,
    pub(crate) every: Option<u64>,
    pub(crate) show: Option<Shown>,
    pub(crate) script: Option<&'a str>,
    pub(crate) seed: Option<u32>,
    pub(crate) guess: Option<GuessRule>,
    pub(crate) input: Option<&'a str>,
    pub(crate) issues: Option<u32>,
    pub(crate) states: Option<u32>,
    pub(crate) without: Option<Rule>,
    pub(crate) mul: bool,
    pub(crate) run: bool,
}

impl Key {
    /// The option that begins with this argument.
    pub(crate) fn from_argument(argument: &str) -> Option<Self>
        ensures { result ≡ key_in argument.now }
    {
        match argument {
            "--limit" => Some(Key::Limit),
            "--every" => Some(Key::Every),
            "--show" => Some(Key::Show),
            "--script" => Some(Key::Script),
            "--seed" => Some(Key::Seed),
            "--guess" => Some(Key::Guess),
            "--input" => Some(Key::Input),
            "--issues" => Some(Key::Issues),
            "--states" => Some(Key::States),
            "--without" => Some(Key::Without),
            "--mul" => Some(Key::Mul),
            "--run" => Some(Key::Run),
            _ => None,
        }
    }

    /// Whether a command has this option.
    pub(crate) fn is_of(self, name: CommandName) -> bool
        ensures { result ≡ takes_key name self }
    {
        match (name, self) {
            (CommandName::Machine, Key::Limit | Key::Every | Key::Show | Key::Mul) => true,
            (CommandName::Run, Key::Limit | Key::Every | Key::Show) => true,
            (CommandName::Run, Key::Script | Key::Seed | Key::Guess) => true,
            (CommandName::Moves, Key::Limit | Key::Every | Key::Script) => true,
            (CommandName::Rounds, Key::Limit | Key::Every | Key::Guess) => true,
            (CommandName::Orders, Key::Issues | Key::States | Key::Without | Key::Show) => true,
            (CommandName::Conform, Key::Limit) => true,
            (CommandName::Time, Key::Limit | Key::Show) => true,
            (CommandName::Time, Key::Seed | Key::Guess | Key::Input) => true,
            (CommandName::Gen, Key::Run) => true,
            _ => false,
        }
    }
}

/// The guess rule that the value of `--guess` names.
fn rule_of(argument: &str) -> Option<GuessRule>
    ensures { result ≡ rule_in argument.now }
{
    match argument {
        "any" => Some(GuessRule::Any),
        "next" => Some(GuessRule::Next),
        "taken" => Some(GuessRule::Taken),
        "backward" => Some(GuessRule::Backward),
        "wait" => Some(GuessRule::Wait),
        _ => None,
    }
}

/// The maximum number of retired instructions after `--limit` of a command.
fn most_limit(name: CommandName) -> u64
    ensures { result ≡ most_limit_of name }
{
    match name {
        CommandName::Time => MOST_TIMED_LIMIT,
        _ => MOST_LIMIT,
    }
}

impl<'a> Options<'a> {
    /// No option yet.
    pub(crate) fn new() -> Self
        ensures { given_of result ≡ nothing_given }
    {
        Options {
            limit: None,
            every: None,
            show: None,
            script: None,
            seed: None,
            guess: None,
            input: None,
            issues: None,
            states: None,
            without: None,
            mul: false,
            run: false,
        }
    }

    /// Whether an option that excludes this one has been given: the same one; or a script, for a seed or a guess rule;
    /// or one of these, for a script.
    pub(crate) fn has(&self, key: Key) -> bool
        ensures { result ≡ has_key (given_of self.now) key }
    {
        match key {
            Key::Limit => self.limit.is_some(),
            Key::Every => self.every.is_some(),
            Key::Show => self.show.is_some(),
            Key::Script => self.script.is_some() || self.seed.is_some() || self.guess.is_some(),
            Key::Seed => self.seed.is_some() || self.script.is_some(),
            Key::Guess => self.guess.is_some() || self.script.is_some(),
            Key::Input => self.input.is_some(),
            Key::Issues => self.issues.is_some(),
            Key::States => self.states.is_some(),
            Key::Without => self.without.is_some(),
            Key::Mul => self.mul,
            Key::Run => self.run,
        }
    }

    /// What chooses the moves.
    pub(crate) fn schedule(self) -> Schedule<'a>
        ensures { schedule_view result ≡ schedule_of (given_of self.entry) }
    {
        let rule = self.guess.unwrap_or(GuessRule::Any);
        match self.script {
            Some(file) => Schedule::Script(file),
            None => match self.seed {
                Some(seed) => Schedule::Seed(seed, rule),
                None => Schedule::Rule(rule),
            },
        }
    }

    /// The options with a value of `--show`, if the command can show it.
    fn with_shown(self, name: CommandName, argument: &str) -> Option<Self>
        ensures { option_map given_of result ≡ given_with_value name (given_of self.entry) keys.Show argument.now }
    {
        let shown = Shown::from_argument(argument)?;
        shown.is_of(name).then_some(Options {
            show: Some(shown),
            ..self
        })
    }

    /// The options with a limit of that command.
    fn with_limit(self, name: CommandName, argument: &str) -> Option<Self>
        ensures { option_map given_of result ≡ given_with_value name (given_of self.entry) keys.Limit argument.now }
    {
        let limit = read_amount(argument, 0, most_limit(name))?;
        Some(Options {
            limit: Some(limit),
            ..self
        })
    }

    /// The options with an amount of `--every`.
    fn with_every(self, name: CommandName, argument: &str) -> Option<Self>
        ensures { option_map given_of result ≡ given_with_value name (given_of self.entry) keys.Every argument.now }
    {
        let every = read_amount(argument, 1, MOST_LIMIT)?;
        Some(Options {
            every: Some(every),
            ..self
        })
    }

    /// The options with a seed.
    fn with_seed(self, name: CommandName, argument: &str) -> Option<Self>
        ensures { option_map given_of result ≡ given_with_value name (given_of self.entry) keys.Seed argument.now }
    {
        let seed = read_number(argument, MOST_SEED)?;
        Some(Options {
            seed: Some(seed as u32),
            ..self
        })
    }

    /// The options with a guess rule.
    fn with_guess(self, name: CommandName, argument: &str) -> Option<Self>
        ensures { option_map given_of result ≡ given_with_value name (given_of self.entry) keys.Guess argument.now }
    {
        let rule = rule_of(argument)?;
        Some(Options {
            guess: Some(rule),
            ..self
        })
    }

    /// The options with the maximum number of issues of a search.
    fn with_issues(self, name: CommandName, argument: &str) -> Option<Self>
        ensures { option_map given_of result ≡ given_with_value name (given_of self.entry) keys.Issues argument.now }
    {
        let issues = read_positive(argument, MOST_ISSUES)?;
        Some(Options {
            issues: Some(issues as u32),
            ..self
        })
    }

    /// The options with the maximum number of states that it reaches.
    fn with_states(self, name: CommandName, argument: &str) -> Option<Self>
        ensures { option_map given_of result ≡ given_with_value name (given_of self.entry) keys.States argument.now }
    {
        let states = read_positive(argument, MOST_STATES)?;
        Some(Options {
            states: Some(states as u32),
            ..self
        })
    }

    /// The options with the rule that is taken away.
    fn with_without(self, name: CommandName, argument: &str) -> Option<Self>
        ensures { option_map given_of result ≡ given_with_value name (given_of self.entry) keys.Without argument.now }
    {
        let rule = Rule::named(argument)?;
        Some(Options {
            without: Some(rule),
            ..self
        })
    }

    /// The options with the value of one more, if the command allows it.
    pub(crate) fn with_value(self, name: CommandName, key: Key, argument: &'a str) -> Option<Self>
        ensures { option_map given_of result ≡ given_with_value name (given_of self.entry) key argument.entry.now }
    {
        match key {
            Key::Limit => self.with_limit(name, argument),
            Key::Every => self.with_every(name, argument),
            Key::Show => self.with_shown(name, argument),
            Key::Script => is_file_name(argument).then_some(Options {
                script: Some(argument),
                ..self
            }),
            Key::Seed => self.with_seed(name, argument),
            Key::Guess => self.with_guess(name, argument),
            Key::Input => is_file_name(argument).then_some(Options {
                input: Some(argument),
                ..self
            }),
            Key::Issues => self.with_issues(name, argument),
            Key::States => self.with_states(name, argument),
            Key::Without => self.with_without(name, argument),
            Key::Mul | Key::Run => None,
        }
    }
}
