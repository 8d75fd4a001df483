//! The arguments read one by one: what is known after each of them.
#![tactic(auto, unfolding(crate::specs::Reading::follow))]

ghost use Rattle.std.specs.Prelude.{◌≡◌, ◌+◌, ◌<◌, ◌^◌, option_map};
ghost use Rattle.cli_arguments.specs.Reading.{follow, has_place, one_place_more, after_option, after_place, nothing_given};
ghost use Rattle.cli_arguments.specs.Views.{given_of, reading_state_of};

use crate::names::CommandName;
use crate::options::{Key, Options};

/// A command with this many positional arguments.
#[derive(Clone, Copy)]
pub(crate) struct Subject {
    pub(crate) name: CommandName,
    pub(crate) count: usize,
}

/// What is known after the arguments that were read.
#[derive(Clone, Copy)]
pub(crate) enum ArgumentReading<'a> {
    /// No argument yet.
    Start,
    /// The command and its positional arguments so far.
    Placed(Subject),
    /// All positional arguments, and some options.
    Options(Subject, Options<'a>),
    /// An option whose value comes next.
    Value(Subject, Options<'a>, Key),
}

impl Subject {
    /// Whether one more positional argument may follow, and this is one.
    fn has_place(&self, argument: &str) -> bool
        ensures { result ≡ has_place self.now argument.now }
    {
        self.count < self.name.most() && self.name.is_positional(argument)
    }

    /// With one more positional argument.
    fn one_more(self) -> Self
        requires { self.count + 1 < 2 ^ 64 }
        ensures { result ≡ one_place_more self }
    {
        Subject {
            name: self.name,
            count: self.count + 1,
        }
    }
}

/// What is known after an option's own name.
fn after_subject<'a>(
    subject: Subject,
    options: Options<'a>,
    key: Option<Key>,
) -> Option<ArgumentReading<'a>>
    ensures { option_map reading_state_of result ≡ after_option subject (given_of options.entry) key }
{
    let key = key?;
    if !key.is_of(subject.name) || options.has(key) {
        return None;
    }
    match key {
        Key::Mul => Some(ArgumentReading::Options(
            subject,
            Options {
                mul: true,
                ..options
            },
        )),
        Key::Run => Some(ArgumentReading::Options(
            subject,
            Options {
                run: true,
                ..options
            },
        )),
        Key::Limit
        | Key::Every
        | Key::Show
        | Key::Script
        | Key::Seed
        | Key::Guess
        | Key::Input
        | Key::Issues
        | Key::States
        | Key::Without => Some(ArgumentReading::Value(subject, options, key)),
    }
}

/// What is known after one more positional argument, or after the first option's own name if there are enough of them.
fn after_place<'a>(subject: Subject, argument: &'a str) -> Option<ArgumentReading<'a>>
    ensures { option_map reading_state_of result ≡ after_place subject argument.entry.now }
{
    if subject.has_place(argument) {
        return Some(ArgumentReading::Placed(subject.one_more()));
    }
    if subject.name.fewest() > subject.count {
        return None;
    }
    after_subject(subject, Options::new(), Key::from_argument(argument))
}

impl<'a> ArgumentReading<'a> {
    /// What is known after one more argument, or None if that argument is unexpected.
    pub(crate) fn follow(self, argument: &'a str) -> Option<Self>
        ensures { option_map reading_state_of result ≡ follow (reading_state_of self.entry) argument.entry.now }
    {
        match self {
            ArgumentReading::Start => {
                let name = CommandName::from_argument(argument)?;
                Some(ArgumentReading::Placed(Subject { name, count: 0 }))
            }
            ArgumentReading::Placed(subject) => after_place(subject, argument),
            ArgumentReading::Options(subject, options) => {
                after_subject(subject, options, Key::from_argument(argument))
            }
            ArgumentReading::Value(subject, options, key) => {
                let options = options.with_value(subject.name, key, argument)?;
                Some(ArgumentReading::Options(subject, options))
            }
        }
    }
}
