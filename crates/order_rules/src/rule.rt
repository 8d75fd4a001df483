//! The rules that can be taken away.

ghost use Rattle.std.specs.Prelude.{◌≡◌, find};
ghost use Rattle.std.specs.Option.{option_copied};
ghost use Rattle.order_rules.specs.Rules.{all_rules, is_rule_name, rule_holds as is_kept, rule_name, rule_named, rule_number};

/// A rule that can be taken away: a bar of a row of the table of moves, a step of a meeting, or a rule of layouts.
#[derive(Clone, Copy, PartialEq, Eq)]
pub enum Rule {
    /// The requests of an issued instruction must fit into the lane.
    IssueLaneFull,
    /// An instruction must meet the result of its stage before it climbs.
    ClimbNotMet,
    /// An instruction must send what it owes before it climbs.
    ClimbOwes,
    /// An instruction must not climb past the last stage that can serve it.
    ClimbNotDone,
    /// A result must meet the instruction of its stage before it falls.
    FallNotMet,
    /// An instruction must have the values of its sources before it is executed.
    ExecuteSourceMissing,
    /// A dead instruction is not executed.
    ExecuteDead,
    /// A dead instruction is not launched.
    LaunchDead,
    /// A load or a store must meet the result of its stage before it is launched.
    LaunchNotMet,
    /// An instruction must have the values of its sources before it is launched.
    LaunchSourceMissing,
    /// A load or a store must be answered before it is recovered.
    RecoverNotDone,
    /// An instruction must meet the result of its stage before it leaves.
    LeaveNotMet,
    /// An instruction must send what it owes before it leaves.
    LeaveOwes,
    /// An instruction must be done, and what it launched recovered, before it leaves.
    LeaveNotDone,
    /// A result must meet the instruction of its stage before it leaves.
    ExitNotMet,
    /// An instruction must meet the result of its stage before it calls the environment.
    ServeNotMet,
    /// An instruction that meets a turn or a halt dies.
    MeetDie,
    /// A source without a value takes the value that it meets.
    MeetGarner,
    /// A value is killed by an instruction that will write its register.
    MeetKill,
    /// A value is updated by an instruction that has written its register.
    MeetUpdate,
    /// Nothing turns control above the stage from which memory is launched.
    ControlAboveMemory,
}

/// All rules.
const RULES: [Rule; 21] = [
    Rule::IssueLaneFull,
    Rule::ClimbNotMet,
    Rule::ClimbOwes,
    Rule::ClimbNotDone,
    Rule::FallNotMet,
    Rule::ExecuteSourceMissing,
    Rule::ExecuteDead,
    Rule::LaunchDead,
    Rule::LaunchNotMet,
    Rule::LaunchSourceMissing,
    Rule::RecoverNotDone,
    Rule::LeaveNotMet,
    Rule::LeaveOwes,
    Rule::LeaveNotDone,
    Rule::ExitNotMet,
    Rule::ServeNotMet,
    Rule::MeetDie,
    Rule::MeetGarner,
    Rule::MeetKill,
    Rule::MeetUpdate,
    Rule::ControlAboveMemory,
];

/// Finds the rule of this name in the list.
fn find_named<'a>(rules: &'a [Rule], text: &str) -> Option<&'a Rule>
    ensures { option_copied result ≡ find (is_rule_name text.now) rules.now }
{
    rules.iter().find(|rule| rule.is_named(text))
}

impl Rule {
    /// The name of the rule: its move and its bar, or the step of the meeting.
    pub fn name(self) -> &'static str
        ensures { result.now ≡ rule_name self }
    {
        match self {
            Rule::IssueLaneFull => "issue:LaneFull",
            Rule::ClimbNotMet => "climb:NotMet",
            Rule::ClimbOwes => "climb:Owes",
            Rule::ClimbNotDone => "climb:NotDone",
            Rule::FallNotMet => "fall:NotMet",
            Rule::ExecuteSourceMissing => "execute:SourceMissing",
            Rule::ExecuteDead => "execute:Dead",
            Rule::LaunchDead => "launch:Dead",
            Rule::LaunchNotMet => "launch:NotMet",
            Rule::LaunchSourceMissing => "launch:SourceMissing",
            Rule::RecoverNotDone => "recover:NotDone",
            Rule::LeaveNotMet => "leave:NotMet",
            Rule::LeaveOwes => "leave:Owes",
            Rule::LeaveNotDone => "leave:NotDone",
            Rule::ExitNotMet => "exit:NotMet",
            Rule::ServeNotMet => "serve:NotMet",
            Rule::MeetDie => "meet:die",
            Rule::MeetGarner => "meet:garner",
            Rule::MeetKill => "meet:kill",
            Rule::MeetUpdate => "meet:update",
            Rule::ControlAboveMemory => "layout:ControlAboveMemory",
        }
    }

    /// Whether the text is the name of the rule.
    fn is_named(self, text: &str) -> bool
        ensures { result ≡ is_rule_name text.now self }
    {
        text == self.name()
    }

    /// The rule of this name; `None` if no rule has it.
    #[tactic(auto, unfolding(crate::specs::Rules::rule_named))]
    pub fn named(text: &str) -> Option<Rule>
        ensures { result ≡ rule_named text.now }
    {
        find_named(&RULES, text).copied()
    }

    /// The index of the rule among all.
    #[inline(always)]
    fn number(self) -> u32
        ensures { result ≡ rule_number self }
    {
        match self {
            Rule::IssueLaneFull => 0,
            Rule::ClimbNotMet => 1,
            Rule::ClimbOwes => 2,
            Rule::ClimbNotDone => 3,
            Rule::FallNotMet => 4,
            Rule::ExecuteSourceMissing => 5,
            Rule::ExecuteDead => 6,
            Rule::LaunchDead => 7,
            Rule::LaunchNotMet => 8,
            Rule::LaunchSourceMissing => 9,
            Rule::RecoverNotDone => 10,
            Rule::LeaveNotMet => 11,
            Rule::LeaveOwes => 12,
            Rule::LeaveNotDone => 13,
            Rule::ExitNotMet => 14,
            Rule::ServeNotMet => 15,
            Rule::MeetDie => 16,
            Rule::MeetGarner => 17,
            Rule::MeetKill => 18,
            Rule::MeetUpdate => 19,
            Rule::ControlAboveMemory => 20,
        }
    }
}

/// Whether the rule holds, because it is not the one that is taken away.
#[inline(always)]
#[tactic(auto, unfolding(crate::specs::Rules::rule_holds))]
pub fn kept(away: Option<Rule>, rule: Rule) -> bool
    ensures { result ≡ is_kept away rule }
{
    match away {
        Some(away) => away.number() != rule.number(),
        None => true,
    }
}
