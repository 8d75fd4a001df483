//! Options of a run: what it shows, its guess rule, and the maximum limits of retired instructions, of the statements
//! of a drawn program, and of a search of all orders.
#![tactic(auto)]

mod guess_rule;
mod reporting;
mod show;
mod time_show;

pub use guess_rule::GuessRule;
pub use reporting::Reporting;
pub use show::Show;
pub use time_show::TimeShow;
