//! Whether a list of moves is wrong at its last move: the move, or the state that it leads to, differs from what the
//! sequential machine does.
#![tactic(auto)]

mod judging;
mod replies;
mod retiring;
mod serving;
mod states;

pub use judging::{FailedTest, ProgramSetting, StateSeen, judge_move, judge_state};
