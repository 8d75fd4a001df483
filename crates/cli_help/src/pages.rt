//! The texts, a file for each command.

pub(crate) mod asm;
pub(crate) mod audit;
pub(crate) mod check;
pub(crate) mod conform;
pub(crate) mod debug;
pub(crate) mod drawn;
pub(crate) mod help;
pub(crate) mod list;
pub(crate) mod machine;
pub(crate) mod moves;
pub(crate) mod orders;
pub(crate) mod rounds;
pub(crate) mod run;
pub(crate) mod time;
